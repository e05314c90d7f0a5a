// A table of pages, whatever else is kept beside each page's image.
ghost use Rattle.std.specs.Prelude.{◌≡◌, ℕ, ◌<◌, List, [], map, length, slice_index_or, slice_set};
ghost use Rattle.std.proofs.Common.{refl};
ghost use Rattle.pages.specs.Writes.{edit};

/// What holds a page's image.
pub trait Paged {
    /// The image that it holds.
    ghost image: { Self → List ℕ };

    /// What it is once another image was written to it.
    ghost written: { Self → List ℕ → Self };

    /// It then holds that image.
    ghost holds: { (page : Self) (bytes : List ℕ) → image (written page bytes) ≡ bytes };

    /// A copy of the image.
    // It is not lent: what keeps its image in other bytes can answer it too.
    fn image(&self) -> [u8; 512]
        ensures { result ≡ image self.now };

    /// Writes another image.
    fn write(&mut self, bytes: &[u8; 512])
        ensures { self.new ≡ written self.old bytes.now };
}

// A page by itself, with nothing beside it.
impl Paged for [u8; 512] {
    ghost image = { λ page. page };

    ghost written = { λ _ bytes. bytes };

    ghost holds = { λ page bytes. refl };

    fn image(&self) -> [u8; 512] {
        *self
    }

    fn write(&mut self, bytes: &[u8; 512]) {
        self.copy_from_slice(bytes);
    }
}

/// A copy of the image of a page.
pub fn image_at<P: Paged>(pages: &[P], page: usize) -> [u8; 512]
    requires { page < length pages.now }
    ensures { result ≡ slice_index_or (map P.image pages.now) page [] }
{
    pages[page].image()
}

/// Writes another image to a page; no other page changes.
pub fn write_at<P: Paged>(pages: &mut [P], page: usize, bytes: &[u8; 512])
    requires { page < length pages.old }
    ensures pages { pages.new ≡ edit (λ p. P.written p bytes.now) page pages.old }
    ensures images { map P.image pages.new ≡ slice_set (map P.image pages.old) page bytes.now }
{
    pages[page].write(bytes);
}
