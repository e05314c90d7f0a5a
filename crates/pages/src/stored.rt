// A kind of record that has a fixed number of bytes on a page.
ghost use Rattle.std.specs.Prelude.{◌≡◌, ℕ, List, length};
ghost use Rattle.pages.specs.Bytes.{AreBytes};

/// How a record is stored on a page.
pub trait Stored: Sized {
    /// How many bytes a record has, for proofs.
    ghost WIDE: { ℕ };

    /// How many bytes a record has.
    const WIDE: usize;

    /// The bytes of a record.
    ghost bytes: { Self → List ℕ };

    /// The record in given bytes.
    ghost value: { List ℕ → Self };

    /// A record's parts fit in their bytes.
    ghost fit: { Self → Type 0 };

    /// Fills a buffer with the record's bytes.
    fn write(&self, buf: &mut [u8])
        requires { length buf.old ≡ WIDE }
        ensures { buf.new ≡ bytes self.now };

    /// The record in a buffer.
    fn read(buf: &[u8]) -> Self
        requires { length buf.now ≡ WIDE }
        ensures { result ≡ value buf.now };

    /// A record that fits has so many bytes.
    ghost long: { (x : Self) → fit x → length (bytes x) ≡ WIDE };

    /// It comes back from its bytes.
    ghost back: { (x : Self) → fit x → value (bytes x) ≡ x };

    /// What is read from bytes fits.
    ghost fits: { (bs : List ℕ) → length bs ≡ WIDE → AreBytes bs → fit (value bs) };
}
