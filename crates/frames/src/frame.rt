// The frame of a page.
ghost use Rattle.std.specs.Prelude.{◌≡◌};
ghost use Rattle.std.proofs.Common.{refl};
ghost use Rattle.frames.specs.Frames.{written, settled, released};

use geometry::third::Third;
use pages::paged::Paged;

/// The most pages that a volume can have.
pub const MOST_PAGES: usize = 21;

/// A page's image now, its image as last forced, whether it changed since then, and the third of the log that has its newest record.
#[derive(Clone, Copy, PartialEq, Eq, Debug)]
pub struct Frame {
    pub now: [u8; 512],
    pub forced: [u8; 512],
    pub changed: bool,
    pub third: Option<Third>,
}

// A page written back to equal bytes counts as changed.
impl Paged for Frame {
    ghost image = { λ frame. frame.now };

    ghost written = { written };

    ghost holds = { λ frame bytes. refl };

    fn image(&self) -> [u8; 512] {
        self.now
    }

    fn write(&mut self, bytes: &[u8; 512]) {
        self.now = *bytes;
        self.changed = true;
    }
}

impl Frame {
    /// After a force whose record stands in `third`.
    pub fn settle(&mut self, third: Third)
        ensures { self.new ≡ settled third self.old }
    {
        if self.changed {
            self.forced = self.now;
            self.changed = false;
            self.third = Some(third);
        }
    }

    /// After the records in `third` were given up.
    pub fn release(&mut self, third: Third)
        ensures { self.new ≡ released third self.old }
    {
        if self.third == Some(third) {
            self.third = None;
        }
    }
}
