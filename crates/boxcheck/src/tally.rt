// How often each sheet came back.
ghost use Rattle.std.specs.Prelude.{◌≡◌};
ghost use Rattle.boxcheck.specs.Tallies.{added, all_good};

use crate::trials::Came;

/// How many trials read back the old sheet, the new one and something else. It begins with none.
#[derive(Clone, Copy, PartialEq, Eq, Debug, Default)]
pub struct Tally {
    pub old: u32,
    pub new: u32,
    pub other: u32,
}

impl Tally {
    /// One trial more.
    // Each arm counts for itself: a match that picks the field by `&mut` is no shorter, and the check does not find its proof alone.
    pub fn add(&mut self, came: Came)
        ensures { self.exit.now ≡ added came self.entry.now }
    {
        match came {
            Came::Old => self.old = self.old.saturating_add(1),
            Came::New => self.new = self.new.saturating_add(1),
            Came::Other => self.other = self.other.saturating_add(1),
        }
    }

    /// Whether nothing but the two sheets came back.
    pub fn passed(&self) -> bool
        ensures { result ≡ all_good self.now }
    {
        self.other == 0
    }
}
