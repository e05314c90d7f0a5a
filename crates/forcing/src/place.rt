// Where the log stands.
ghost use Rattle.std.specs.Prelude.{◌≤◌};

use geometry::third::Third;

/// Where the log of an up volume stands.
#[derive(Clone, Copy, PartialEq, Eq, Debug)]
pub struct LogPlace {
    /// The third that the anchors name.
    pub anchored: Third,
    /// The group number of the first record in each third.
    pub firsts: [u32; 3],
    /// The third of the last record, and the sector behind it.
    pub third: Third,
    pub place: u32,
    /// The next group number.
    pub next: u32,
    /// The last group forced since recovery, or 0.
    pub last: u32,
    ghost near: { place ≤ 4096 },
}
