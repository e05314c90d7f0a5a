// The extents of a register's files: whether they lie in place, and apart.
ghost use Rattle.std.specs.Prelude.{◌≡◌};
ghost use Rattle.register_check.specs.Chains.{chained};
ghost use Rattle.register_check.specs.Extents.{extent, ends_by, in_place, apart};

use geometry::sizes::LONGEST;
use pages::records::Entry;

/// The sectors of a file: the first, and how many.
#[derive(Clone, Copy, Default, PartialEq, Eq, PartialOrd, Ord, Debug)]
pub(crate) struct Extent {
    pub start: u32,
    pub sectors: u32,
}

// The extent of an entry's file, also of one that is longer than a file may be.
// Not by `extent_sectors`, which refuses such a length: that of an entry that is checked may be any.
impl From<&Entry> for Extent {
    ghost from_gives = { λ entry x. x ≡ extent entry.now };

    fn from(entry: &Entry) -> Extent {
        Extent {
            start: entry.start,
            sectors: entry.length.div_ceil(512) + 2,
        }
    }
}

impl Extent {
    // Whether it ends before a sector.
    fn ends_by(&self, sector: u32) -> bool
        ensures { result ≡ ends_by self.now sector }
    {
        self.start <= sector && self.sectors <= sector - self.start
    }
}

/// The sectors for files: from `first` on and below `sectors`.
#[derive(Clone, Copy, PartialEq, Eq, Debug)]
pub struct Area {
    pub first: u32,
    pub sectors: u32,
}

impl Area {
    // Whether an entry's length is one that a file may have, and its extent lies here.
    pub(crate) fn holds(&self, entry: &Entry) -> bool
        ensures { result ≡ in_place self.now.first self.now.sectors entry.now }
    {
        entry.length <= LONGEST
            && self.first <= entry.start
            && Extent::from(entry).ends_by(self.sectors)
    }
}

// Whether each extent ends before the next begins.
fn in_turn(extents: &[Extent]) -> bool
    ensures { result ≡ chained (λ x y. ends_by x y.start) extents.now }
{
    extents.is_sorted_by(|x, y| x.ends_by(y.start))
}

// Whether no two extents meet. It leaves them in order.
#[tactic(auto, using(crate::proofs::Neighbours::neighbours))]
pub(crate) fn apart(extents: &mut [Extent]) -> bool
    ensures { result ≡ apart extents.old }
{
    extents.sort_unstable();
    in_turn(extents)
}
