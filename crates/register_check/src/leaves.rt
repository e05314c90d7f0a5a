// Whether a leaf of a register is right.
ghost use Rattle.std.specs.Prelude.{◌≡◌, ◌≤◌, length};
ghost use Rattle.std.specs.List.{list_all};
ghost use Rattle.register_check.specs.Leaves.{under, entry_right, leaf_right};

use crate::extents::Area;
use crate::keys::{is_key, rising};
use pages::page::formed;
use pages::records::{Entry, LEAF};

/// What bounds the entries of a leaf: its separator, that of the next leaf if there is one, and the sectors for files.
#[derive(Clone, Copy, PartialEq, Eq, Debug)]
pub(crate) struct Limits {
    pub separator: [u8; 22],
    pub next: Option<[u8; 22]>,
    pub area: Area,
}

impl Limits {
    // Whether a key is below the next separator, if there is one.
    #[tactic(auto, using(crate::proofs::KeyOrder::comparisons))]
    fn under(&self, key: &[u8; 22]) -> bool
        ensures { result ≡ under self.now.next key.now }
    {
        self.next.as_ref().is_none_or(|next| *key < *next)
    }

    // Whether an entry keeps the rules by itself.
    #[tactic(auto, using(crate::proofs::KeyOrder::comparisons))]
    fn entry_right(&self, entry: &Entry) -> bool
        ensures { result ≡ entry_right self.now entry.now }
    {
        is_key(&entry.key)
            && entry.key >= self.separator
            && self.under(&entry.key)
            && self.area.holds(entry)
    }

    // Whether each entry keeps the rules by itself.
    fn entries_right(&self, entries: &[Entry]) -> bool
        ensures { result ≡ list_all (entry_right self.now) entries.now }
    {
        entries.iter().all(|e| self.entry_right(e))
    }

    // Whether a page with these entries is a right leaf, which may be empty if it is the only one.
    pub(crate) fn leaf_right(&self, single: bool, page: &[u8; 512], entries: &[Entry]) -> bool
        requires { length entries.now ≤ 15 }
        ensures { result ≡ leaf_right self.now single page.now entries.now }
    {
        formed(LEAF, entries, page)
            && (single || !entries.is_empty())
            && rising(entries)
            && self.entries_right(entries)
    }
}
