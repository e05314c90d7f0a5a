// The entries of a register, one after another.
ghost use Rattle.std.specs.Prelude.{◌≡◌, List, map};
ghost use Rattle.std.specs.Iterator.{YieldsFirst, item_count};
ghost use Rattle.names.specs.Orders.{before};
ghost use Rattle.rows.specs.Lists.{Sorted};
ghost use Rattle.pages.specs.declared.records.Entry.{Entry};
ghost use Rattle.register.specs.Entries.{entries_above};
ghost use Rattle.register.specs.Images.{key_of, entries_of};

use crate::lookups::Lookup;
use names::bound::Bound;
use pages::paged::Paged;
use pages::records::Entry;
use std::marker::Model;

/// The entries of a register that are still to come, in the order of their keys.
#[derive(Drop)]
pub struct Entries<'a, P: Paged> {
    register: Lookup<'a, P>,
    last: Bound,
}

// Clauses see the entries that are still to come.
impl<'a, P: Paged> Model for Entries<'a, P> {
    ghost Value = { List Entry };

    ghost view = { λ e. entries_above e.last.bytes (entries_of (map P.image e.register.pages.now)) };
}

impl<'a, P: Paged> Iterator for Entries<'a, P> {
    type Item = Entry;

    ghost next_gives = { YieldsFirst (λ left. left) };

    ghost remaining = { item_count (λ left. left) };

    fn next(&mut self) -> Option<Entry> {
        let entry = self.register.above(&self.last)?;
        let bytes = entry.key;
        self.last = Bound { bytes };
        Some(entry)
    }
}

impl<'a, P: Paged> Lookup<'a, P> {
    /// All entries, in the order of their keys.
    #[tactic(auto, using(crate::proofs::SortedEntries::sorted))]
    pub fn entries(&self) -> Entries<'a, P>
        ensures all { result ≡ entries_of (map P.image self.now.pages.now) }
        ensures ordered { Sorted key_of before (entries_of (map P.image self.now.pages.now)) }
    {
        let last = Bound::lowest();
        Entries {
            register: Lookup { pages: self.pages },
            last,
        }
    }
}
