// Whether the leaves of a register are right, and no two of its files have a sector in common: their extents are collected, and sorted.
ghost use Rattle.std.specs.Prelude.{◌≡◌, ◌+◌, ◌≤◌, ◌++◌, map, length};
ghost use Rattle.arrayvec.specs.ArrayVec.{array_vec_len};
ghost use Rattle.tree.specs.Tree.{entries};
ghost use Rattle.register.specs.Images.{node_of};
ghost use Rattle.register_check.specs.Extents.{extent, apart};
ghost use Rattle.register_check.specs.Faults.{answer_of, fault_of_leaves};

use crate::extents::{Area, Extent, apart};
use crate::search::Leaves;
use arrayvec::ArrayVec;
use pages::page::read_row;
use pages::paged::{Paged, image_at};
use pages::records::{Entry, MOST_ENTRIES, MOST_ITEMS};
use refusal::Refusal;
use rows::row::Row;

// The most extents of a register: those of 20 leaves of 15 entries.
const MOST_EXTENTS: usize = MOST_ITEMS * MOST_ENTRIES;

// Adds the extents of a leaf's entries.
fn add_extents(entries: &[Entry], extents: &mut ArrayVec<Extent, MOST_EXTENTS>)
    requires { array_vec_len extents.old + length entries.now ≤ 300 }
    ensures { extents.new.items ≡ extents.old.items ++ map extent entries.now }
{
    for entry in entries {
        extents.push(Extent::from(entry));
    }
}

impl<'a, P: Paged> Leaves<'a, P> {
    // The extents of all entries.
    fn extents(&self) -> ArrayVec<Extent, MOST_EXTENTS>
        ensures { result.items ≡ map extent (entries (map (node_of (map P.image self.now.pages.now)) self.now.items)) }
    {
        let mut extents = ArrayVec::new();
        for item in self.items.as_slice() {
            let page = image_at(self.pages, usize::from(item.page));
            let entries: Row<Entry, MOST_ENTRIES> = read_row(&page, MOST_ENTRIES);
            add_extents(entries.as_slice(), &mut extents);
        }
        extents
    }

    // Whether no sector lies in the extents of two entries.
    fn extents_apart(&self) -> bool
        ensures { result ≡ apart (map extent (entries (map (node_of (map P.image self.now.pages.now)) self.now.items))) }
    {
        let mut extents = self.extents();
        apart(&mut extents)
    }

    // Whether each leaf is right and no two files have a sector in common, or 13 with the page of the first leaf that is not right, or else the root's.
    pub(crate) fn check(&self, area: Area) -> Result<(), Refusal>
        ensures { result ≡ answer_of (fault_of_leaves area.first area.sectors (map P.image self.now.pages.now) self.now.items) }
    {
        self.leaves_right(area)?;
        if !self.extents_apart() {
            return Err(Refusal::RegisterBroken(0));
        }
        Ok(())
    }
}
