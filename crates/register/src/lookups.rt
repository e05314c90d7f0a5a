// Look ups over pages that are lent: what the register has of a key, and of a name.
ghost use Rattle.std.specs.Prelude.{◌≡◌, ◌<◌, not, false, map, length, Some, None};
ghost use Rattle.names.specs.Orders.{before};
ghost use Rattle.rows.specs.Lists.{look_up, first_above, last_up_to};
ghost use Rattle.register.specs.Calls.{Full, NextFree};
ghost use Rattle.register.specs.Images.{key_of, leaf_of, entries_of, home, is_full};
ghost use Rattle.register.specs.Registers.{IsRegister};
ghost use Rattle.register.specs.OneProof.{IsRegister-prop};
ghost use Rattle.register.specs.Names.{has_name, newest_of, highest_version_of};
ghost use Rattle.register.specs.Seats.{Seated};

use crate::seats::{OVERFULL, Seat};
use names::bound::Bound;
use names::key::{Key, version_of};
use names::name::Name;
use names::version::{HIGHEST, Version};
use pages::page::read_row;
use pages::paged::{Paged, image_at};
use pages::records::{Entry, Item, MOST_ENTRIES, MOST_ITEMS};
use rows::row::Row;

/// Pages that are lent and hold a register.
// `pages` is public, since clauses and callers name it: who writes it has to show `kept` again, so no caller can break that fact.
#[derive(Drop)]
pub struct Lookup<'a, P: Paged> {
    pub pages: &'a [P],
    ghost kept: { IsRegister (length pages.now) (map P.image pages.now) } by { IsRegister-prop (length pages.now) (map P.image pages.now) },
}

// Whether an entry is of this name.
// No equality of two names: of the entry's bytes nothing is asked, and a `Name` is made of bytes that are one.
fn is_of(entry: &Entry, name: &Name) -> bool
    ensures { result ≡ has_name name.now.bytes entry.now }
{
    entry.key.starts_with(&name.bytes)
}

impl<'a, P: Paged> Lookup<'a, P> {
    /// The register on these pages.
    pub fn over(pages: &'a [P]) -> Lookup<'a, P>
        requires { IsRegister (length pages.now) (map P.image pages.now) }
        ensures { result.pages.now ≡ pages.now }
    {
        Lookup { pages }
    }

    // The entries of a leaf.
    fn leaf(&self, page: usize) -> Row<Entry, OVERFULL>
        requires { page < length self.now.pages.now }
        ensures { result ≡ leaf_of (map P.image self.now.pages.now) page }
    {
        read_row(&image_at(self.pages, page), MOST_ENTRIES)
    }

    // Reads the root, and the leaf that a key belongs to: that of the last item whose separator is not above it.
    pub(crate) fn home(&self, key: &[u8; 22]) -> Seat
        ensures { Seated (length self.now.pages.now) (map P.image self.now.pages.now) key.now result }
    {
        let items: Row<Item, MOST_ITEMS> = read_row(&image_at(self.pages, 0), MOST_ITEMS);
        let at = items.find(key) - 1;
        let page = items.as_slice()[at].page as usize;
        let leaf = self.leaf(page);
        let place = leaf.find(key);
        Seat {
            items,
            at,
            page,
            leaf,
            place,
        }
    }

    /// The entry of a key.
    pub fn find(&self, key: &Key) -> Option<Entry>
        ensures { result ≡ look_up key_of before key.now.bytes (entries_of (map P.image self.now.pages.now)) }
    {
        let seat = self.home(&key.bytes);
        let last = seat.leaf.as_slice()[..seat.place].last().copied();
        last.filter(|last| last.key == key.bytes)
    }

    /// The lowest entry above a bound.
    pub fn above(&self, bound: &Bound) -> Option<Entry>
        ensures { result ≡ first_above key_of before bound.now.bytes (entries_of (map P.image self.now.pages.now)) }
    {
        let seat = self.home(&bound.bytes);
        if let Some(entry) = seat.leaf.as_slice().get(seat.place) {
            return Some(*entry);
        }
        let next = seat.items.as_slice().get(seat.at + 1)?;
        let leaf = self.leaf(next.page as usize);
        leaf.as_slice().first().copied()
    }

    // The highest entry that is not above a bound.
    fn last_up_to(&self, bound: &Bound) -> Option<Entry>
        ensures { result ≡ last_up_to key_of before bound.now.bytes (entries_of (map P.image self.now.pages.now)) }
    {
        let seat = self.home(&bound.bytes);
        if let Some(last) = seat.leaf.as_slice()[..seat.place].last() {
            return Some(*last);
        }
        let before = seat.items.as_slice()[..seat.at].last()?;
        let leaf = self.leaf(before.page as usize);
        leaf.as_slice().last().copied()
    }

    /// The entry of a name's newest version.
    pub fn newest(&self, name: &Name) -> Option<Entry>
        ensures { result ≡ newest_of name.now.bytes (entries_of (map P.image self.now.pages.now)) }
    {
        let last = self.last_up_to(&Bound::at(name, HIGHEST));
        last.filter(|last| is_of(last, name))
    }

    /// The highest version of a name, if there is one.
    pub fn highest_version(&self, name: &Name) -> Option<Version>
        ensures value { elim result [ Some v ↦ highest_version_of name.now.bytes (entries_of (map P.image self.now.pages.now)) ≡ v.number | None ↦ highest_version_of name.now.bytes (entries_of (map P.image self.now.pages.now)) ≡ 0 ] }
        ensures next { elim result [ Some v ↦ NextFree name.now.bytes v.number (entries_of (map P.image self.now.pages.now)) | None ↦ NextFree name.now.bytes 0 (entries_of (map P.image self.now.pages.now)) ] }
    {
        self.newest(name)
            .and_then(|newest| Version::new(version_of(&newest.key)))
    }

    /// The page of the leaf that a key belongs to.
    pub fn page_of(&self, key: &Key) -> usize
        ensures { result ≡ home (map P.image self.now.pages.now) key.now.bytes }
    {
        self.home(&key.bytes).page
    }

    /// Whether the register takes a new entry of this key.
    pub fn has_room(&self, key: &Key) -> bool
        ensures value { result ≡ not (is_full (length self.now.pages.now) (map P.image self.now.pages.now) key.now.bytes) }
        ensures full { result ≡ false → Full (length self.now.pages.now) (map P.image self.now.pages.now) key.now.bytes }
    {
        self.home(&key.bytes).has_room(self.pages.len())
    }
}
