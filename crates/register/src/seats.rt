// Where a key belongs on the pages, and how a page of records is written.
ghost use Rattle.std.specs.Prelude.{◌≡◌, ◌<◌, ◌≤◌, ◌||◌, length, nat_lt};
ghost use Rattle.pages.specs.Bytes.{Holds, page_of};
ghost use Rattle.pages.specs.Writes.{edit};
ghost use Rattle.register.specs.Images.{most_items};

use pages::page::write_page;
use pages::paged::{Paged, write_at};
use pages::records::{Entry, Item, MOST_ENTRIES, MOST_ITEMS};
use pages::stored::Stored;
use rows::row::Row;

// Writes a page of records under a letter.
pub(crate) fn write_records<P: Paged, R: Stored>(
    pages: &mut [P],
    page: usize,
    letter: u8,
    records: &[R],
)
    requires there { page < length pages.old }
    requires few { Holds R.WIDE (length records.now) }
    ensures { pages.new ≡ edit (λ p. P.written p (page_of R.bytes letter records.now)) page pages.old }
{
    let mut image = [0; 512];
    write_page(letter, records, &mut image);
    write_at(pages, page, &image);
}

// As many entries as a leaf has that is too full, until it is split.
pub(crate) const OVERFULL: usize = MOST_ENTRIES + 1;

// The seat of a key: the root's items, the place of the item that the key belongs to and its page, the entries of that leaf, and how many of them are not above the key.
// What else is known of a seat is `Seated`, and no fact of this type: it speaks of a key and of page images, which a seat does not hold.
#[derive(Drop)]
pub(crate) struct Seat {
    pub(crate) items: Row<Item, MOST_ITEMS>,
    pub(crate) at: usize,
    pub(crate) page: usize,
    pub(crate) leaf: Row<Entry, OVERFULL>,
    pub(crate) place: usize,
    ghost within: { at < length items },
}

// The most items that the root may have in a register of so many pages.
pub(crate) fn most_items(pages: usize) -> usize
    ensures { result ≡ most_items pages }
{
    pages.saturating_sub(1).min(MOST_ITEMS)
}

impl Seat {
    // Whether a register of so many pages takes a new entry at this seat.
    pub(crate) fn has_room(&self, pages: usize) -> bool
        ensures { result ≡ (nat_lt (length self.now.leaf) 15 || nat_lt (length self.now.items) (most_items pages)) }
    {
        self.leaf.len() < MOST_ENTRIES || self.items.len() < most_items(pages)
    }
}
