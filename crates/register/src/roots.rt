// The pages that the root's items name, and writes that change the root.
ghost use Rattle.std.specs.Prelude.{◌≡◌, ◌-◌, ◌<◌, ◌≤◌, length};
ghost use Rattle.rows.specs.Lists.{without};
ghost use Rattle.tree.specs.Tree.{has, lowest};
ghost use Rattle.pages.specs.Writes.{edit, wrote};
ghost use Rattle.register.specs.Images.{root_page, pages_of, split_writes, zero_first};

use crate::seats::{Seat, write_records};
use pages::paged::Paged;
use pages::records::{Item, LEAF, ROOT};

// Whether an item names a page.
fn names(items: &[Item], page: usize) -> bool
    ensures { result ≡ has page (pages_of items.now) }
{
    items.iter().any(|item| page == usize::from(item.page))
}

// The lowest page from 1 on that no item names; there is one.
fn lowest_free(items: &[Item], pages: usize) -> usize
    requires { lowest (pages - 1) 1 (pages_of items.now) < pages }
    ensures { result ≡ lowest (pages - 1) 1 (pages_of items.now) }
{
    (1..pages).find(|page| !names(items, *page)).unwrap()
}

// Writes two halves of a leaf of 16 entries, and the root with one item more.
// At most 21 pages, so that a page's number fits in an item.
pub(crate) fn split<P: Paged>(pages: &mut [P], seat: Seat)
    requires room { length seat.items < 20 }
    requires full { length seat.leaf ≡ 16 }
    requires pages { (seat.page < length pages.old) × (length pages.old ≤ 21) }
    requires free { lowest (length pages.old - 1) 1 (pages_of seat.items) < length pages.old }
    ensures { pages.new ≡ wrote P.written (split_writes seat.at seat.page (lowest (length pages.old - 1) 1 (pages_of seat.items)) seat.items seat.leaf) pages.old }
{
    let mut items = seat.items;
    let page = lowest_free(items.as_slice(), pages.len());
    let entries = seat.leaf.as_slice();
    write_records(pages, seat.page, LEAF, &entries[0..8]);
    write_records(pages, page, LEAF, &entries[8..16]);
    let item = Item {
        separator: entries[8].key,
        page: page as u16,
    };
    items.put_in(seat.at + 1, item);
    write_records(pages, 0, ROOT, items.as_slice());
}

// Writes the root without an item, its first separator zeros.
pub(crate) fn drop_item<P: Paged>(pages: &mut [P], seat: Seat)
    requires more { 1 < length seat.items }
    requires there { 0 < length pages.old }
    ensures { pages.new ≡ edit (λ p. P.written p (root_page (zero_first (without seat.items seat.at)))) 0 pages.old }
{
    let mut items = seat.items;
    items.take_out(seat.at);
    let first = Item {
        separator: [0; 22],
        ..items.as_slice()[0]
    };
    items.replace(0, first);
    write_records(pages, 0, ROOT, items.as_slice());
}
