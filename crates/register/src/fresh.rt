// The pages of a volume that was just formatted.
ghost use Rattle.std.specs.Prelude.{◌≡◌, ◌≤◌, [], map, length};
ghost use Rattle.pages.specs.Writes.{wrote};
ghost use Rattle.register.specs.Fresh.{fresh_page, fresh_pages, fresh_writes};
ghost use Rattle.register.specs.Images.{entries_of};
ghost use Rattle.register.specs.Registers.{IsRegister};

use pages::page::write_page;
use pages::paged::Paged;
use pages::records::{Entry, Item, LEAF, ROOT};

/// The image of a page of a fresh volume: page 0 is the root with one item, page 1 an empty leaf, every other one zeros.
pub fn fresh_page(page: usize) -> [u8; 512]
    ensures { result ≡ fresh_page page }
{
    let mut image = [0; 512];
    if page == 0 {
        let items = [Item {
            separator: [0; 22],
            page: 1,
        }];
        write_page(ROOT, &items, &mut image);
    } else if page == 1 {
        let entries: [Entry; 0] = [];
        write_page(LEAF, &entries, &mut image);
    }
    image
}

// Writes the pages of a fresh volume: a register with no entries.
// The number of pages is asked here for the reason that stands at `Register::format`.
pub(crate) fn write_fresh<P: Paged>(pages: &mut [P])
    requires least { 2 ≤ length pages.old }
    requires most { length pages.old ≤ 21 }
    ensures writes { pages.new ≡ wrote P.written (fresh_writes 0 (length pages.old)) pages.old }
    ensures images { map P.image pages.new ≡ fresh_pages (length pages.old) }
    ensures register { IsRegister (length pages.old) (map P.image pages.new) }
    ensures empty { entries_of (map P.image pages.new) ≡ [] }
{
    for (at, page) in pages.iter_mut().enumerate() {
        page.write(&fresh_page(at));
    }
}
