// The leaves that a root names, and whether each of them is right.
ghost use Rattle.std.specs.Prelude.{◌≡◌, ◌+◌, ◌<◌, map, length, drop, ◌==◌};
ghost use Rattle.std.specs.Coded.{le_prop};
ghost use Rattle.std.specs.List.{AllByRecursion, AllByRecursion-prop};
ghost use Rattle.register.specs.Images.{page_at, leaf_of};
ghost use Rattle.register_check.specs.Leaves.{next_separator, leaf_right};
ghost use Rattle.register_check.specs.Faults.{answer_of, first_leaf};

use crate::extents::Area;
use crate::leaves::Limits;
use pages::page::read_row;
use pages::paged::{Paged, image_at};
use pages::records::{Entry, Item, MOST_ENTRIES, MOST_ITEMS};
use refusal::Refusal;
use rows::row::Row;

/// The pages of a register, and the items of its root, which name some of them.
#[derive(Drop)]
pub(crate) struct Leaves<'a, P: Paged> {
    pub pages: &'a [P],
    pub items: Row<Item, MOST_ITEMS>,
    ghost named: { AllByRecursion (λ i. i.page < length pages.now) items } by { AllByRecursion-prop _ (λ i. le_prop) items },
}

// The separator behind that of an item, if there is one.
fn next_separator(items: &[Item], at: usize) -> Option<[u8; 22]>
    requires { at < length items.now }
    ensures { result ≡ next_separator (drop (at + 1) items.now) }
{
    Some(items.get(at + 1)?.separator)
}

// Whether the leaf on a page is right.
fn leaf_right<P: Paged>(pages: &[P], page: u16, limits: &Limits, single: bool) -> bool
    requires { page < length pages.now }
    ensures { result ≡ leaf_right limits.now single (page_at (map P.image pages.now) page) (leaf_of (map P.image pages.now) page) }
{
    let page = image_at(pages, usize::from(page));
    let entries: Row<Entry, MOST_ENTRIES> = read_row(&page, MOST_ENTRIES);
    limits.leaf_right(single, &page, entries.as_slice())
}

impl<'a, P: Paged> Leaves<'a, P> {
    // Whether each leaf is right, or 13 with the page of the first that is not, in the order of the items.
    pub(crate) fn leaves_right(&self, area: Area) -> Result<(), Refusal>
        ensures { result ≡ answer_of (first_leaf area.first area.sectors (length self.now.items == 1) (map P.image self.now.pages.now) self.now.items) }
    {
        let items = self.items.as_slice();
        // By places, since the leaf of each item is bounded by the item behind it: a rest that is split as in `pages_right` would be a variable beside the walk.
        for (i, item) in items.iter().enumerate() {
            let limits = Limits {
                separator: item.separator,
                next: next_separator(items, i),
                area,
            };
            if !leaf_right(self.pages, item.page, &limits, items.len() == 1) {
                return Err(Refusal::RegisterBroken(u32::from(item.page)));
            }
        }
        Ok(())
    }
}
