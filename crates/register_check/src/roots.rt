// Whether the root of a register is right.
ghost use Rattle.std.specs.Prelude.{◌≡◌, ◌≤◌, not, ◌&&◌, length};
ghost use Rattle.tree.specs.Tree.{has};
ghost use Rattle.register.specs.Images.{pages_of};
ghost use Rattle.register_check.specs.Roots.{zeros_first, keys_behind, leaf_page_of, pages_right, root_right};

use crate::keys::{is_key, rising};
use pages::page::formed;
use pages::records::{Item, ROOT};

// Whether there are items, and the first separator is zeros.
#[tactic(auto, unfolding(register::specs::Images::zero_key))]
fn zeros_first(items: &[Item]) -> bool
    ensures { result ≡ zeros_first items.now }
{
    items
        .first()
        .is_some_and(|first| first.separator == [0; 22])
}

// Whether the separators behind the first are keys.
fn keys_behind(items: &[Item]) -> bool
    ensures { result ≡ keys_behind items.now }
{
    items.iter().skip(1).all(|i| is_key(&i.separator))
}

// Whether an item's page is that of a leaf, and no later item's.
fn page_right(item: &Item, later: &[Item], pages: usize) -> bool
    ensures { result ≡ (leaf_page_of pages item.now && not (has item.now.page (pages_of later.now))) }
{
    item.page >= 1
        && usize::from(item.page) < pages
        && !later.iter().any(|other| item.page == other.page)
}

// Whether the items' pages differ, and are those of leaves.
fn pages_right(items: &[Item], pages: usize) -> bool
    ensures { result ≡ pages_right pages items.now }
{
    // By what is left of the slice: each item is compared with those behind it, and the proof of `enumerate` with `all` and a slice from each place on did not close.
    let mut rest = items;
    while let Some((item, later)) = rest.split_first() {
        if !page_right(item, later, pages) {
            return false;
        }
        rest = later;
    }
    true
}

// Whether a page with these items is a right root.
pub(crate) fn root_right(page: &[u8; 512], items: &[Item], pages: usize) -> bool
    requires { length items.now ≤ 20 }
    ensures { result ≡ root_right pages page.now items.now }
{
    formed(ROOT, items, page)
        && zeros_first(items)
        && keys_behind(items)
        && items.len() <= pages.saturating_sub(1)
        && rising(items)
        && pages_right(items, pages)
}
