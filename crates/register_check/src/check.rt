// Whether a register keeps its rules, or which page breaks one.
ghost use Rattle.std.specs.Prelude.{◌≡◌, ℕ, ◌≤◌, map, length, Option};
ghost use Rattle.register_check.specs.Faults.{fault, answer_of, Verdict};

use crate::extents::Area;
use crate::roots::root_right;
use crate::search::Leaves;
use pages::page::read_row;
use pages::paged::{Paged, image_at};
use pages::records::MOST_ITEMS;
use refusal::Refusal;

/// Whether the register on `pages`, whose files lie in an area, keeps every rule, or 13 with the first page that breaks one: the root, then the leaves in its order, then the root again if two files have a sector in common.
// The number of pages is asked here for the reason that stands at `Register::format`.
pub fn check<P: Paged>(pages: &[P], area: Area) -> Result<(), Refusal>
    requires { (2 ≤ length pages.now) × (length pages.now ≤ 21) }
    ensures value { result ≡ answer_of (fault area.first area.sectors (length pages.now) (map P.image pages.now)) }
    ensures law { (page : Option ℕ) × (result ≡ answer_of page) × Verdict area.first area.sectors (length pages.now) (map P.image pages.now) page }
{
    let root = image_at(pages, 0);
    let items = read_row(&root, MOST_ITEMS);
    if !root_right(&root, items.as_slice(), pages.len()) {
        return Err(Refusal::RegisterBroken(0));
    }
    Leaves { pages, items }.check(area)
}
