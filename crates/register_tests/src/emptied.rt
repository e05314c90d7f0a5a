// What stays when the last entry is taken out.

use crate::changes::{ENOUGH, add, falling, nth, put, rising, take};
use crate::page_bytes::{empty_leaf, root_with};
use names::bound::Bound;
use names::name::Name;
use register::changes::Register;
use register::fresh::fresh_page;
use register::replay::replay;
use register_check::check::check;
use std::process::Abort;
use std::test::Fail;

// Checks that a register has no entry, and that its leaf is a page.
fn is_empty(
    rt: &impl Abort,
    register: &mut Register<'_, [u8; 512]>,
    page: usize,
) -> Result<(), Fail> {
    let key = nth(1)?;
    let name = Name::new(b"R")?;
    let look = register.look();
    assert!(rt; look.has_room(&key));
    assert!(rt; look.find(&key).is_none());
    assert!(rt; look.above(&Bound::lowest()).is_none());
    assert!(rt; look.newest(&name).is_none());
    assert!(rt; look.highest_version(&name).is_none());
    assert_eq!(rt; look.page_of(&key), page);
    assert!(rt; register.take_out(&key).is_none());
    Ok(())
}

#[test]
fn fresh(rt: HostRuntime) -> Result<(), Fail> {
    let mut pages = [[255; 512]; 21];
    Register::format(&mut pages);
    assert!(rt; pages[0] == root_with(1));
    assert!(rt; pages[1] == empty_leaf());
    for (page, image) in pages.iter().enumerate().skip(2) {
        assert!(rt; *image == [0; 512], "{}", page);
        assert!(rt; fresh_page(page) == [0; 512], "{}", page);
    }
    assert_eq!(rt; check(&pages, ENOUGH), Ok(()));
    is_empty(&rt, &mut Register::over(&mut pages), 1)
}

// Checks that 167 rising entries on 20 leaves, taken out in an order, leave the empty leaf of a page, and every other one out of use.
fn leaves(rt: &(impl Abort + AllocGlobal), order: &[u16], page: u8) -> Result<(), Fail> {
    let mut changes = Vec::new(rt.alloc());
    add(&mut changes, rising(rt.alloc(), 1, 167)?.as_slice(), put)?;
    add(&mut changes, order, take)?;
    let mut pages = [[0; 512]; 21];
    assert_eq!(rt; replay(&mut pages, changes.as_slice()), 334);
    assert!(rt; pages[0] == root_with(page));
    for (page, image) in pages.iter().enumerate().skip(1) {
        assert!(rt; *image == empty_leaf(), "{}", page);
    }
    assert_eq!(rt; check(&pages, ENOUGH), Ok(()));
    is_empty(rt, &mut Register::over(&mut pages), usize::from(page))
}

// The leaves of rising keys have the pages 1, 2 and so on up to 20. The last leaf that is emptied stays.
#[test]
fn by_order(rt: HostRuntime) -> Result<(), Fail> {
    leaves(&rt, rising(rt.alloc(), 1, 167)?.as_slice(), 20)?;
    leaves(&rt, falling(rt.alloc(), 167, 1)?.as_slice(), 1)
}
