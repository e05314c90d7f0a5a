// How many entries fit before 5.
ghost use Rattle.std.specs.Prelude.{◌≤◌, length};

use crate::changes::{ENOUGH, add, falling, nth, put, rising};
use refusal::Refusal;
use register::changes::Register;
use register::lookups::Lookup;
use register::replay::replay;
use register_check::check::check;
use std::alloc::{AllocError, Global};
use std::process::Abort;
use std::test::Fail;

// 1, 999, 2, 998 and so on: each number lies between the two before it.
fn inward(alloc: Global) -> Result<Vec<u16>, AllocError> {
    (1..400u16)
        .zip((601..1000u16).rev())
        .flat_map(|(low, high): (u16, u16)| [low, high])
        .collect(alloc)
}

// Checks that the n-th entry is refused with 5, which leaves every page as it was.
fn refuses(
    rt: &(impl Abort + AllocGlobal),
    register: &mut Register<'_, [u8; 512]>,
    n: u16,
) -> Result<(), Fail> {
    let key = nth(n)?;
    let before = register.look().pages.to_vec(rt.alloc())?;
    assert!(rt; !register.look().has_room(&key), "{}", n);
    assert!(rt; register.look().find(&key).is_none(), "{}", n);
    let answer = register.put_in(&key, 60, 40);
    assert!(rt; answer == Err(Refusal::RegisterFull), "{}", n);
    assert!(rt; *register.look().pages == *before.as_slice(), "{}", n);
    Ok(())
}

// Checks that in this order just so many entries fit, that there is room for the last of them, and that the next one is refused.
fn fit(
    rt: &(impl Abort + AllocGlobal),
    pages: &mut [[u8; 512]],
    order: &[u16],
    many: usize,
) -> Result<(), Fail>
    requires least { 2 ≤ length pages.old }
    requires most { length pages.old ≤ 21 }
{
    assert!(rt; many >= 1 && many < order.len());
    let mut changes = Vec::new(rt.alloc());
    add(&mut changes, &order[0..many - 1], put)?;
    assert_eq!(rt; replay(pages, changes.as_slice()), many - 1);
    assert!(rt; Lookup::over(pages).has_room(&nth(order[many - 1])?));
    add(&mut changes, &order[many - 1..], put)?;
    assert_eq!(rt; replay(pages, changes.as_slice()), many);
    assert_eq!(rt; check(pages, ENOUGH), Ok(()));
    refuses(rt, &mut Register::over(pages), order[many])
}

// A leaf of 15 entries and a new one become two leaves of 8. Where each key goes to the leaf that was split last, the others stay at 8, and that one takes 15.
#[test]
fn by_order(rt: HostRuntime) -> Result<(), Fail> {
    let mut pages = [[0; 512]; 21];
    let orders = [
        rising(rt.alloc(), 1, 200)?,
        falling(rt.alloc(), 200, 1)?,
        inward(rt.alloc())?,
    ];
    for order in &orders {
        fit(&rt, &mut pages[0..2], order.as_slice(), 15)?;
        fit(&rt, &mut pages[0..3], order.as_slice(), 8 + 15)?;
        fit(&rt, &mut pages, order.as_slice(), 19 * 8 + 15)?;
    }
    Ok(())
}

// After 23 rising keys on two leaves, the first leaf has 8 entries and takes 7 more below them.
#[test]
fn below_a_full_leaf(rt: HostRuntime) -> Result<(), Fail> {
    let mut order = rising(rt.alloc(), 101, 123)?;
    order.extend(1..9)?;
    fit(&rt, &mut [[0; 512]; 3], order.as_slice(), 30)
}

// 167 keys that rise by tens leave 19 leaves of 8, the first of 10 to 80, and each of these takes 7 more above its first key. Then all 20 leaves have 15.
#[test]
fn on_every_leaf(rt: HostRuntime) -> Result<(), Fail> {
    let mut order: Vec<u16> = (10..1680u16).step_by(10).collect(rt.alloc())?;
    for leaf in 0..19u16 {
        order.extend(80 * leaf + 11..80 * leaf + 18)?;
    }
    let mut pages = [[0; 512]; 21];
    for last in [1, 801, 1525, 1671, 9999] {
        let mut order = order.clone()?;
        order.push(last)?;
        fit(&rt, &mut pages, order.as_slice(), 300)?;
    }
    Ok(())
}
