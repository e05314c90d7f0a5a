// Which pages the leaves have, and which pages a change writes.
ghost use Rattle.std.specs.Prelude.{◌≤◌, length};

use crate::changes::{ENOUGH, add, falling, nth, put, rising, take};
use crate::page_bytes::{put_bytes, written};
use padding::fitted;
use register::lookups::Lookup;
use register::replay::{Change, replay};
use register_check::check::check;
use std::alloc::Global;
use std::process::Abort;
use std::test::Fail;

// Numbers of keys, and the pages that they belong to.
type Row = (u16, usize);

// Checks to which pages keys belong.
fn belong(rt: &impl Abort, register: &Lookup<'_, [u8; 512]>, rows: &[Row]) -> Result<(), Fail> {
    assert_eq!(rt; check(register.pages, ENOUGH), Ok(()));
    for (n, page) in rows {
        assert_eq!(rt; register.page_of(&nth(*n)?), *page, "{}", n);
    }
    Ok(())
}

// Each split gives the upper half to the next page.
const OF_RISING: [Row; 8] = [
    (1, 1),
    (8, 1),
    (9, 2),
    (16, 2),
    (17, 3),
    (152, 19),
    (153, 20),
    (9999, 20),
];

// Page 1 keeps the lower half at each split: 193 to 200 go to page 2, 185 to 192 to page 3, and so on.
const OF_FALLING: [Row; 8] = [
    (1, 1),
    (34, 1),
    (48, 1),
    (49, 20),
    (56, 20),
    (57, 19),
    (192, 3),
    (193, 2),
];

#[test]
fn by_order(rt: HostRuntime) -> Result<(), Fail> {
    let mut pages = [[0; 512]; 21];
    let mut changes = Vec::new(rt.alloc());
    add(&mut changes, rising(rt.alloc(), 1, 167)?.as_slice(), put)?;
    assert_eq!(rt; replay(&mut pages, changes.as_slice()), 167);
    belong(&rt, &Lookup::over(&pages), &OF_RISING)?;
    changes.clear();
    add(&mut changes, falling(rt.alloc(), 200, 34)?.as_slice(), put)?;
    assert_eq!(rt; replay(&mut pages, changes.as_slice()), 167);
    belong(&rt, &Lookup::over(&pages), &OF_FALLING)
}

// 24 entries on the pages 1, 2 and 3, eight on each; those of page 2 are taken out.
fn without_page_2(changes: &mut Vec<Change>) -> Result<(), Fail> {
    let alloc = *changes.allocator();
    add(changes, rising(alloc, 1, 24)?.as_slice(), put)?;
    add(changes, rising(alloc, 9, 16)?.as_slice(), take)
}

// The next split takes page 2. Then page 1 is emptied too, and the split after it takes that one.
#[test]
fn of_the_lowest_page(rt: HostRuntime) -> Result<(), Fail> {
    let mut pages = [[0; 512]; 5];
    let mut changes = Vec::new(rt.alloc());
    without_page_2(&mut changes)?;
    assert_eq!(rt; replay(&mut pages, changes.as_slice()), 32);
    belong(
        &rt,
        &Lookup::over(&pages),
        &[(1, 1), (9, 1), (16, 1), (17, 3), (24, 3)],
    )?;
    add(&mut changes, rising(rt.alloc(), 25, 32)?.as_slice(), put)?;
    assert_eq!(rt; replay(&mut pages, changes.as_slice()), 40);
    belong(
        &rt,
        &Lookup::over(&pages),
        &[(16, 1), (17, 3), (24, 3), (25, 2), (32, 2)],
    )?;
    add(&mut changes, falling(rt.alloc(), 8, 1)?.as_slice(), take)?;
    add(&mut changes, rising(rt.alloc(), 33, 40)?.as_slice(), put)?;
    assert_eq!(rt; replay(&mut pages, changes.as_slice()), 56);
    belong(
        &rt,
        &Lookup::over(&pages),
        &[(1, 3), (24, 3), (25, 2), (32, 2), (33, 1)],
    )?;
    let mut root = fitted(b"NR\x03");
    put_bytes(&rt, &mut root, 54, b"\0\x03R");
    put_bytes(&rt, &mut root, 77, b"\x19\0\x02R");
    put_bytes(&rt, &mut root, 101, b"\x21\0\x01");
    assert!(rt; pages[0] == root);
    Ok(())
}

// Adds a change, and checks which pages it writes.
fn writes(
    rt: &(impl Abort + AllocGlobal),
    changes: &mut Vec<Change>,
    next: Change,
    wanted: &[usize],
) -> Result<(), Fail> {
    changes.push(next)?;
    let found = written(rt, changes.as_slice())?;
    assert!(rt; found.as_slice() == wanted, "{}", changes.len());
    Ok(())
}

// Pages 2 and 4 are not in the root, and the split takes page 2.
#[test]
fn no_other_page_changes(rt: HostRuntime) -> Result<(), Fail> {
    let mut changes = Vec::new(rt.alloc());
    without_page_2(&mut changes)?;
    writes(&rt, &mut changes, put(9)?, &[1])?;
    writes(&rt, &mut changes, put(9)?, &[])?;
    writes(&rt, &mut changes, take(9)?, &[1])?;
    writes(&rt, &mut changes, take(9)?, &[])?;
    for n in 25..32 {
        writes(&rt, &mut changes, put(n)?, &[3])?;
    }
    writes(&rt, &mut changes, put(32)?, &[0, 2, 3])?;
    for n in 1..8 {
        writes(&rt, &mut changes, take(n)?, &[1])?;
    }
    writes(&rt, &mut changes, take(8)?, &[0, 1])
}
