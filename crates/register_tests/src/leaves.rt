// Rules of the leaves, each broken once.
use crate::rules::{AREA, Row, blamed, edit, good};
use refusal::Refusal;
use register_check::check::check;
use std::test::Fail;

// Bytes of the page: its letters, its count, and those without a use.
const FORM: [Row; 13] = [
    (&[(1, 0, b"F")], Some(1)),
    (&[(2, 1, b"R")], Some(2)),
    (&[(1, 2, b"\x07")], Some(1)),
    (&[(2, 2, b"\x09")], Some(2)),
    (&[(2, 2, b"\x10")], Some(2)),
    (&[(1, 2, b"\xff")], Some(1)),
    (&[(2, 2, &[0; 300])], Some(2)),
    (&[(1, 3, b"\x01")], Some(1)),
    (&[(2, 31, b"\x01")], Some(2)),
    (&[(1, 62, b"\x01")], Some(1)),
    (&[(2, 63, b"\x01")], Some(2)),
    (&[(1, 288, b"\x01")], Some(1)),
    (&[(2, 511, b"\x01")], Some(2)),
];

// The keys: that of an entry begins at byte 32, 64 and so on up to 256, and its version stands at 52, 84 and so on up to 276.
const KEYS: [Row; 14] = [
    (&[(1, 84, b"\0\x01")], Some(1)),
    (&[(1, 84, b"\0\x04")], Some(1)),
    (&[(2, 84, b"\0\x09")], Some(2)),
    (&[(2, 52, b"\0\x08")], Some(2)),
    (&[(2, 32, b"A")], Some(2)),
    (&[(1, 276, b"\0\x09")], Some(1)),
    (&[(1, 256, b"S")], Some(1)),
    (&[(2, 256, b"S")], None),
    (&[(2, 256, b"r")], Some(2)),
    (&[(2, 258, b"5")], Some(2)),
    (&[(1, 32, b"\0")], Some(1)),
    (&[(1, 52, b"\0\0")], Some(1)),
    (&[(2, 276, b"\x27\x0f")], None),
    (&[(2, 276, b"\x27\x10")], Some(2)),
];

// Not one function with that of the root, for the reason that stands at `blamed`.
#[test]
fn of_the_leaves(rt: HostRuntime) -> Result<(), Fail> {
    blamed(&rt, 108, &FORM)?;
    blamed(&rt, 108, &KEYS)
}

// The root is looked at before the leaves, and the leaves in its order, whatever their pages are.
#[test]
fn in_order(rt: HostRuntime) -> Result<(), Fail> {
    let mut pages = good(&rt)?;
    pages.swap(1, 2);
    edit(&rt, &mut pages, &[(0, 54, b"\0\x02"), (0, 78, b"\0\x01")]);
    assert_eq!(rt; check(&pages, AREA), Ok(()));
    edit(&rt, &mut pages, &[(1, 3, b"\x01")]);
    assert_eq!(rt; check(&pages, AREA), Err(Refusal::RegisterBroken(1)));
    edit(&rt, &mut pages, &[(2, 3, b"\x01")]);
    assert_eq!(rt; check(&pages, AREA), Err(Refusal::RegisterBroken(2)));
    edit(&rt, &mut pages, &[(0, 3, b"\x01")]);
    assert_eq!(rt; check(&pages, AREA), Err(Refusal::RegisterBroken(0)));
    Ok(())
}
