// Rules of the root, each broken once.
use crate::rules::{AREA, Row, blamed, edit, good};
use refusal::Refusal;
use register_check::check::check;
use std::test::Fail;

// Bytes of the page: its letters, its count, and those without a use.
const FORM: [Row; 11] = [
    (&[], None),
    (&[(0, 0, b"M")], Some(0)),
    (&[(0, 1, b"L")], Some(0)),
    (&[(0, 2, b"\x01")], Some(0)),
    (&[(0, 2, b"\x03")], Some(0)),
    (&[(0, 2, b"\x15")], Some(0)),
    (&[(0, 2, &[0; 100])], Some(0)),
    (&[(0, 3, b"\x01")], Some(0)),
    (&[(0, 31, b"\x01")], Some(0)),
    (&[(0, 80, b"\x01")], Some(0)),
    (&[(0, 511, b"\x01")], Some(0)),
];

// A third item: R in version 10, and page 3.
const THIRD: &[u8] = b"R\0\0\0\0\0\0\0\0\0\0\0\0\0\0\0\0\0\0\0\0\x0a\0\x03";

// The items: a separator stands at byte 32, 56 and 80, and its page at 54, 78 and 102.
const ITEMS: [Row; 14] = [
    (&[(0, 53, b"\x01")], Some(0)),
    (&[(0, 32, b"A"), (0, 53, b"\x01")], Some(0)),
    (&[(0, 76, b"\0\0")], Some(0)),
    (&[(0, 76, b"\x27\x10")], Some(0)),
    (&[(0, 56, b"r")], Some(0)),
    (&[(0, 58, b"5")], Some(0)),
    (&[(0, 78, b"\0\0")], Some(0)),
    (&[(0, 78, b"\0\x01")], Some(0)),
    (&[(0, 78, b"\0\x04")], Some(0)),
    (&[(0, 78, b"\x01\x02")], Some(0)),
    (&[(0, 2, b"\x03"), (0, 80, THIRD)], Some(2)),
    (
        &[(0, 2, b"\x03"), (0, 80, THIRD), (0, 101, b"\x09")],
        Some(0),
    ),
    (
        &[(0, 2, b"\x03"), (0, 80, THIRD), (0, 101, b"\x08")],
        Some(0),
    ),
    (&[(0, 78, b"\0\x03")], Some(3)),
];

// Not one function with that of the leaves, for the reason that stands at `blamed`.
#[test]
fn of_the_root(rt: HostRuntime) -> Result<(), Fail> {
    blamed(&rt, 108, &FORM)?;
    blamed(&rt, 108, &ITEMS)
}

// Page 2 is in the root, and page 3 is not: it may be missing, or hold any bytes.
#[test]
fn of_the_pages(rt: HostRuntime) -> Result<(), Fail> {
    let mut pages = good(&rt)?;
    edit(&rt, &mut pages, &[(3, 0, b"NR\x15"), (3, 511, b"\xff")]);
    assert_eq!(rt; check(&pages, AREA), Ok(()));
    assert_eq!(rt; check(&pages[0..3], AREA), Ok(()));
    assert_eq!(rt; check(&pages[0..2], AREA), Err(Refusal::RegisterBroken(0)));
    assert_eq!(rt;
        check(&[[0; 512]; 2], AREA),
        Err(Refusal::RegisterBroken(0))
    );
    Ok(())
}
