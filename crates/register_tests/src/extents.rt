// Rules of the files' sectors, each broken once.
use crate::rules::{Row, blamed};
use std::test::Fail;

// The start of an entry's file stands at byte 54, 86 and so on up to 278, and its length 4 bytes behind. All files have 3 sectors, and each begins where the one before it ends: those of page 1 with 60, 63 and so on up to 81, those of page 2 with 84 and so on up to 105.
const ON_108: [Row; 11] = [
    (&[(1, 54, b"\0\0\0\x3b")], Some(1)),
    (&[(2, 278, b"\0\0\0\x6a")], Some(2)),
    (&[(2, 278, b"\xff\xff\xff\xff")], Some(2)),
    (&[(2, 282, b"\0\0\x02\0")], None),
    (&[(2, 282, b"\0\0\x02\x01")], Some(2)),
    (&[(1, 86, b"\0\0\0\x3e")], Some(0)),
    (&[(1, 86, b"\0\0\0\x3c")], Some(0)),
    (&[(2, 54, b"\0\0\0\x53")], Some(0)),
    (&[(1, 54, b"\0\0\0\x69"), (2, 278, b"\0\0\0\x3c")], None),
    (&[(1, 58, b"\0\0\x02\x01")], Some(0)),
    (&[(1, 58, b"\0\0\x02\x01"), (2, 3, b"\x01")], Some(2)),
];

// On a disk of 123 sectors the file of 8,192 bytes from sector 105 on ends with the last.
const ON_123: [Row; 4] = [
    (&[(2, 282, b"\0\0\x20\0")], None),
    (&[(2, 282, b"\0\0\x20\x01")], Some(2)),
    (&[(2, 282, b"\xff\xff\xff\xff")], Some(2)),
    (&[(2, 278, b"\0\0\0\x6a"), (2, 282, b"\0\0\x20\0")], Some(2)),
];

// A file of 8,193 bytes is too long wherever it lies.
const ON_1000: [Row; 2] = [
    (&[(2, 282, b"\0\0\x20\0")], None),
    (&[(2, 282, b"\0\0\x20\x01")], Some(2)),
];

#[test]
fn of_the_files(rt: HostRuntime) -> Result<(), Fail> {
    blamed(&rt, 108, &ON_108)?;
    blamed(&rt, 123, &ON_123)?;
    blamed(&rt, 1000, &ON_1000)?;
    blamed(&rt, 107, &[(&[], Some(2))])
}
