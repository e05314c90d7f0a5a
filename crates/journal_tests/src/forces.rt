// Where forces write.
use crate::bytes;
use crate::bytes::Held::*;
use crate::bytes::{BLANK, check_sectors, formatted};
use crate::calls::Answer::*;
use crate::calls::Call::*;
use crate::calls::on_image;
use crate::noting::{Row, on_noting};

// One page in each third, and then in the first one again.
const ROUND: &[Row] = &[
    (Recover, Done, &[4, 6]),
    (Force, Forced(0), &[]),
    (Change(1, 11), Done, &[]),
    (Force, Forced(2), &[8, 10, 11, 12, 13, 14]),
    (Force, Forced(2), &[]),
    (Change(2, 12), Done, &[]),
    (Force, Forced(3), &[22, 24, 25, 26, 27, 28]),
    (Force, Forced(3), &[]),
    (Change(3, 13), Done, &[]),
    (Force, Forced(4), &[36, 38, 39, 40, 41, 42]),
    (Change(1, 21), Done, &[]),
    (Force, Forced(5), &[51, 56, 4, 6, 8, 10, 11, 12, 13, 14]),
    (Image(1), Holds(21), &[]),
];

const AFTER_ROUND: &[bytes::Row] = &[
    (4, 4, Tag(b"FSDA\x01\0\0\0\x03")),
    (6, 6, Tag(b"FSDA\x01\0\0\0\x03")),
    (8, 8, Tag(b"FSDH\0\0\0\x05\x01\x01")),
    (10, 10, Tag(b"FSDH\0\0\0\x05\x01\x01")),
    (11, 11, All(21)),
    (12, 12, Tag(b"FSDE\0\0\0\x05\x01")),
    (13, 13, All(21)),
    (14, 14, Tag(b"FSDE\0\0\0\x05\x01")),
    (50, 50, All(1)),
    (51, 51, All(11)),
    (52, 52, All(3)),
    (53, 53, All(4)),
    (55, 55, All(1)),
    (56, 56, All(11)),
    (57, 57, All(3)),
    (58, 58, All(4)),
];

#[test]
fn one_in_each_third(rt: HostRuntime) {
    let mut bytes = formatted(&rt);
    on_noting(&rt, &mut bytes, ROUND);
    check_sectors(&rt, &bytes, AFTER_ROUND);
}

// The third that is given up has no page's newest record, and then those of two pages.
const HOMES: &[Row] = &[
    (Recover, Done, &[4, 6]),
    (Change(1, 11), Done, &[]),
    (Force, Forced(2), &[8, 10, 11, 12, 13, 14]),
    (Change(1, 21), Done, &[]),
    (Change(3, 13), Done, &[]),
    (Force, Forced(3), &[22, 24, 25, 26, 27, 28, 29, 30]),
    (Change(2, 12), Done, &[]),
    (Force, Forced(4), &[36, 38, 39, 40, 41, 42]),
    (Change(0, 10), Done, &[]),
    (Force, Forced(5), &[4, 6, 8, 10, 11, 12, 13, 14]),
    (Change(0, 20), Done, &[]),
    (
        Force,
        Forced(6),
        &[51, 56, 53, 58, 4, 6, 22, 24, 25, 26, 27, 28],
    ),
];

// A third of 14 sectors has room for one record of four pages.
const FULL: &[Row] = &[
    (Recover, Done, &[4, 6]),
    (Change(3, 13), Done, &[]),
    (Change(0, 10), Done, &[]),
    (Change(2, 12), Done, &[]),
    (Change(1, 11), Done, &[]),
    (
        Force,
        Forced(2),
        &[8, 10, 11, 12, 13, 14, 15, 16, 17, 18, 19, 20],
    ),
    (Image(0), Holds(10), &[]),
    (Image(1), Holds(11), &[]),
    (Image(2), Holds(12), &[]),
    (Image(3), Holds(13), &[]),
];

#[test]
fn of_more_pages(rt: HostRuntime) {
    for rows in [HOMES, FULL] {
        on_noting(&rt, &mut formatted(&rt), rows);
    }
}

// A record ends at most in the sector before the last one of a third. Thirds of 15 sectors begin at 8, 23 and 38, and have room for two records of one page; the copies of the pages begin at 53 and at 58.
const TWO_A_THIRD: &[Row] = &[
    (Recover, Done, &[4, 6]),
    (Change(0, 10), Done, &[]),
    (Force, Forced(2), &[8, 10, 11, 12, 13, 14]),
    (Change(1, 11), Done, &[]),
    (Force, Forced(3), &[15, 17, 18, 19, 20, 21]),
    (Change(2, 12), Done, &[]),
    (Force, Forced(4), &[23, 25, 26, 27, 28, 29]),
    (Change(3, 13), Done, &[]),
    (Force, Forced(5), &[30, 32, 33, 34, 35, 36]),
    (Change(2, 22), Done, &[]),
    (Force, Forced(6), &[38, 40, 41, 42, 43, 44]),
    (Change(3, 23), Done, &[]),
    (Force, Forced(7), &[45, 47, 48, 49, 50, 51]),
    (Change(1, 21), Done, &[]),
    (
        Force,
        Forced(8),
        &[53, 58, 54, 59, 4, 6, 8, 10, 11, 12, 13, 14],
    ),
];

const AFTER_TWO: &[bytes::Row] = &[
    (4, 4, Tag(b"FSDA\x01\0\0\0\x04")),
    (6, 6, Tag(b"FSDA\x01\0\0\0\x04")),
    (53, 53, All(10)),
    (54, 54, All(11)),
    (55, 55, All(3)),
    (56, 56, All(4)),
];

#[test]
fn two_in_each_third(rt: HostRuntime) {
    let mut bytes = BLANK;
    on_image(&rt, &"format", &mut bytes, &[(Format(15, 4), Done)]);
    on_noting(&rt, &mut bytes, TWO_A_THIRD);
    check_sectors(&rt, &bytes, AFTER_TWO);
}
