// A force that loses the power in one of its writes.
use crate::bytes::formatted;
use crate::calls::Answer::*;
use crate::calls::Call::*;
use crate::calls::{Step, on_image};
use crate::cuts::cut;
use crate::noting::calls_of;
use failing::manner::Manner;
use std::process::Abort;

// A write of a force, and whether its record is there after a cut in each manner: the sector as before, with the new bytes, unreadable, together with the one below it, and with the one above it.
type Row = (u32, [bool; 5]);

const NO: [bool; 5] = [false; 5];

const IF_NEW: [bool; 5] = [false, true, false, false, false];

const IF_NOT_BELOW: [bool; 5] = [true, true, true, false, true];

const YES: [bool; 5] = [true; 5];

// A record of one page at 22, and at 8 with what is written before it where a third is given up.
const SECOND: &[Row] = &[
    (22, NO),
    (24, NO),
    (25, NO),
    (26, IF_NEW),
    (27, IF_NOT_BELOW),
    (28, YES),
];

const FOURTH: &[Row] = &[
    (51, NO),
    (56, NO),
    (4, NO),
    (6, NO),
    (8, NO),
    (10, NO),
    (11, NO),
    (12, IF_NEW),
    (13, IF_NOT_BELOW),
    (14, YES),
];

// What is done before the force: the same page as at 8, another page, and the page whose record is given up.
const SAME: &[Step] = &[
    (Recover, Done),
    (Change(1, 11), Done),
    (Force, Forced(2)),
    (Change(1, 21), Done),
];

const OTHER: &[Step] = &[
    (Recover, Done),
    (Change(1, 11), Done),
    (Force, Forced(2)),
    (Change(2, 12), Done),
];

const GIVEN_UP: &[Step] = &[
    (Recover, Done),
    (Change(1, 11), Done),
    (Force, Forced(2)),
    (Change(2, 12), Done),
    (Force, Forced(3)),
    (Change(3, 13), Done),
    (Force, Forced(4)),
    (Change(1, 21), Done),
];

// The images that come back.
fn back(page_1: u8, page_2: u8, page_3: u8) -> [Step; 5] {
    [
        (Recover, Done),
        (Image(0), Holds(1)),
        (Image(1), Holds(page_1)),
        (Image(2), Holds(page_2)),
        (Image(3), Holds(page_3)),
    ]
}

// Cuts the force after a script at each of its writes in each manner, and checks that the settled images come back, or the pending ones where the record is there.
fn cut_writes(rt: &impl Abort, script: &[Step], rows: &[Row], settled: &[Step], pending: &[Step]) {
    let formatted = formatted(rt);
    let (before, _) = calls_of(rt, &formatted, script);
    for (calls, (sector, there)) in (before..).zip(rows) {
        for (manner, there) in Manner::ALL.into_iter().zip(*there) {
            let mut bytes = formatted;
            let row = (*sector, manner);
            let named = cut(rt, &mut bytes, script, Force, calls, manner);
            assert_eq!(rt; named, Some(*sector), "{:?}", row);
            let back = if there { pending } else { settled };
            on_image(rt, &row, &mut bytes, back);
        }
    }
}

#[test]
fn at_each_write(rt: HostRuntime) {
    let settled = back(11, 3, 4);
    cut_writes(&rt, SAME, SECOND, &settled, &back(21, 3, 4));
    cut_writes(&rt, OTHER, SECOND, &settled, &back(11, 12, 4));
    cut_writes(&rt, GIVEN_UP, FOURTH, &back(11, 12, 13), &back(21, 12, 13));
}
