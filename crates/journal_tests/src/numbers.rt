// Group numbers near the highest one, by anchors that are put on the disk.
use crate::bytes::{formatted, put};
use crate::calls::Answer::*;
use crate::calls::Call::*;
use crate::noting::{Row, on_noting};
use refusal::Refusal::*;

// What both anchors say, and what is done and written then. A recovery uses up two numbers: that which is missing in the log, and the next one.
const ROWS: [(&[u8], &[Row]); 3] = [
    (
        b"FSDA\0\xee\x6b\x27\xff",
        &[
            (Recover, Done, &[4, 6]),
            (Change(1, 11), Done, &[]),
            (Force, Forced(4_000_000_000), &[8, 10, 11, 12, 13, 14]),
            (Change(1, 21), Refused(NumbersUsedUp), &[]),
            (Change(4, 21), Refused(NumbersUsedUp), &[]),
            (Image(1), Holds(11), &[]),
            (Force, Forced(4_000_000_000), &[]),
            (Data(60, 9), Done, &[60]),
            (Shut, Done, &[]),
            (Recover, Done, &[51, 56, 4, 6]),
            (Image(1), Holds(11), &[]),
            (Change(1, 21), Refused(NumbersUsedUp), &[]),
            (Force, Forced(0), &[]),
        ],
    ),
    (
        b"FSDA\0\xff\xff\xff\xfe",
        &[
            (Recover, Done, &[4, 6]),
            (Image(1), Holds(2), &[]),
            (Shut, Done, &[]),
            (Recover, Refused(NumbersUsedUp), &[]),
            (Image(1), Refused(VolumeDown), &[]),
        ],
    ),
    (
        b"FSDA\0\xff\xff\xff\xff",
        &[(Recover, Refused(NumbersUsedUp), &[])],
    ),
];

#[test]
fn up_to_the_highest(rt: HostRuntime) {
    for (anchor, rows) in ROWS {
        let mut bytes = formatted(&rt);
        put(&rt, &mut bytes, 4, anchor);
        put(&rt, &mut bytes, 6, anchor);
        on_noting(&rt, &mut bytes, rows);
    }
}
