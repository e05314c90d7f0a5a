// The bytes of a volume after a format, after a recovery and after a force.
use crate::bytes::Held::*;
use crate::bytes::{Row, check_sectors};
use crate::calls::Answer::*;
use crate::calls::Call::*;
use crate::calls::on_image;
use crate::noting;
use crate::noting::on_noting;

// Every sector but the anchors and the log, on a disk whose sectors were unreadable before the format.
const AROUND: &[Row] = &[
    (0, 0, Tag(b"FSDV\x01\x04\0\x0e\0\0\0\x78")),
    (1, 1, Lost),
    (2, 2, Tag(b"FSDV\x01\x04\0\x0e\0\0\0\x78")),
    (3, 3, Lost),
    (5, 5, All(0)),
    (7, 7, All(0)),
    (50, 50, All(1)),
    (51, 51, All(2)),
    (52, 52, All(3)),
    (53, 53, All(4)),
    (54, 54, Lost),
    (55, 55, All(1)),
    (56, 56, All(2)),
    (57, 57, All(3)),
    (58, 58, All(4)),
    (59, 119, Lost),
];

// The anchors and the log after the format, after the recovery, and after the force.
const FORMATTED: &[Row] = &[
    (4, 4, Tag(b"FSDA\0\0\0\0\x01")),
    (6, 6, Tag(b"FSDA\0\0\0\0\x01")),
    (8, 49, All(0)),
];

const RECOVERED: &[Row] = &[
    (4, 4, Tag(b"FSDA\0\0\0\0\x02")),
    (6, 6, Tag(b"FSDA\0\0\0\0\x02")),
    (8, 49, All(0)),
];

const FORCED: &[Row] = &[
    (4, 4, Tag(b"FSDA\0\0\0\0\x02")),
    (6, 6, Tag(b"FSDA\0\0\0\0\x02")),
    (8, 8, Tag(b"FSDH\0\0\0\x02\x01\x01")),
    (9, 9, All(0)),
    (10, 10, Tag(b"FSDH\0\0\0\x02\x01\x01")),
    (11, 11, All(9)),
    (12, 12, Tag(b"FSDE\0\0\0\x02\x01")),
    (13, 13, All(9)),
    (14, 14, Tag(b"FSDE\0\0\0\x02\x01")),
    (15, 49, All(0)),
];

// What is done after the format, what it writes, and what then stands in the anchors and the log.
const STEPS: [(&[noting::Row], &[Row]); 3] = [
    (&[], FORMATTED),
    (&[(Recover, Done, &[4, 6])], RECOVERED),
    (
        &[
            (Recover, Done, &[4, 6]),
            (Change(1, 9), Done, &[]),
            (Force, Forced(2), &[8, 10, 11, 12, 13, 14]),
        ],
        FORCED,
    ),
];

#[test]
fn each_sector(rt: HostRuntime) {
    for (rows, sectors) in STEPS {
        let mut bytes = [9; 61560];
        on_image(&rt, &"format", &mut bytes, &[(Format(14, 4), Done)]);
        on_noting(&rt, &mut bytes, rows);
        check_sectors(&rt, &bytes, AROUND);
        check_sectors(&rt, &bytes, sectors);
    }
}
