// A power that fails in a chosen write over a disk that cannot be spoiled: five sectors that hold 1, 2, 3, 4 and 5.
use crate::bytes::sectors;
use crate::plain::Plain;
use crate::scripts::Answer::*;
use crate::scripts::Call::*;
use crate::scripts::{Answer, BAD_0, BAD_1, BAD_2, BAD_3, BAD_4, Call, ask_any, play};
use disk::faults::Fault::*;
use failing::manner::Manner;
use image::Image;
use marking::marking::Marking;
use std::fmt::Debug;
use std::process::Abort;
use window::Window;

// Plays a script on the disk whose power fails after `calls` calls, and then one on the disk below, given back. A wrong answer names `row`.
fn five(
    rt: &impl Abort,
    row: &impl Debug,
    calls: u32,
    manner: Manner,
    script: &[(Call, Answer)],
    below: &[(Call, Answer)],
) {
    let mut bytes = sectors::<2565>();
    let plain = Plain {
        below: Image::new(&mut bytes),
    };
    let mut disk = Marking::new(plain, calls, manner);
    play(rt, &("marking", row), ask_any, &mut disk, script);
    play(rt, &("below", row), ask_any, &mut disk.into_below(), below);
}

// A manner, the sector written, and what the five sectors are then.
type Row = (Manner, u32, [Answer; 5]);

// The sectors as they were.
const WERE: [Answer; 5] = [Holds(1), Holds(2), Holds(3), Holds(4), Holds(5)];

const ALL: [Row; 15] = [
    (Manner::AsBefore, 0, WERE),
    (Manner::AsBefore, 2, WERE),
    (Manner::AsBefore, 4, WERE),
    (
        Manner::NewBytes,
        0,
        [Holds(9), Holds(2), Holds(3), Holds(4), Holds(5)],
    ),
    (
        Manner::NewBytes,
        2,
        [Holds(1), Holds(2), Holds(9), Holds(4), Holds(5)],
    ),
    (
        Manner::NewBytes,
        4,
        [Holds(1), Holds(2), Holds(3), Holds(4), Holds(9)],
    ),
    (
        Manner::Own,
        0,
        [BAD_0, Holds(2), Holds(3), Holds(4), Holds(5)],
    ),
    (
        Manner::Own,
        2,
        [Holds(1), Holds(2), BAD_2, Holds(4), Holds(5)],
    ),
    (
        Manner::Own,
        4,
        [Holds(1), Holds(2), Holds(3), Holds(4), BAD_4],
    ),
    (
        Manner::OwnAndBelow,
        0,
        [BAD_0, Holds(2), Holds(3), Holds(4), Holds(5)],
    ),
    (
        Manner::OwnAndBelow,
        2,
        [Holds(1), BAD_1, BAD_2, Holds(4), Holds(5)],
    ),
    (
        Manner::OwnAndBelow,
        4,
        [Holds(1), Holds(2), Holds(3), BAD_3, BAD_4],
    ),
    (
        Manner::OwnAndAbove,
        0,
        [BAD_0, BAD_1, Holds(3), Holds(4), Holds(5)],
    ),
    (
        Manner::OwnAndAbove,
        2,
        [Holds(1), Holds(2), BAD_2, BAD_3, Holds(5)],
    ),
    (
        Manner::OwnAndAbove,
        4,
        [Holds(1), Holds(2), Holds(3), Holds(4), BAD_4],
    ),
];

// Checks what a write of 9 leaves, and that each sector can be read once it is written.
fn check_row(rt: &impl Abort, (manner, sector, left): Row) {
    five(
        rt,
        &(manner, sector),
        0,
        manner,
        &[
            (Write(sector, 9), Refused(PowerOff(sector))),
            (Read(sector), Refused(PowerOff(sector))),
            (Read(5), Refused(PowerOff(5))),
            (Write(sector, 8), Refused(PowerOff(sector))),
            (Count, Sectors(5)),
            (Start, Done),
            (Read(0), left[0]),
            (Read(1), left[1]),
            (Read(2), left[2]),
            (Read(3), left[3]),
            (Read(4), left[4]),
            (Read(5), Refused(NoSuchSector)),
            (Write(5, 9), Refused(NoSuchSector)),
            (Write(0, 10), Done),
            (Read(0), Holds(10)),
            (Write(1, 11), Done),
            (Read(1), Holds(11)),
            (Write(2, 12), Done),
            (Read(2), Holds(12)),
            (Write(3, 13), Done),
            (Read(3), Holds(13)),
            (Write(4, 14), Done),
            (Read(4), Holds(14)),
            (Read(0), Holds(10)),
        ],
        &[
            (Read(0), Holds(10)),
            (Read(1), Holds(11)),
            (Read(2), Holds(12)),
            (Read(3), Holds(13)),
            (Read(4), Holds(14)),
        ],
    );
}

#[test]
fn each_manner_at_the_first_a_middle_and_the_last_sector(rt: HostRuntime) {
    for row in ALL {
        check_row(&rt, row);
    }
}

#[test]
fn a_lost_neighbour_is_lost_until_it_is_written_itself(rt: HostRuntime) {
    five(
        &rt,
        &(),
        1,
        Manner::OwnAndAbove,
        &[
            (Read(2), Holds(3)),
            (Write(2, 9), Refused(PowerOff(2))),
            (Start, Done),
            (Write(2, 7), Done),
            (Read(2), Holds(7)),
            (Read(3), BAD_3),
            (Read(3), BAD_3),
            (Start, Done),
            (Read(3), BAD_3),
            (Write(4, 7), Done),
            (Read(3), BAD_3),
            (Write(3, 6), Done),
            (Read(3), Holds(6)),
        ],
        &[],
    );
}

#[test]
fn the_disk_below_still_has_what_was_lost(rt: HostRuntime) {
    five(
        &rt,
        &(),
        0,
        Manner::OwnAndBelow,
        &[
            (Write(2, 9), Refused(PowerOff(2))),
            (Start, Done),
            (Read(1), BAD_1),
            (Read(2), BAD_2),
        ],
        &[(Read(1), Holds(2)), (Read(2), Holds(3))],
    );
}

#[test]
fn a_run_over_lost_sectors(rt: HostRuntime) {
    five(
        &rt,
        &(),
        0,
        Manner::OwnAndAbove,
        &[
            (WriteRun(1, 3), Refused(PowerOff(1))),
            (Start, Done),
            (Read(1), BAD_1),
            (Read(2), BAD_2),
            (WriteRun(1, 3), Done),
            (Read(1), Holds(11)),
            (Read(2), Holds(12)),
            (Read(3), Holds(13)),
        ],
        &[],
    );
}

// Plays a script on a disk whose power fails in the first call by `manner`, over one whose power fails after two calls and leaves the new bytes.
fn twice(rt: &impl Abort, manner: Manner, script: &[(Call, Answer)]) {
    let mut bytes = sectors::<2565>();
    let plain = Plain {
        below: Marking::new(Image::new(&mut bytes), 2, Manner::NewBytes),
    };
    play(
        rt,
        &manner,
        ask_any,
        &mut Marking::new(plain, 0, manner),
        script,
    );
}

#[test]
fn a_write_that_loses_the_power_below_leaves_the_sector_lost(rt: HostRuntime) {
    twice(
        &rt,
        Manner::OwnAndAbove,
        &[
            (Write(1, 9), Refused(PowerOff(1))),
            (Start, Done),
            (Read(1), BAD_1),
            (Read(2), BAD_2),
            (Write(1, 8), Refused(PowerOff(1))),
            (Read(1), Refused(PowerOff(1))),
            (Read(2), Refused(PowerOff(2))),
            (Read(5), Refused(PowerOff(5))),
            (Start, Done),
            (Read(1), BAD_1),
            (Read(2), BAD_2),
            (Write(1, 7), Done),
            (Read(1), Holds(7)),
            (Read(2), BAD_2),
        ],
    );
}

#[test]
fn a_read_that_loses_the_power_below(rt: HostRuntime) {
    twice(
        &rt,
        Manner::Own,
        &[
            (Write(1, 9), Refused(PowerOff(1))),
            (Start, Done),
            (Read(1), BAD_1),
            (Read(0), Refused(PowerOff(0))),
            (Read(1), Refused(PowerOff(1))),
            (Start, Done),
            (Read(0), Holds(1)),
            (Read(1), BAD_1),
        ],
    );
}

#[test]
fn a_start_that_is_refused_below(rt: HostRuntime) {
    twice(
        &rt,
        Manner::Own,
        &[
            (Write(1, 9), Refused(PowerOff(1))),
            (Start, Done),
            (Start, Refused(PowerOff(0))),
            (Read(1), Refused(PowerOff(1))),
            (Start, Done),
            (Read(1), BAD_1),
        ],
    );
}

#[test]
fn the_power_below_fails_in_the_chosen_call(rt: HostRuntime) {
    let mut bytes = sectors::<2565>();
    let plain = Plain {
        below: Marking::new(Image::new(&mut bytes), 0, Manner::Own),
    };
    play(
        &rt,
        &"marking",
        ask_any,
        &mut Marking::new(plain, 0, Manner::OwnAndAbove),
        &[
            (Write(1, 9), Refused(PowerOff(1))),
            (Start, Refused(PowerOff(0))),
            (Start, Done),
            (Read(0), Holds(1)),
            (Read(1), Holds(2)),
            (Read(2), Holds(3)),
        ],
    );
}

#[test]
fn under_a_window(rt: HostRuntime) {
    let mut bytes = sectors::<2565>();
    let plain = Plain {
        below: Image::new(&mut bytes),
    };
    let mut window = Window::new(Marking::new(plain, 0, Manner::OwnAndBelow), 2, 2);
    play(
        &rt,
        &"window",
        ask_any,
        &mut window,
        &[
            (Write(0, 9), Refused(PowerOff(0))),
            (Start, Done),
            (Read(0), BAD_0),
            (Read(1), Holds(4)),
            (Read(2), Refused(NoSuchSector)),
            (Write(0, 8), Done),
            (Read(0), Holds(8)),
        ],
    );
    play(
        &rt,
        &"below",
        ask_any,
        &mut window.into_below(),
        &[(Read(1), BAD_1), (Read(2), Holds(8))],
    );
}
