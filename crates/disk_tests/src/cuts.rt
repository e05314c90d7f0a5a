// A power that fails in a chosen call, over three sectors that hold 1, 2 and 3: of `Failing`, and where the answers are the same, of `Marking` too.
use crate::bytes::sectors;
use crate::kinds::{image_of, on_above, on_image};
use crate::scripts::Answer::*;
use crate::scripts::Call::*;
use crate::scripts::{Answer, BAD_0, BAD_1, BAD_2, Call, ask, play};
use disk::faults::Fault::*;
use failing::failing::Failing;
use failing::manner::Manner;
use image::Image;
use marking::marking::Marking;
use std::process::Abort;
use window::Window;

// Plays a script on each disk whose power fails after `calls` calls, and then one on the disk below, given back.
fn both(
    rt: &impl Abort,
    calls: u32,
    manner: Manner,
    script: &[(Call, Answer)],
    below: &[(Call, Answer)],
) {
    let mut bytes = sectors::<1539>();
    let failing = Failing::new(Image::new(&mut bytes), calls, manner);
    on_above(rt, failing, Failing::into_below, script, below);
    let mut bytes = sectors::<1539>();
    let marking = Marking::new(Image::new(&mut bytes), calls, manner);
    on_above(rt, marking, Marking::into_below, script, below);
}

// A manner, the sector written, and what the three sectors are then.
type Row = (Manner, u32, Answer, Answer, Answer);

const ALL: [Row; 15] = [
    (Manner::AsBefore, 0, Holds(1), Holds(2), Holds(3)),
    (Manner::AsBefore, 1, Holds(1), Holds(2), Holds(3)),
    (Manner::AsBefore, 2, Holds(1), Holds(2), Holds(3)),
    (Manner::NewBytes, 0, Holds(9), Holds(2), Holds(3)),
    (Manner::NewBytes, 1, Holds(1), Holds(9), Holds(3)),
    (Manner::NewBytes, 2, Holds(1), Holds(2), Holds(9)),
    (Manner::Own, 0, BAD_0, Holds(2), Holds(3)),
    (Manner::Own, 1, Holds(1), BAD_1, Holds(3)),
    (Manner::Own, 2, Holds(1), Holds(2), BAD_2),
    (Manner::OwnAndBelow, 0, BAD_0, Holds(2), Holds(3)),
    (Manner::OwnAndBelow, 1, BAD_0, BAD_1, Holds(3)),
    (Manner::OwnAndBelow, 2, Holds(1), BAD_1, BAD_2),
    (Manner::OwnAndAbove, 0, BAD_0, BAD_1, Holds(3)),
    (Manner::OwnAndAbove, 1, Holds(1), BAD_1, BAD_2),
    (Manner::OwnAndAbove, 2, Holds(1), Holds(2), BAD_2),
];

// Checks what a write of 9 leaves.
fn check_row(rt: &impl Abort, (manner, sector, left_0, left_1, left_2): Row) {
    let mut bytes = sectors::<1539>();
    play(
        rt,
        &(manner, sector),
        ask,
        &mut Failing::new(Image::new(&mut bytes), 0, manner),
        &[
            (Write(sector, 9), Refused(PowerOff(sector))),
            (Read(sector), Refused(PowerOff(sector))),
            (Write(sector, 8), Refused(PowerOff(sector))),
            (Start, Done),
            (Read(0), left_0),
            (Read(1), left_1),
            (Read(2), left_2),
            (Write(sector, 7), Done),
            (Read(sector), Holds(7)),
        ],
    );
}

#[test]
fn each_manner_at_each_sector(rt: HostRuntime) {
    for row in ALL {
        check_row(&rt, row);
    }
}

#[test]
fn a_spoiled_sector_is_cut_as_any_other(rt: HostRuntime) {
    both(
        &rt,
        0,
        Manner::AsBefore,
        &[
            (Spoil(1), Done),
            (Write(1, 9), Refused(PowerOff(1))),
            (Start, Done),
            (Read(1), BAD_1),
        ],
        &[(Read(1), BAD_1)],
    );
    both(
        &rt,
        0,
        Manner::NewBytes,
        &[
            (Spoil(1), Done),
            (Write(1, 9), Refused(PowerOff(1))),
            (Start, Done),
            (Read(1), Holds(9)),
        ],
        &[(Read(1), Holds(9))],
    );
}

#[test]
fn a_chosen_start(rt: HostRuntime) {
    both(
        &rt,
        1,
        Manner::Own,
        &[
            (Write(1, 9), Done),
            (Start, Refused(PowerOff(0))),
            (Read(1), Refused(PowerOff(1))),
            (Read(3), Refused(PowerOff(3))),
            (Count, Sectors(3)),
            (Start, Done),
            (Read(0), Holds(1)),
            (Read(1), Holds(9)),
            (Read(2), Holds(3)),
        ],
        &[],
    );
}

#[test]
fn a_chosen_read(rt: HostRuntime) {
    both(
        &rt,
        2,
        Manner::Own,
        &[
            (Start, Done),
            (Write(0, 9), Done),
            (Read(1), Refused(PowerOff(1))),
            (Write(2, 9), Refused(PowerOff(2))),
            (Start, Done),
            (Read(0), Holds(9)),
            (Read(1), Holds(2)),
            (Read(2), Holds(3)),
        ],
        &[],
    );
}

#[test]
fn refused_calls_do_not_count(rt: HostRuntime) {
    both(
        &rt,
        1,
        Manner::Own,
        &[
            (Read(3), Refused(NoSuchSector)),
            (Write(3, 9), Refused(NoSuchSector)),
            (Spoil(1), Done),
            (Read(1), BAD_1),
            (Read(0), Holds(1)),
            (Read(3), Refused(NoSuchSector)),
            (Write(3, 9), Refused(NoSuchSector)),
            (Read(1), BAD_1),
            (Read(0), Refused(PowerOff(0))),
        ],
        &[],
    );
}

#[test]
fn calls_with_power_off_do_not_count(rt: HostRuntime) {
    let mut bytes = sectors::<1539>();
    on_above(
        &rt,
        Failing::new(image_of(&mut bytes, false), 1, Manner::NewBytes),
        Failing::into_below,
        &[
            (Read(0), Refused(PowerOff(0))),
            (Write(3, 9), Refused(PowerOff(3))),
            (Start, Done),
            (Write(2, 9), Refused(PowerOff(2))),
            (Read(2), Refused(PowerOff(2))),
            (Spoil(0), Done),
        ],
        &[(Read(0), BAD_0), (Read(1), Holds(2)), (Read(2), Holds(9))],
    );
}

/// A cut at the first sector of a window, and what is read there.
pub const CUT: [(Call, Answer); 3] = [
    (Write(0, 9), Refused(PowerOff(0))),
    (Start, Done),
    (Read(0), BAD_0),
];

#[test]
fn below_a_window_it_reaches_past_the_window(rt: HostRuntime) {
    let mut bytes = sectors::<1539>();
    on_above(
        &rt,
        Window::new(
            Failing::new(Image::new(&mut bytes), 0, Manner::OwnAndBelow),
            1,
            1,
        ),
        Window::into_below,
        &CUT,
        &[(Read(0), BAD_0), (Read(1), BAD_1), (Read(2), Holds(3))],
    );
}

#[test]
fn above_a_window_it_stays_in_the_window(rt: HostRuntime) {
    let mut bytes = sectors::<1539>();
    on_above(
        &rt,
        Failing::new(
            Window::new(Image::new(&mut bytes), 1, 1),
            0,
            Manner::OwnAndBelow,
        ),
        Failing::into_below,
        &CUT,
        &[(Count, Sectors(1))],
    );
    on_image(
        &rt,
        &mut bytes,
        true,
        &[(Read(0), Holds(1)), (Read(1), BAD_1), (Read(2), Holds(3))],
    );
}
