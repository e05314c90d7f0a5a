// What a disk that marks what it lost answers by itself, where its power fails in a chosen call, over three sectors that hold 1, 2 and 3. What it answers as `Failing` does is in `cuts`.
use crate::bytes::sectors;
use crate::cuts::CUT;
use crate::kinds::{on_above, on_image};
use crate::scripts::Answer::*;
use crate::scripts::Call::*;
use crate::scripts::{Answer, BAD_0, BAD_1, Call};
use disk::faults::Fault::*;
use failing::manner::Manner;
use image::Image;
use marking::marking::Marking;
use std::process::Abort;
use window::Window;

// Plays a script on the disk whose power fails after `calls` calls, and then one on the disk below, given back.
fn marking(
    rt: &impl Abort,
    calls: u32,
    manner: Manner,
    script: &[(Call, Answer)],
    below: &[(Call, Answer)],
) {
    let mut bytes = sectors::<1539>();
    let disk = Marking::new(Image::new(&mut bytes), calls, manner);
    on_above(rt, disk, Marking::into_below, script, below);
}

#[test]
fn above_a_window_the_disk_below_is_as_before(rt: HostRuntime) {
    let mut bytes = sectors::<1539>();
    on_above(
        &rt,
        Marking::new(
            Window::new(Image::new(&mut bytes), 1, 1),
            0,
            Manner::OwnAndBelow,
        ),
        Marking::into_below,
        &CUT,
        &[(Count, Sectors(1))],
    );
    on_image(
        &rt,
        &mut bytes,
        true,
        &[
            (Read(0), Holds(1)),
            (Read(1), Holds(2)),
            (Read(2), Holds(3)),
        ],
    );
}

#[test]
fn a_lost_sector_that_is_spoiled_stays_spoiled_below(rt: HostRuntime) {
    marking(
        &rt,
        0,
        Manner::OwnAndAbove,
        &[
            (Write(0, 9), Refused(PowerOff(0))),
            (Spoil(0), Done),
            (Spoil(3), Refused(NoSuchSector)),
            (Start, Done),
            (Read(0), BAD_0),
            (Read(1), BAD_1),
        ],
        &[(Read(0), BAD_0), (Read(1), Holds(2))],
    );
}

#[test]
fn a_chosen_start_and_a_chosen_read_lose_no_sector(rt: HostRuntime) {
    marking(
        &rt,
        1,
        Manner::Own,
        &[
            (Write(1, 9), Done),
            (Start, Refused(PowerOff(0))),
            (Read(1), Refused(PowerOff(1))),
            (Start, Done),
            (Read(1), Holds(9)),
        ],
        &[],
    );
    marking(
        &rt,
        1,
        Manner::Own,
        &[
            (Write(1, 9), Done),
            (Read(1), Refused(PowerOff(1))),
            (Read(0), Refused(PowerOff(0))),
            (Start, Done),
            (Read(1), Holds(9)),
        ],
        &[],
    );
}
