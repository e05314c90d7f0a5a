// Windows over four sectors that hold 1, 2, 3 and 4.
use crate::bytes::sectors;
use crate::kinds::{image_of, on_above};
use crate::scripts::Answer::*;
use crate::scripts::Call::*;
use crate::scripts::{ask, play};
use disk::faults::Fault::*;
use image::Image;
use std::process::Abort;
use window::Window;

// Checks that a window has `count` sectors and no more. Not one function with `has` of `counts`: the disks are made in other ways, and the scripts write other bytes and spoil a sector here alone.
fn has(rt: &impl Abort, bytes: &mut [u8], part: (u32, u32), count: u32) {
    let (first, length) = part;
    play(
        rt,
        &part,
        ask,
        &mut Window::new(Image::new(bytes), first, length),
        &[
            (Count, Sectors(count)),
            (Read(count), Refused(NoSuchSector)),
            (Write(count, 9), Refused(NoSuchSector)),
            (Spoil(count), Refused(NoSuchSector)),
        ],
    );
}

// A window's first sector and its length, and how many sectors it has over four.
type Row = ((u32, u32), u32);

const ALL: [Row; 13] = [
    ((0, 0), 0),
    ((0, 1), 1),
    ((0, 4), 4),
    ((0, u32::MAX), 4),
    ((1, 2), 2),
    ((1, 3), 3),
    ((3, 1), 1),
    ((3, 2), 1),
    ((4, 0), 0),
    ((4, 1), 0),
    ((5, 1), 0),
    ((u32::MAX, 1), 0),
    ((u32::MAX, u32::MAX), 0),
];

#[test]
fn counts_what_lies_on_the_disk(rt: HostRuntime) {
    let mut bytes = [0; 2052];
    for (part, count) in ALL {
        has(&rt, &mut bytes, part, count);
    }
    has(&rt, &mut [], (0, 1), 0);
}

#[test]
fn sector_i_is_first_and_i_below(rt: HostRuntime) {
    let mut bytes = sectors::<2052>();
    on_above(
        &rt,
        Window::new(Image::new(&mut bytes), 1, 2),
        Window::into_below,
        &[
            (Read(0), Holds(2)),
            (Read(1), Holds(3)),
            (Read(2), Refused(NoSuchSector)),
            (Write(1, 9), Done),
            (Write(2, 9), Refused(NoSuchSector)),
        ],
        &[
            (Count, Sectors(4)),
            (Read(0), Holds(1)),
            (Read(1), Holds(2)),
            (Read(2), Holds(9)),
            (Read(3), Holds(4)),
        ],
    );
}

#[test]
fn with_power_off(rt: HostRuntime) {
    let mut bytes = sectors::<2052>();
    on_above(
        &rt,
        Window::new(image_of(&mut bytes, false), 1, 2),
        Window::into_below,
        &[
            (Read(0), Refused(PowerOff(0))),
            (Read(2), Refused(PowerOff(2))),
            (Write(2, 9), Refused(PowerOff(2))),
            (Write(u32::MAX, 9), Refused(PowerOff(u32::MAX))),
            (Spoil(2), Refused(NoSuchSector)),
            (Start, Done),
            (Read(0), Holds(2)),
        ],
        &[(Read(3), Holds(4))],
    );
}

#[test]
fn over_a_window(rt: HostRuntime) {
    let mut bytes = sectors::<2052>();
    on_above(
        &rt,
        Window::new(Window::new(Image::new(&mut bytes), 1, 2), 1, 5),
        Window::into_below,
        &[
            (Count, Sectors(1)),
            (Read(0), Holds(3)),
            (Read(1), Refused(NoSuchSector)),
            (Write(0, 9), Done),
            (Write(1, 9), Refused(NoSuchSector)),
        ],
        &[
            (Count, Sectors(2)),
            (Read(0), Holds(2)),
            (Read(1), Holds(9)),
            (Read(2), Refused(NoSuchSector)),
        ],
    );
}
