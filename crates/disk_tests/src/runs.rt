// Runs of blocks that hold 11, 12, 13 and 14, over three sectors that hold 1, 2 and 3.
use crate::bytes::sectors;
use crate::kinds::{on_above, on_image};
use crate::scripts::Answer::*;
use crate::scripts::Call::*;
use crate::scripts::{Answer, Call};
use disk::faults::Fault::*;
use failing::failing::Failing;
use failing::manner::Manner;
use image::Image;
use std::process::Abort;

// Plays a script on the three sectors, with power on or off.
fn three(rt: &impl Abort, power: bool, script: &[(Call, Answer)]) {
    let mut bytes = sectors::<1539>();
    on_image(rt, &mut bytes, power, script);
}

#[test]
fn done(rt: HostRuntime) {
    three(
        &rt,
        true,
        &[
            (WriteRun(1, 2), Done),
            (Read(0), Holds(1)),
            (Read(1), Holds(11)),
            (Read(2), Holds(12)),
            (WriteRun(0, 3), Done),
            (Read(0), Holds(11)),
            (Read(1), Holds(12)),
            (Read(2), Holds(13)),
        ],
    );
}

#[test]
fn not_on_the_disk(rt: HostRuntime) {
    three(
        &rt,
        true,
        &[
            (WriteRun(2, 2), Refused(NoSuchSector)),
            (WriteRun(0, 4), Refused(NoSuchSector)),
            (WriteRun(3, 1), Refused(NoSuchSector)),
            (WriteRun(4, 0), Refused(NoSuchSector)),
            (WriteRun(u32::MAX, 1), Refused(NoSuchSector)),
            (Read(0), Holds(1)),
            (Read(1), Holds(2)),
            (Read(2), Holds(3)),
        ],
    );
}

#[test]
fn with_power_off(rt: HostRuntime) {
    three(
        &rt,
        false,
        &[
            (WriteRun(0, 0), Done),
            (WriteRun(3, 0), Done),
            (WriteRun(1, 2), Refused(PowerOff(1))),
            (WriteRun(2, 2), Refused(NoSuchSector)),
            (Start, Done),
            (Read(1), Holds(2)),
            (Read(2), Holds(3)),
        ],
    );
}

#[test]
fn cut_in_the_middle(rt: HostRuntime) {
    let mut bytes = sectors::<1539>();
    on_above(
        &rt,
        Failing::new(Image::new(&mut bytes), 1, Manner::Own),
        Failing::into_below,
        &[
            (WriteRun(0, 3), Refused(PowerOff(1))),
            (Start, Done),
            (Read(0), Holds(11)),
            (Read(1), Refused(Unreadable(1))),
            (Read(2), Holds(3)),
        ],
        &[],
    );
}
