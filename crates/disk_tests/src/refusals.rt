// Refusals: their numbers, places and words, and which of them a disk call has. A script checks that a refused read leaves the caller's bytes.
use crate::bytes::sectors;
use crate::kinds::on_image;
use crate::scripts::Answer::*;
use crate::scripts::Call::*;
use crate::scripts::{Answer, Call};
use disk::faults::Fault;
use disk::faults::Fault::*;
use refusal::Refusal;
use std::process::Abort;
use std::test::Fail;

// A refusal, its number, its place and its words.
type Row = (Refusal, u8, Option<u32>, &'static str);

const ALL: [Row; 17] = [
    (Refusal::VolumeDown, 1, None, "volume down"),
    (Refusal::BadName, 2, None, "bad name"),
    (Refusal::TooLong, 3, None, "too long"),
    (Refusal::VersionAbove, 4, None, "version above 9,999"),
    (Refusal::RegisterFull, 5, None, "register full"),
    (Refusal::NoRun, 6, None, "no run of sectors"),
    (Refusal::NoSuchFile, 7, None, "no such file"),
    (Refusal::BufferShort, 8, None, "buffer short"),
    (Refusal::PowerOff(21), 9, Some(21), "power off"),
    (Refusal::Unreadable(22), 10, Some(22), "unreadable"),
    (Refusal::LeaderDiffers(23), 11, Some(23), "leader differs"),
    (Refusal::NoVolume, 12, None, "no volume"),
    (Refusal::RegisterBroken(24), 13, Some(24), "register broken"),
    (Refusal::NumbersUsedUp, 14, None, "numbers used up"),
    (Refusal::BadNumbers, 15, None, "bad numbers"),
    (Refusal::NoSuchSector, 16, None, "no such sector"),
    (Refusal::VolumeUp, 17, None, "volume up"),
];

fn check_row(rt: &impl Abort, (refusal, number, place, words): Row) {
    assert_eq!(rt; (refusal.number(), refusal.place()), (number, place));
    assert_eq!(rt; refusal.words(), words);
}

#[test]
fn numbers_places_and_words(rt: HostRuntime) {
    for row in ALL {
        check_row(&rt, row);
    }
}

// Checks which refusal a fault is.
fn is(rt: &impl Abort, fault: Fault, refusal: Refusal) {
    assert_eq!(rt; Refusal::from(fault), refusal);
}

#[test]
fn faults_are_refusals(rt: HostRuntime) {
    is(&rt, Fault::PowerOff(5), Refusal::PowerOff(5));
    is(&rt, Fault::Unreadable(6), Refusal::Unreadable(6));
    is(&rt, Fault::NoSuchSector, Refusal::NoSuchSector);
}

#[test]
fn printed(rt: HostRuntime) -> Result<(), Fail> {
    let with_a_place = format!(in rt.alloc(); "{}", Refusal::PowerOff(21))?;
    assert_eq!(rt; with_a_place.as_str(), "9 power off");
    let with_none = format!(in rt.alloc(); "{}", Refusal::VersionAbove)?;
    assert_eq!(rt; with_none.as_str(), "4 version above 9,999");
    let of_a_fault = format!(in rt.alloc(); "{}", Fault::Unreadable(22))?;
    assert_eq!(rt; of_a_fault.as_str(), "10 unreadable");
    Ok(())
}

// Plays a script on two sectors, of which the first holds 1 and the second is unreadable.
fn two(rt: &impl Abort, power: bool, script: &[(Call, Answer)]) {
    let mut bytes = sectors::<1026>();
    bytes[513] = 1;
    on_image(rt, &mut bytes, power, script);
}

#[test]
fn with_power_on(rt: HostRuntime) {
    two(
        &rt,
        true,
        &[
            (Read(0), Holds(1)),
            (Read(1), Refused(Unreadable(1))),
            (Read(2), Refused(NoSuchSector)),
            (Read(u32::MAX), Refused(NoSuchSector)),
            (Write(2, 9), Refused(NoSuchSector)),
        ],
    );
}

#[test]
fn with_power_off(rt: HostRuntime) {
    two(
        &rt,
        false,
        &[
            (Count, Sectors(2)),
            (Read(0), Refused(PowerOff(0))),
            (Read(1), Refused(PowerOff(1))),
            (Read(2), Refused(PowerOff(2))),
            (Read(u32::MAX), Refused(PowerOff(u32::MAX))),
            (Write(0, 9), Refused(PowerOff(0))),
            (Write(2, 9), Refused(PowerOff(2))),
            (Start, Done),
            (Read(0), Holds(1)),
            (Read(1), Refused(Unreadable(1))),
        ],
    );
}
