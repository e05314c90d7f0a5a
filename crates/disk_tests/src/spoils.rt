// Sectors made unreadable, among three that hold 1, 2 and 3.
use crate::bytes::sectors;
use crate::kinds::{image_of, on_above, on_image, on_lent};
use crate::scripts::Answer::*;
use crate::scripts::Call::*;
use crate::scripts::{Answer, Call};
use disk::faults::Fault::*;
use window::Window;

// What is read where sector 1 was spoiled.
const SPOILED: [(Call, Answer); 3] = [
    (Read(0), Holds(1)),
    (Read(1), Refused(Unreadable(1))),
    (Read(2), Holds(3)),
];

#[test]
fn until_it_is_written(rt: HostRuntime) {
    let mut bytes = sectors::<1539>();
    on_image(
        &rt,
        &mut bytes,
        true,
        &[
            (Spoil(1), Done),
            (Read(0), Holds(1)),
            (Read(1), Refused(Unreadable(1))),
            (Read(2), Holds(3)),
            (Write(1, 9), Done),
            (Read(1), Holds(9)),
            (Spoil(3), Refused(NoSuchSector)),
            (Spoil(u32::MAX), Refused(NoSuchSector)),
            (Spoil(2), Done),
        ],
    );
    assert_eq!(rt;
        [bytes[513], bytes[514], bytes[1026], bytes[1027]],
        [0, 9, 1, 3]
    );
}

#[test]
fn with_power_off(rt: HostRuntime) {
    let mut bytes = sectors::<1539>();
    on_image(
        &rt,
        &mut bytes,
        false,
        &[
            (Spoil(1), Done),
            (Spoil(3), Refused(NoSuchSector)),
            (Read(1), Refused(PowerOff(1))),
            (Start, Done),
        ],
    );
    on_image(&rt, &mut bytes, true, &SPOILED);
}

#[test]
fn through_a_window(rt: HostRuntime) {
    let mut bytes = sectors::<1539>();
    on_above(
        &rt,
        Window::new(image_of(&mut bytes, false), 1, 1),
        Window::into_below,
        &[
            (Spoil(0), Done),
            (Spoil(1), Refused(NoSuchSector)),
            (Start, Done),
            (Read(0), Refused(Unreadable(0))),
        ],
        &SPOILED,
    );
}

#[test]
fn through_a_lent_disk(rt: HostRuntime) {
    let mut bytes = sectors::<1539>();
    on_lent(
        &rt,
        &mut bytes,
        &[
            (Count, Sectors(3)),
            (Spoil(1), Done),
            (Spoil(3), Refused(NoSuchSector)),
            (Read(1), Refused(Unreadable(1))),
            (Write(0, 1), Done),
            (Start, Done),
        ],
    );
    on_image(&rt, &mut bytes, true, &SPOILED);
}
