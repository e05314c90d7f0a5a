// A recovery takes nothing from memory: the journal that lost the power, or was shut, goes on as a new one does.
use crate::bytes::{Bytes, formatted};
use crate::calls::Answer::*;
use crate::calls::Call::*;
use crate::calls::{Step, on_image, play};
use crate::noting::calls_of;
use failing::failing::Failing;
use failing::manner::Manner;
use image::Image;
use journal::journal::Journal;
use refusal::Refusal;
use std::process::Abort;

const FORCED: &[Step] = &[
    (Recover, Done),
    (Change(1, 11), Done),
    (Force, Forced(2)),
    (Change(1, 21), Done),
    (Change(2, 12), Done),
];

// What goes on after a force of pages 1 and 2 that was cut in its first write, and after a shut instead.
const AFTER_CUT: &[Step] = &[
    (Recover, Done),
    (Image(0), Holds(1)),
    (Image(1), Holds(11)),
    (Image(2), Holds(3)),
    (Image(3), Holds(4)),
    (Force, Forced(0)),
    (Change(0, 10), Done),
    (Force, Forced(4)),
];

const AFTER_SHUT: &[Step] = &[
    (Recover, Done),
    (Image(0), Holds(1)),
    (Image(1), Holds(21)),
    (Image(2), Holds(12)),
    (Image(3), Holds(4)),
    (Force, Forced(0)),
    (Change(0, 10), Done),
    (Force, Forced(5)),
];

// The disk after two scripts, the second one on the same journal, or on a new one over the disk that the first one left.
fn after(rt: &impl Abort, calls: u32, first: &[Step], second: &[Step], same: bool) -> Bytes {
    let mut bytes = formatted(rt);
    let failing = Failing::new(Image::new(&mut bytes), calls, Manner::Own);
    let mut journal = Journal::new(failing);
    play(rt, &"before", &mut journal, FORCED);
    play(rt, &"first", &mut journal, first);
    if same {
        play(rt, &"same", &mut journal, second);
    } else {
        on_image(rt, &"new", &mut bytes, second);
    }
    bytes
}

// Checks that both go on alike.
fn alike(rt: &impl Abort, calls: u32, first: &[Step], second: &[Step]) {
    let same = after(rt, calls, first, second, true);
    assert!(rt; same == after(rt, calls, first, second, false));
}

#[test]
fn after_a_cut(rt: HostRuntime) {
    let (calls, _) = calls_of(&rt, &formatted(&rt), FORCED);
    alike(
        &rt,
        calls,
        &[(Force, Refused(Refusal::PowerOff(22)))],
        AFTER_CUT,
    );
}

#[test]
fn after_a_shut(rt: HostRuntime) {
    alike(&rt, 1000, &[(Shut, Done)], AFTER_SHUT);
}
