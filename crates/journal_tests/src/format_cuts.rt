// A format over a volume that loses the power.
use crate::bytes::formatted;
use crate::calls::Answer::*;
use crate::calls::Call::*;
use crate::calls::{Step, on_image};
use crate::cuts::cut;
use failing::manner::Manner;
use refusal::Refusal::*;

// The volume before.
const BEFORE: &[Step] = &[(Recover, Done), (Change(1, 11), Done), (Shut, Done)];

const OLD: &[Step] = &[(Recover, Done), (Image(1), Holds(11))];

const NONE: &[Step] = &[(Recover, Refused(NoVolume))];

const NEW: &[Step] = &[(Recover, Done), (Image(1), Holds(2))];

// What comes back after so many starts and writes. The first two writes take both headers away, and the last two, the 59th and the 60th, write them.
fn back(calls: u32, manner: Manner) -> &'static [Step] {
    match (calls, manner) {
        (0..=1, _) | (2, Manner::AsBefore) => OLD,
        (59, Manner::NewBytes) | (60, _) => NEW,
        _ => NONE,
    }
}

#[test]
fn at_each_call(rt: HostRuntime) {
    let mut before = formatted(&rt);
    on_image(&rt, &"before", &mut before, BEFORE);
    for calls in 0..=60 {
        for manner in Manner::ALL {
            let mut bytes = before;
            let sector = cut(&rt, &mut bytes, &[], Format(14, 4), calls, manner);
            assert!(rt; sector.is_some(), "{:?}: {}", manner, calls);
            on_image(&rt, &(calls, manner), &mut bytes, back(calls, manner));
        }
    }
}
