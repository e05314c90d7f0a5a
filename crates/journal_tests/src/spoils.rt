// Sectors that are lost after a shut.
use crate::bytes::{Bytes, formatted, spoil};
use crate::calls::Answer::*;
use crate::calls::Call::*;
use crate::calls::{Step, on_image};
use std::process::Abort;

const SHUT: &[Step] = &[
    (Recover, Done),
    (Change(1, 11), Done),
    (Force, Forced(2)),
    (Change(2, 12), Done),
    (Force, Forced(3)),
    (Change(1, 21), Done),
    (Change(3, 13), Done),
    (Force, Forced(4)),
    (Change(0, 10), Done),
    (Shut, Done),
];

const BACK: &[Step] = &[
    (Recover, Done),
    (Image(0), Holds(10)),
    (Image(1), Holds(21)),
    (Image(2), Holds(12)),
    (Image(3), Holds(13)),
];

// The last pair has the first sector of the data.
#[test]
fn one_or_two_adjacent_ones_below_the_data(rt: HostRuntime) {
    let mut shut = formatted(&rt);
    on_image(&rt, &"shut", &mut shut, SHUT);
    for sector in 0..60 {
        let mut bytes = shut;
        spoil(&rt, &mut bytes, &[sector]);
        on_image(&rt, &sector, &mut bytes, BACK);
        let mut bytes = shut;
        spoil(&rt, &mut bytes, &[sector, sector + 1]);
        on_image(&rt, &(sector, sector + 1), &mut bytes, BACK);
    }
}
