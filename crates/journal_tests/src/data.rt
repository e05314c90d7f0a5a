// A write to the data that loses the power.
use crate::bytes::formatted;
use crate::calls::Answer::*;
use crate::calls::Call::*;
use crate::calls::{Step, on_image};
use crate::cuts::cut_each;
use crate::noting::calls_of;
use std::test::Fail;

// Page 1 is forced at 8, and page 2 was changed since.
const BEFORE: &[Step] = &[
    (Recover, Done),
    (Change(1, 11), Done),
    (Force, Forced(2)),
    (Change(2, 12), Done),
];

const BACK: &[Step] = &[
    (Recover, Done),
    (Image(0), Holds(1)),
    (Image(1), Holds(11)),
    (Image(2), Holds(3)),
    (Image(3), Holds(4)),
];

// The first two and the last sector of the data.
#[test]
fn leaves_every_page(rt: HostRuntime) -> Result<(), Fail> {
    let bytes = formatted(&rt);
    let (calls, _) = calls_of(&rt, &bytes, BEFORE);
    for sector in [60, 61, 119] {
        let last = Data(sector, 9);
        let mut left = cut_each(&rt, &bytes, BEFORE, last, calls..calls.saturating_add(1))?;
        assert_eq!(rt; left.len(), 5);
        for (i, bytes) in left.iter_mut().enumerate() {
            on_image(&rt, &(sector, i), bytes, BACK);
        }
    }
    Ok(())
}
