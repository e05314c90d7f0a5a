// A recovery that loses the power in one of its calls, and once more in the next one.
use crate::bytes::{Bytes, formatted, spoil};
use crate::calls::Answer::*;
use crate::calls::Call::*;
use crate::calls::{Step, on_image};
use crate::cuts::cut_each;
use crate::noting::calls_of;
use std::process::Abort;
use std::test::Fail;

// Records of page 1 at 8, of page 2 at 22, and of pages 1 and 3 at 36.
const FORCES: &[Step] = &[
    (Recover, Done),
    (Change(1, 11), Done),
    (Force, Forced(2)),
    (Change(2, 12), Done),
    (Force, Forced(3)),
    (Change(1, 21), Done),
    (Change(3, 13), Done),
    (Force, Forced(4)),
];

const BACK: &[Step] = &[
    (Recover, Done),
    (Image(0), Holds(1)),
    (Image(1), Holds(21)),
    (Image(2), Holds(12)),
    (Image(3), Holds(13)),
];

// The volume after the three forces, with a header, an anchor, all first copies of the pages and a sector of each record unreadable.
fn damaged(rt: &impl Abort) -> Bytes {
    let mut bytes = formatted(rt);
    on_image(rt, &"forces", &mut bytes, FORCES);
    spoil(rt, &mut bytes, &[0, 6, 8, 25, 44, 50, 51, 52, 53]);
    bytes
}

// Checks that the images come back from each of these disks.
fn all_back(rt: &impl Abort, disks: &mut [Bytes]) {
    for (i, bytes) in disks.iter_mut().enumerate() {
        on_image(rt, &i, bytes, BACK);
    }
}

// A start, 26 reads that are done, and 14 writes, each cut in five manners.
#[test]
fn once(rt: HostRuntime) -> Result<(), Fail> {
    let bytes = damaged(&rt);
    let (calls, writes) = calls_of(&rt, &bytes, BACK);
    assert_eq!(rt; (calls, writes), (41, 14));
    let mut left = cut_each(&rt, &bytes, &[], Recover, 0..calls)?;
    assert_eq!(rt; left.len(), 205);
    all_back(&rt, &mut left);
    Ok(())
}

// What the disk is after cuts of the writes alone: a start and a read change nothing.
fn cut_writes(rt: &(impl Abort + AllocGlobal), bytes: &Bytes) -> Result<Vec<Bytes>, Fail> {
    let (calls, writes) = calls_of(rt, bytes, &[(Recover, Done)]);
    cut_each(rt, bytes, &[], Recover, calls.saturating_sub(writes)..calls)
}

// After the 70 cuts of the first recovery the second ones make 662 writes in all, each cut in five manners.
#[test]
fn twice(rt: HostRuntime) -> Result<(), Fail> {
    let once = cut_writes(&rt, &damaged(&rt))?;
    assert_eq!(rt; once.len(), 70);
    let mut count = 0usize;
    for bytes in &once {
        let mut left = cut_writes(&rt, bytes)?;
        all_back(&rt, &mut left);
        count = count.saturating_add(left.len());
    }
    assert_eq!(rt; count, 3310);
    Ok(())
}
