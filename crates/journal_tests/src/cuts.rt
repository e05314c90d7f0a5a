// What a disk is after a cut in one of some calls.
use crate::bytes::Bytes;
use crate::calls::{Answer, Call, Step, ask, play};
use failing::failing::Failing;
use failing::manner::Manner;
use image::Image;
use journal::journal::Journal;
use refusal::Refusal;
use std::ops::Range;
use std::process::Abort;
use std::test::Fail;

/// Plays a script on a disk that loses its power after so many starts, reads and writes, then a call that is cut. The sector that 9 names; the journal is down then.
pub fn cut(
    rt: &impl Abort,
    bytes: &mut Bytes,
    script: &[Step],
    last: Call,
    calls: u32,
    manner: Manner,
) -> Option<u32> {
    let row = (calls, manner);
    let mut journal = Journal::new(Failing::new(Image::new(bytes), calls, manner));
    play(rt, &row, &mut journal, script);
    let answer = ask(&mut journal, last);
    let down = Answer::Refused(Refusal::VolumeDown);
    assert_eq!(rt; ask(&mut journal, Call::Image(0)), down, "{:?}", row);
    match answer {
        Answer::Refused(Refusal::PowerOff(sector)) => Some(sector),
        _ => None,
    }
}

/// The disks that are left where a call after a script is cut after so many starts, reads and writes, in each manner.
pub fn cut_each(
    rt: &(impl Abort + AllocGlobal),
    bytes: &Bytes,
    script: &[Step],
    last: Call,
    calls: Range<u32>,
) -> Result<Vec<Bytes>, Fail> {
    let mut left = Vec::new(rt.alloc());
    for calls in calls {
        for manner in Manner::ALL {
            let mut bytes = *bytes;
            let sector = cut(rt, &mut bytes, script, last, calls, manner);
            assert!(rt; sector.is_some(), "{:?}: {}", manner, calls);
            left.push(bytes)?;
        }
    }
    Ok(left)
}
