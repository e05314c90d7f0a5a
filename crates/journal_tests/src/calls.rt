// A script: calls of a journal, and the answers that they must have.
use disk::disks::Disk;
use image::Image;
use journal::journal::Journal;
use padding::fitted;
use refusal::Refusal;
use std::fmt::Debug;
use std::process::Abort;

/// A call of a journal. Images and data are 512 bytes that are all the same, where it says nothing else.
#[derive(Clone, Copy)]
pub enum Call {
    /// With so many sectors in a third, and so many of the images of 1, of 2 and so on as pages 0, 1 and so on.
    Format(u32, usize),
    /// With thirds of 14 sectors and four images of zeros, but that the last begins with these bytes.
    FormatTo(&'static [u8]),
    Recover,
    Change(u32, u8),
    /// To an image that begins with these bytes and has zeros behind them.
    ChangeTo(u32, &'static [u8]),
    Force,
    Shut,
    Image(u32),
    Data(u32, u8),
}

/// What a call answers.
#[derive(Clone, Copy, PartialEq, Eq, Debug)]
pub enum Answer {
    Done,
    Forced(u32),
    /// The image has 512 bytes that are all the same.
    Holds(u8),
    HoldsMixed,
    Refused(Refusal),
    /// Afterwards the working sector was not all zeros.
    WorkLeft,
}

/// A call of a script, and its answer.
pub type Step = (Call, Answer);

// The image of a page whose bytes are all its number and 1.
fn pages() -> [[u8; 512]; 22] {
    let mut pages = [[0; 512]; 22];
    for (page, image) in (1..).zip(&mut pages) {
        image.fill(page);
    }
    pages
}

// The answer to a call that answers nothing.
fn done(answer: Result<(), Refusal>) -> Answer {
    match answer {
        Ok(()) => Answer::Done,
        Err(refusal) => Answer::Refused(refusal),
    }
}

fn forced(answer: Result<u32, Refusal>) -> Answer {
    match answer {
        Ok(group) => Answer::Forced(group),
        Err(refusal) => Answer::Refused(refusal),
    }
}

fn held(answer: Result<[u8; 512], Refusal>) -> Answer {
    let image = match answer {
        Ok(image) => image,
        Err(refusal) => return Answer::Refused(refusal),
    };
    if image == [image[0]; 512] {
        Answer::Holds(image[0])
    } else {
        Answer::HoldsMixed
    }
}

/// The answer to a call.
pub fn ask<D: Disk>(journal: &mut Journal<D>, call: Call) -> Answer {
    let mut work = [7; 512];
    let answer = match call {
        Call::Format(third, many) => {
            done(journal.format(third, &pages()[..many.min(22)], &mut work))
        }
        Call::FormatTo(bytes) => {
            let images = [[0; 512], [0; 512], [0; 512], fitted(bytes)];
            done(journal.format(14, &images, &mut work))
        }
        Call::Recover => done(journal.recover(&mut work)),
        Call::Change(page, byte) => done(journal.change(page, &[byte; 512], &mut work)),
        Call::ChangeTo(page, bytes) => done(journal.change(page, &fitted(bytes), &mut work)),
        Call::Force => forced(journal.force(&mut work)),
        Call::Shut => done(journal.shut(&mut work)),
        Call::Image(page) => return held(journal.image(page)),
        Call::Data(sector, byte) => done(journal.write_data(sector, &[byte; 512], &mut work)),
    };
    if work == [0; 512] {
        answer
    } else {
        Answer::WorkLeft
    }
}

/// Makes each call of a script in turn, and checks its answer. A wrong one names the row of a table, or which script it was, and the call.
pub fn play<D: Disk>(rt: &impl Abort, row: &impl Debug, journal: &mut Journal<D>, script: &[Step]) {
    for (i, (call, answer)) in script.iter().enumerate() {
        assert_eq!(rt; ask(journal, *call), *answer, "{:?}: {}", row, i);
    }
}

/// Plays a script on a new journal over the image in `bytes`.
pub fn on_image(rt: &impl Abort, row: &impl Debug, bytes: &mut [u8], script: &[Step]) {
    play(rt, row, &mut Journal::new(Image::new(bytes)), script);
}
