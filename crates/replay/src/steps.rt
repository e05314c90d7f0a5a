// One call of a list.
ghost use Rattle.std.specs.Prelude.{◌≡◌};
ghost use Rattle.replay.specs.Moves.{StepDoes, Moves, outcome_of, group_of, all_images};

use disk::disks::Disk;
use frames::frame::{Frame, MOST_PAGES};
use journal::inner::Inner;
use journal::journal::Journal;
use refusal::Refusal;

/// A call on a journal, or the loss of all its memory.
#[derive(Clone, Copy, PartialEq, Eq, Debug)]
pub enum Step {
    Change { page: u32, image: [u8; 512] },
    Force,
    Shut,
    Recover,
    WriteData { sector: u32, bytes: [u8; 512] },
    Forget,
}

/// What a step came to: a force has the last group forced, a recovery the image of each page, with images of no page behind them.
#[derive(Clone, Copy, PartialEq, Eq, Debug)]
pub enum Outcome {
    Done,
    Group(u32),
    Images([[u8; 512]; MOST_PAGES]),
    Refused(Refusal),
}

/// Carries out one step.
pub fn carry_out<D: Disk>(journal: &mut Journal<D>, step: &Step, work: &mut [u8; 512]) -> Outcome
    ensures same { D.layers journal.new.disk ≡ D.layers journal.old.disk }
    ensures does { StepDoes step.now result journal.old.inner (D.state journal.old.disk) journal.new.inner (D.state journal.new.disk) }
    ensures moves { Moves step.now result journal.old.inner (D.state journal.old.disk) journal.new.inner (D.state journal.new.disk) }
{
    match step {
        Step::Change { page, image } => done(journal.change(*page, image, work)),
        Step::Force => forced(journal.force(work)),
        Step::Shut => done(journal.shut(work)),
        Step::Recover => match journal.recover(work) {
            Ok(()) => Outcome::Images(images_of(&journal.inner.frames)),
            Err(refusal) => Outcome::Refused(refusal),
        },
        Step::WriteData { sector, bytes } => done(journal.write_data(*sector, bytes, work)),
        Step::Forget => {
            journal.inner = Inner::down();
            Outcome::Done
        }
    }
}

// What a call came to that answers nothing.
fn done(answer: Result<(), Refusal>) -> Outcome
    ensures { result ≡ outcome_of answer }
{
    match answer {
        Ok(()) => Outcome::Done,
        Err(refusal) => Outcome::Refused(refusal),
    }
}

// What a force came to.
fn forced(answer: Result<u32, Refusal>) -> Outcome
    ensures { result ≡ group_of answer }
{
    match answer {
        Ok(group) => Outcome::Group(group),
        Err(refusal) => Outcome::Refused(refusal),
    }
}

// The image of every frame now.
fn images_of(frames: &[Frame; MOST_PAGES]) -> [[u8; 512]; MOST_PAGES]
    ensures { result ≡ all_images frames.now }
{
    let mut images = [[0; 512]; MOST_PAGES];
    for page in 0..MOST_PAGES {
        images[page] = frames[page].now;
    }
    images
}
