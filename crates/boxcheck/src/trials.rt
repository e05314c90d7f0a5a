// One trial: a sheet is renewed on a fresh disk whose power fails, and read back.
ghost use Rattle.boxcheck.specs.Trials.{Tells, OldOrNew, Carried};

use disk::disks::Spoilable;
use failing::failing::Failing;
use failing::manner::Manner;
use image::Image;
use refusal::Refusal;
use sheet::survey::survey;
use sheet::twins::Copies;
use std::alloc::{AllocError, Global};
use thiserror::Error;
use window::Window;

const SECTORS: usize = 16;

const FIRST: u32 = 2;

const SECOND: u32 = 4;

/// Which sheet was read back.
#[derive(Clone, Copy, PartialEq, Eq, Debug)]
pub enum Came {
    Old,
    New,
    Other,
}

/// When and how the power fails in a trial: after so many writes, in the next one.
#[derive(Clone, Copy, PartialEq, Eq, Debug)]
pub struct Failure {
    pub calls: u32,
    pub manner: Manner,
}

/// What came of a trial: where and how the power failed, which of the sectors 1 to 5 are readable, and what was read back from where.
#[derive(Clone, Copy, PartialEq, Eq, Debug)]
pub struct Trial {
    pub cut: Option<u32>,
    pub manner: Manner,
    pub readable: [bool; 5],
    pub came: Came,
    pub source: u32,
}

/// Why a trial was not carried out.
#[derive(Clone, Copy, PartialEq, Eq, Debug, Error)]
pub enum Stopped {
    #[error(transparent)]
    NoMemory(#[from] AllocError),
    #[error("refused: {0}")]
    Refused(#[from] Refusal),
}

/// The sheet that a disk holds before a trial, and the one that is written in it.
#[derive(Clone, Copy, PartialEq, Eq, Debug)]
pub struct Sheets {
    pub old: [u8; 512],
    pub new: [u8; 512],
}

impl Sheets {
    // Which of the two was read back.
    fn which(&self, back: &[u8; 512]) -> Came
        ensures { Tells back.now self.now.old self.now.new result }
    {
        if *back == self.old {
            Came::Old
        } else if *back == self.new {
            Came::New
        } else {
            Came::Other
        }
    }

    // The trial on any disk that can be spoiled: the old sheet on both copies, then the new one on the failing disk.
    fn on_disk<D: Spoilable>(&self, part: &mut D, failure: Failure) -> Result<Trial, Refusal>
        ensures law { OldOrNew result }
        ensures tells { Carried self.now.old self.now.new failure.manner result }
    {
        let copies = Copies {
            first: FIRST,
            second: SECOND,
        };
        let mut back = [0u8; 512];
        if let Some(sector) = copies.renew(part, &self.old, &mut back)? {
            return Err(Refusal::PowerOff(sector));
        }
        let Failure { calls, manner } = failure;
        let mut disk = Failing::new(part, calls, manner);
        let cut = copies.renew(&mut disk, &self.new, &mut back)?;
        let came = self.which(&back);
        let source = copies.fetch(&mut disk, &mut back)?;
        let readable = survey(&mut disk, FIRST - 1)?;
        Ok(Trial {
            cut,
            manner,
            readable,
            came,
            source,
        })
    }

    /// One trial on a fresh image of zeros.
    pub fn carry_out(&self, heap: Global, failure: Failure) -> Result<Trial, Stopped>
        ensures law { OldOrNew result }
        ensures tells { Carried self.now.old self.now.new failure.manner result }
    {
        let mut bytes: Vec<u8> = vec![in heap; 0; SECTORS * 513]?;
        let mut part = Window::new(Image::new(bytes.as_mut_slice()), 3, 10);
        Ok(self.on_disk(&mut part, failure)?)
    }
}
