// The power lost in a force, and in the recovery after it.
ghost use Rattle.boxcheck.specs.Stands.{Due};

use crate::images::{Stood, Versions};
use crate::listing::SECTORS;
use crate::tally::Tally;
use crate::trials::{Came, Failure, Stopped};
use disk::disks::Spoilable;
use failing::failing::Failing;
use failing::manner::Manner;
use image::Image;
use journal::journal::Journal;
use refusal::Refusal;
use std::alloc::{AllocError, Global};

/// A force that was cut: the sector whose write was cut, the disk's bytes as the cut left them, and what a recovery of it gave back.
#[derive(Drop)]
pub struct Cut {
    pub sector: u32,
    pub left: Vec<u8>,
    pub stood: Stood,
}

/// The bytes of a fresh disk.
pub fn fresh(heap: Global) -> Result<Vec<u8>, AllocError> {
    vec![in heap; 0; SECTORS as usize * 513]
}

// Where the power failed: before a force, in its write to a sector, or not at all.
#[derive(Clone, Copy, PartialEq, Eq, Debug)]
enum Failed {
    Before,
    In(u32),
    Never,
}

impl Versions {
    /// Cuts a force of the pending images in each of its writes, in one manner.
    pub fn cut_forces(&self, heap: Global, manner: Manner) -> Result<Vec<Cut>, Stopped> {
        let mut cuts = Vec::new(heap);
        for calls in 0..u32::MAX {
            let mut left = fresh(heap)?;
            let disk = Image::new(left.as_mut_slice());
            let sector = match self.cut_force(disk, Failure { calls, manner })? {
                Failed::Before => continue,
                Failed::In(sector) => sector,
                Failed::Never => break,
            };
            let stood = self.stood(Image::new(left.clone()?.as_mut_slice()));
            cuts.push(Cut {
                sector,
                left,
                stood,
            })
            .map_err(AllocError::from)?;
        }
        Ok(cuts)
    }

    // Forces the pending images on a disk that fails.
    fn cut_force<D: Spoilable + Drop>(&self, disk: D, failure: Failure) -> Result<Failed, Refusal> {
        let Failure { calls, manner } = failure;
        let mut journal = match self.begin(Failing::new(disk, calls, manner)) {
            Ok((journal, _)) => journal,
            Err(Refusal::PowerOff(_)) => return Ok(Failed::Before),
            Err(refusal) => return Err(refusal),
        };
        let mut work = [0; 512];
        let cut = cut_of(journal.force(&mut work))?;
        Ok(cut.map_or(Failed::Never, Failed::In))
    }

    /// Cuts the recovery of what a cut left in each of its calls, in every manner, recovers again, and counts what stands then.
    pub fn cut_recoveries(
        &self,
        heap: Global,
        cut: &Cut,
        tally: &mut Tally,
    ) -> Result<(), Stopped> {
        for manner in Manner::ALL {
            for calls in 0..u32::MAX {
                let mut bytes = cut.left.clone()?;
                let disk = Image::new(bytes.as_mut_slice());
                let Some(stood) = self.recover_twice(disk, Failure { calls, manner })? else {
                    break;
                };
                tally.add(same(cut.stood, stood));
            }
        }
        Ok(())
    }

    // Cuts a recovery, and tells which images stand after another one; none if the first has no such call.
    fn recover_twice<D: Spoilable + Drop>(
        &self,
        disk: D,
        failure: Failure,
    ) -> Result<Option<Stood>, Refusal> {
        let Failure { calls, manner } = failure;
        let mut disk = Failing::new(disk, calls, manner);
        let mut work = [0; 512];
        let cut = cut_of(Journal::new(&mut disk).recover(&mut work))?;
        Ok(cut.map(|_| self.stood(disk)))
    }
}

/// What came back, if it is what is to stand, and something else if not.
pub fn same(due: Stood, stood: Stood) -> Came
    ensures { Due due stood result }
{
    if stood == due {
        due.into()
    } else {
        Came::Other
    }
}

// The sector in whose call the power failed, or none if it did not.
fn cut_of<T: Drop>(answer: Result<T, Refusal>) -> Result<Option<u32>, Refusal> {
    match answer {
        Ok(_) => Ok(None),
        Err(Refusal::PowerOff(sector)) => Ok(Some(sector)),
        Err(refusal) => Err(refusal),
    }
}
