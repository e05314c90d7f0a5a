// A list of calls on a journal that was just formatted.
ghost use Rattle.std.specs.Prelude.{◌≡◌, replicate};
ghost use Rattle.replay.specs.Replays.{FromFormat};

use crate::replay::replay;
use crate::steps::{Outcome, Step};
use disk::disks::Disk;
use journal::journal::Journal;
use refusal::Refusal;

/// Formats a journal's disk and carries out a list of steps on it, and answers how many. Refused as the format is, and then no step is carried out.
pub fn replay_from_format<D: Disk>(
    journal: &mut Journal<D>,
    third: u32,
    images: &[[u8; 512]],
    steps: &[Step],
    outcomes: &mut [Outcome],
    work: &mut [u8; 512],
) -> Result<usize, Refusal>
    ensures law { FromFormat third images.now steps.now outcomes.new journal.old.inner (D.state journal.old.disk) result journal.new.inner (D.state journal.new.disk) }
    ensures work { work.new ≡ replicate 512 0 }
{
    journal.format(third, images, work)?;
    Ok(replay(journal, steps, outcomes, work))
}
