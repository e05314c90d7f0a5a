// A list of calls over any disk.
ghost use Rattle.std.specs.Prelude.{◌≡◌, min, length, take, drop, replicate};
ghost use Rattle.replay.specs.Moves.{StepDoes};
ghost use Rattle.replay.specs.Replays.{Chain, Replays};

use crate::steps::{Outcome, Step, carry_out};
use disk::disks::Disk;
use journal::journal::Journal;
use working::guard::Working;

/// Carries out a list of steps in order, as many as there are places for what they come to, and answers how many.
// Into the caller's places: with a list made here the call would promise nothing where memory is short.
pub fn replay<D: Disk>(
    journal: &mut Journal<D>,
    steps: &[Step],
    outcomes: &mut [Outcome],
    work: &mut [u8; 512],
) -> usize
    ensures count { result ≡ min (length steps.now) (length outcomes.old) }
    ensures does { Chain StepDoes (take result steps.now) (take result outcomes.new) journal.old.inner (D.state journal.old.disk) journal.new.inner (D.state journal.new.disk) }
    ensures law { Replays (take result steps.now) (take result outcomes.new) journal.old.inner (D.state journal.old.disk) journal.new.inner (D.state journal.new.disk) }
    ensures rest { drop result outcomes.new ≡ drop result outcomes.old }
    ensures same { D.layers journal.new.disk ≡ D.layers journal.old.disk }
    ensures work { work.new ≡ replicate 512 0 }
{
    let work = Working(work);
    let count = steps.len().min(outcomes.len());
    for i in 0..count {
        outcomes[i] = carry_out(journal, &steps[i], work.0);
    }
    count
}
