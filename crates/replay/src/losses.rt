// A list of calls over a disk that can be spoiled, with the sectors that are lost between them.
ghost use Rattle.std.specs.Prelude.{◌≡◌, min, length, take, drop, replicate};
ghost use Rattle.replay.specs.Replays.{Chain, Endures};
ghost use Rattle.replay.specs.Moves.{TurnDoes, Suffers};

use crate::steps::{Outcome, Step, carry_out};
use disk::disks::Spoilable;
use journal::journal::Journal;
use refusal::Refusal;
use working::guard::Working;

/// A step, or the loss of a sector.
#[derive(Clone, Copy, PartialEq, Eq, Debug)]
pub enum Turn {
    Step(Step),
    Spoil(u32),
}

/// Carries out a step, or makes a sector unreadable.
pub fn take_turn<D: Spoilable>(
    journal: &mut Journal<D>,
    turn: &Turn,
    work: &mut [u8; 512],
) -> Outcome
    ensures same { D.Disk.layers journal.new.disk ≡ D.Disk.layers journal.old.disk }
    ensures does { TurnDoes turn.now result journal.old.inner (D.Disk.state journal.old.disk) journal.new.inner (D.Disk.state journal.new.disk) }
    ensures moves { Suffers turn.now result journal.old.inner (D.Disk.state journal.old.disk) journal.new.inner (D.Disk.state journal.new.disk) }
{
    match turn {
        Turn::Step(step) => carry_out(journal, step, work),
        Turn::Spoil(sector) => match journal.disk.spoil(*sector) {
            Ok(()) => Outcome::Done,
            Err(fault) => Outcome::Refused(Refusal::from(fault)),
        },
    }
}

/// Carries out a list of steps and losses in order, as many as there are places for what they come to, and answers how many.
// Into the caller's places: with a list made here the call would promise nothing where memory is short.
pub fn replay_spoiled<D: Spoilable>(
    journal: &mut Journal<D>,
    turns: &[Turn],
    outcomes: &mut [Outcome],
    work: &mut [u8; 512],
) -> usize
    ensures count { result ≡ min (length turns.now) (length outcomes.old) }
    ensures does { Chain TurnDoes (take result turns.now) (take result outcomes.new) journal.old.inner (D.Disk.state journal.old.disk) journal.new.inner (D.Disk.state journal.new.disk) }
    ensures law { Endures (take result turns.now) (take result outcomes.new) journal.old.inner (D.Disk.state journal.old.disk) journal.new.inner (D.Disk.state journal.new.disk) }
    ensures rest { drop result outcomes.new ≡ drop result outcomes.old }
    ensures same { D.Disk.layers journal.new.disk ≡ D.Disk.layers journal.old.disk }
    ensures work { work.new ≡ replicate 512 0 }
{
    let work = Working(work);
    let count = turns.len().min(outcomes.len());
    for i in 0..count {
        outcomes[i] = take_turn(journal, &turns[i], work.0);
    }
    count
}
