// A force, and a shut.
ghost use Rattle.std.specs.Prelude.{◌≡◌};
ghost use Rattle.journal.specs.Calls.{ForceAnswers, ShutAnswers};
ghost use Rattle.journal.specs.declared.inner.State.TheVariants as state;

use crate::inner::{Inner, MOST_NUMBER, Standing, State};
use disk::disks::Disk;
use forcing::force::force;
use frames::table::any_changed;
use refusal::Refusal;

/// Forces all pages that changed since the last force, as one group. The answer is the last group forced since the recovery, this one included, or 0. After 9 the journal is down.
pub fn force_up<D: Disk>(
    disk: &mut D,
    inner: &mut Inner,
    standing: &Standing,
    work: &mut [u8; 512],
) -> Result<u32, Refusal>
    requires { inner.old.state ≡ state.Up standing.now }
    ensures rule { ForceAnswers standing.now inner.old (D.state disk.old) result inner.new (D.state disk.new) }
    ensures same { D.layers disk.new ≡ D.layers disk.old }
{
    let frames = &mut inner.frames[..standing.geometry.pages as usize];
    let mut place = standing.place;
    if !any_changed(frames) {
        return Ok(place.last);
    }
    if place.next > MOST_NUMBER {
        return Err(Refusal::NumbersUsedUp);
    }
    match force(disk, &standing.geometry, &mut place, frames, work) {
        Ok(()) => {
            inner.state = State::Up(Standing {
                geometry: standing.geometry,
                place,
            });
            Ok(place.last)
        }
        Err(fault) => {
            inner.state = State::Down;
            Err(Refusal::from(fault))
        }
    }
}

/// A force, and then the journal is down.
pub fn shut_up<D: Disk>(
    disk: &mut D,
    inner: &mut Inner,
    standing: &Standing,
    work: &mut [u8; 512],
) -> Result<(), Refusal>
    requires { inner.old.state ≡ state.Up standing.now }
    ensures rule { ShutAnswers standing.now inner.old (D.state disk.old) result inner.new (D.state disk.new) }
    ensures same { D.layers disk.new ≡ D.layers disk.old }
{
    force_up(disk, inner, standing, work)?;
    inner.state = State::Down;
    Ok(())
}
