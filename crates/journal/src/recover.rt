// A recovery.
ghost use Rattle.std.specs.Prelude.{◌≡◌, ◌+◌, ◌^◌, ◌<◌, ◌≤◌, length, Some, None};
ghost use Rattle.journal.specs.Calls.{RecoverDown, Fresh};
ghost use Rattle.journal.specs.declared.inner.State.TheVariants as state;

use crate::inner::{Inner, Standing, State};
use disk::disks::Disk;
use forcing::place::LogPlace;
use frames::table::empty_log;
use geometry::third::Third;
use recovering::volume::{read_volume, write_volume};
use refusal::Refusal;

/// Brings a down journal up from its disk alone, whatever its memory holds.
pub fn recover_down<D: Disk>(
    disk: &mut D,
    inner: &mut Inner,
    work: &mut [u8; 512],
) -> Result<(), Refusal>
    requires { inner.old.state ≡ state.Down }
    ensures rule { RecoverDown (D.state disk.old) result inner.new (D.state disk.new) }
    ensures same { D.layers disk.new ≡ D.layers disk.old }
{
    let seen = read_volume(disk, &mut inner.frames, work)?;
    let Some(next) = next_number(seen.missing) else {
        return Err(Refusal::NumbersUsedUp);
    };
    write_volume(disk, &seen, next, &inner.frames, work)?;
    empty_log(&mut inner.frames);
    inner.state = State::Up(Standing {
        geometry: seen.geometry,
        place: fresh(next),
    });
    Ok(())
}

// The number after the one that is missing in the log, if it has four bytes.
fn next_number(missing: u64) -> Option<u32>
    ensures { elim result [ Some next ↦ (next ≡ missing + 1) × (missing + 1 < 2 ^ 32) | None ↦ 2 ^ 32 ≤ missing + 1 ] }
{
    missing
        .checked_add(1)
        .and_then(|next| u32::try_from(next).ok())
}

// An empty log.
fn fresh(next: u32) -> LogPlace
    ensures fresh { Fresh next result }
    ensures long { length result.firsts ≡ 3 }
{
    LogPlace {
        anchored: Third::Zero,
        firsts: [next; 3],
        third: Third::Zero,
        place: 8,
        next,
        last: 0,
    }
}
