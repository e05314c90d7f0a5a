// A write at or above the data's start.
ghost use Rattle.std.specs.Prelude.{◌≡◌};
ghost use Rattle.journal.specs.Calls.{DataUp};
ghost use Rattle.journal.specs.declared.inner.State.TheVariants as state;

use crate::inner::{Inner, Standing, State};
use disk::disks::Disk;
use disk::faults::Fault;
use refusal::Refusal;

/// Writes to a sector of the data. Refused with 16 below the data's start; after 9 the journal is down.
pub fn write_data_up<D: Disk>(
    disk: &mut D,
    inner: &mut Inner,
    standing: &Standing,
    sector: u32,
    bytes: &[u8; 512],
) -> Result<(), Refusal>
    ensures rule { DataUp standing.now sector bytes.now inner.old (D.state disk.old) result inner.new (D.state disk.new) }
    ensures same { D.layers disk.new ≡ D.layers disk.old }
{
    if sector < standing.geometry.data_start() {
        return Err(Refusal::NoSuchSector);
    }
    match disk.write(sector, bytes) {
        Ok(()) => Ok(()),
        Err(fault) => {
            if let Fault::PowerOff(_) = fault {
                inner.state = State::Down;
            }
            Err(Refusal::from(fault))
        }
    }
}
