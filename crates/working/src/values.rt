// What a sector carries, read and written.
ghost use Rattle.std.specs.Prelude.{◌≡◌};
ghost use Rattle.disk.specs.Rules.{Writes};
ghost use Rattle.working.specs.Values.{ValueRead};

use disk::disks::Disk;
use disk::faults::Fault;
use layout::carried::Carried;

/// The value in a sector; none if it cannot be read, is not right, or is not on the disk. Refused with 9 alone.
pub fn read_value<D: Disk, V: Carried>(
    disk: &mut D,
    sector: u32,
    known: V::Known,
    work: &mut [u8; 512],
) -> Result<Option<V>, Fault>
    ensures rule { ValueRead (V.decoded known) sector (D.state disk.old) result (D.state disk.new) }
    ensures same { D.layers disk.new ≡ D.layers disk.old }
{
    match disk.read(sector, work) {
        Ok(()) => Ok(V::decode(work, known)),
        Err(Fault::Unreadable(_) | Fault::NoSuchSector) => Ok(None),
        Err(fault) => Err(fault),
    }
}

/// Writes a value to a sector.
pub fn write_value<D: Disk, V: Carried>(
    disk: &mut D,
    sector: u32,
    value: &V,
    work: &mut [u8; 512],
) -> Result<(), Fault>
    ensures rule { Writes sector (V.encoded value.now) (D.state disk.old) result (D.state disk.new) }
    ensures same { D.layers disk.new ≡ D.layers disk.old }
{
    value.encode(work);
    disk.write(sector, work)
}
