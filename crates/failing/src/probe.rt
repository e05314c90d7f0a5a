// Reads for the answer alone, which a disk that loses its power asks of the disk below.
ghost use Rattle.std.specs.Prelude.{◌≡◌};
ghost use Rattle.failing.specs.Probes.{Probes, Reaches};

use disk::disks::Disk;
use disk::faults::Fault;

/// Whether a sector can be read.
pub fn probe<D: Disk>(disk: &mut D, sector: u32) -> Result<(), Fault>
    ensures rule { Probes sector (D.state disk.old) result (D.state disk.new) }
    ensures same { D.layers disk.new ≡ D.layers disk.old }
{
    let mut buffer = [0u8; 512];
    disk.read(sector, &mut buffer)
}

/// Whether a sector can be written: the power is on and there is the sector. It may be unreadable.
pub fn reach<D: Disk>(disk: &mut D, sector: u32) -> Result<(), Fault>
    ensures rule { Reaches sector (D.state disk.old) result (D.state disk.new) }
    ensures same { D.layers disk.new ≡ D.layers disk.old }
{
    match probe(disk, sector) {
        Err(Fault::Unreadable(_)) => Ok(()),
        answer => answer,
    }
}
