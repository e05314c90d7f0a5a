// The bytes of a sector, read where it can be read.
ghost use Rattle.std.specs.Prelude.{◌≡◌};
ghost use Rattle.working.specs.Values.{ImageRead};

use disk::disks::Disk;
use disk::faults::Fault;

/// Fills `image` from a sector, if that can be read; otherwise `image` is unchanged. Whether it was. Refused with 9 alone.
pub fn read_image<D: Disk>(disk: &mut D, sector: u32, image: &mut [u8; 512]) -> Result<bool, Fault>
    ensures rule { ImageRead sector (D.state disk.old) image.old result (D.state disk.new) image.new }
    ensures same { D.layers disk.new ≡ D.layers disk.old }
{
    match disk.read(sector, image) {
        Ok(()) => Ok(true),
        Err(Fault::Unreadable(_) | Fault::NoSuchSector) => Ok(false),
        Err(fault) => Err(fault),
    }
}
