// Which sectors of a disk can be read.
ghost use Rattle.std.specs.Prelude.{◌≡◌};
ghost use Rattle.sheet.specs.Surveys.{Looks, Surveys};

use disk::disks::Disk;
use disk::faults::Fault;

/// Whether a sector can be read. Refused with 9 or 16, as a read is.
// Not by `probe` of `failing`: a sheet is used without a disk that fails, and `probe` answers a `Result`, whose match would have the same three arms.
pub fn can_read<D: Disk>(disk: &mut D, sector: u32) -> Result<bool, Fault>
    ensures rule { Looks sector (D.state disk.old) result (D.state disk.new) }
    ensures same { D.layers disk.new ≡ D.layers disk.old }
{
    match disk.read(sector, &mut [0; 512]) {
        Ok(()) => Ok(true),
        Err(Fault::Unreadable(_)) => Ok(false),
        Err(fault) => Err(fault),
    }
}

/// Whether each of the five sectors from `first` on can be read: two copies two apart, and their neighbours. Refused with 9 or 16 as soon as a read is.
pub fn survey<D: Disk>(disk: &mut D, first: u32) -> Result<[bool; 5], Fault>
    ensures rule { Surveys first (D.state disk.old) result (D.state disk.new) }
    ensures same { D.layers disk.new ≡ D.layers disk.old }
{
    let mut readable = [false; 5];
    for (i, mark) in readable.iter_mut().enumerate() {
        *mark = can_read(disk, first + i as u32)?;
    }
    Ok(readable)
}
