// A run of sectors, written in rising order.
ghost use Rattle.std.specs.Prelude.{◌≡◌, Bool, T, List};
ghost use Rattle.disk.specs.Sectors.{Sector};
ghost use Rattle.disk.specs.WriteLists.{WritesRun, Survives, run_of};

use crate::disks::Disk;
use crate::faults::Fault;

/// Writes `blocks` to the sectors from `first` on. A run that does not lie on the disk is refused with 16, whatever the power, and then nothing is written.
pub fn write_run<D: Disk>(disk: &mut D, first: u32, blocks: &[[u8; 512]]) -> Result<(), Fault>
    ensures rule { WritesRun first blocks.now (D.state disk.old) result (D.state disk.new) }
    ensures survives { (keeps : List Sector → Bool) → Survives keeps (run_of first blocks.now) → T (keeps (D.state disk.old).sectors) → T (keeps (D.state disk.new).sectors) }
    ensures same { D.layers disk.new ≡ D.layers disk.old }
{
    if first as usize + blocks.len() > (*disk).count() as usize {
        return Err(Fault::NoSuchSector);
    }
    for (i, block) in blocks.iter().enumerate() {
        disk.write(first + i as u32, block)?;
    }
    Ok(())
}
