// A disk that is lent is a disk.
ghost use Rattle.disk.specs.Sectors.{DiskState};

use crate::disks::{Disk, Spoilable};
use crate::faults::Fault;

impl<D: Disk> Disk for &mut D {
    ghost state = { λ d. D.Disk.state d.now };

    ghost sound = { λ d. D.Disk.sound d.now };

    ghost layers = { λ d. D.Disk.layers d.now };

    fn count(&self) -> u32 {
        (**self).count()
    }

    fn start(&mut self) -> Result<(), Fault> {
        (**self).start()
    }

    fn read(&mut self, sector: u32, buffer: &mut [u8; 512]) -> Result<(), Fault> {
        (**self).read(sector, buffer)
    }

    fn write(&mut self, sector: u32, bytes: &[u8; 512]) -> Result<(), Fault> {
        (**self).write(sector, bytes)
    }
}

impl<D: Spoilable> Spoilable for &mut D {
    fn spoil(&mut self, sector: u32) -> Result<(), Fault> {
        (**self).spoil(sector)
    }
}
