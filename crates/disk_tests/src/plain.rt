// A disk that cannot be spoiled, over any disk.
ghost use Rattle.disk.specs.Sectors.{DiskState};

use disk::disks::Disk;
use disk::faults::Fault;

/// The disk below, with the calls of `Disk` alone.
#[derive(Drop)]
pub struct Plain<D> {
    pub below: D,
}

impl<D: Disk> Disk for Plain<D> {
    ghost state = { λ d. D.state d.below };

    ghost sound = { λ d. D.sound d.below };

    ghost layers = { λ d. D.layers d.below };

    fn count(&self) -> u32 {
        self.below.count()
    }

    fn start(&mut self) -> Result<(), Fault> {
        self.below.start()
    }

    fn read(&mut self, sector: u32, buffer: &mut [u8; 512]) -> Result<(), Fault> {
        self.below.read(sector, buffer)
    }

    fn write(&mut self, sector: u32, bytes: &[u8; 512]) -> Result<(), Fault> {
        self.below.write(sector, bytes)
    }
}
