// Sectors that become unreadable while a volume is shut.
use crate::cuts::{fresh, same};
use crate::images::{Stood, Versions};
use crate::tally::Tally;
use crate::trials::{Came, Stopped};
use disk::disks::{Disk, Spoilable};
use image::Image;
use refusal::Refusal;
use std::alloc::Global;

impl Versions {
    /// Shuts a volume with the pending images, makes each sector below `end` and each two neighbours unreadable in turn, and counts what a recovery gives back.
    pub fn lose_sectors(&self, heap: Global, end: u32) -> Result<Tally, Stopped> {
        let mut bytes = fresh(heap)?;
        self.shut(Image::new(bytes.as_mut_slice()))?;
        let mut tally = Tally::default();
        for sector in 0..end {
            tally.add(self.lose(bytes.clone()?, &[sector])?);
            if sector > 0 {
                tally.add(self.lose(bytes.clone()?, &[sector - 1, sector])?);
            }
        }
        Ok(tally)
    }

    // Shuts a volume with the pending images.
    fn shut<D: Disk + Drop>(&self, disk: D) -> Result<(), Refusal> {
        let (mut journal, _) = self.begin(disk)?;
        let mut work = [0; 512];
        journal.shut(&mut work)
    }

    // Makes these sectors of a disk unreadable, and tells whether the pending images stand.
    fn lose(&self, mut bytes: Vec<u8>, sectors: &[u32]) -> Result<Came, Refusal> {
        let mut disk = Image::new(bytes.as_mut_slice());
        for sector in sectors {
            disk.spoil(*sector)?;
        }
        Ok(same(Stood::Pending, self.stood(disk)))
    }
}
