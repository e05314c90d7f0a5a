// Two copies of a sheet, written one after the other.
ghost use Rattle.std.specs.Prelude.{◌≡◌, ◌+◌, ◌<◌, Err};
ghost use Rattle.refusal.specs.declared.Refusal.TheVariants.{BadNumbers};
ghost use Rattle.sheet.specs.Twins.{WritesBoth, Rewrites, Fetches, Renews, Leaves};

use disk::disks::Disk;
use disk::faults::Fault;
use refusal::Refusal;

/// The sectors of a sheet's two copies.
// That the two lie apart is no fact of this type: `fetch` reads any two, and `renew` promises 15 for those that do not.
#[derive(Clone, Copy, PartialEq, Eq, Debug)]
pub struct Copies {
    pub first: u32,
    pub second: u32,
}

impl Copies {
    // Writes the first copy and then the second.
    #[tactic(auto, using(crate::proofs::TwinWrites::writes))]
    fn write<D: Disk>(self, disk: &mut D, sheet: &[u8; 512]) -> Result<(), Fault>
        ensures rule { WritesBoth self.first self.second sheet.now (D.state disk.old) result (D.state disk.new) }
        ensures same { D.layers disk.new ≡ D.layers disk.old }
    {
        disk.write(self.first, sheet)?;
        disk.write(self.second, sheet)
    }

    // Writes both copies, and starts the disk again where the power was off or failed in the write of one, whose sector it answers.
    #[tactic(auto, using(crate::proofs::TwinWrites::restarts))]
    fn rewrite<D: Disk>(self, disk: &mut D, sheet: &[u8; 512]) -> Result<Option<u32>, Fault>
        ensures rule { Rewrites self.first self.second sheet.now (D.state disk.old) result (D.state disk.new) }
        ensures same { D.layers disk.new ≡ D.layers disk.old }
    {
        match self.write(disk, sheet) {
            Ok(()) => Ok(None),
            Err(Fault::PowerOff(sector)) => {
                (*disk).start()?;
                Ok(Some(sector))
            }
            Err(fault) => Err(fault),
        }
    }

    /// Reads the first copy, or the second where the first is unreadable, and answers which sector it was.
    pub fn fetch<D: Disk>(self, disk: &mut D, back: &mut [u8; 512]) -> Result<u32, Fault>
        ensures rule { Fetches self.first self.second (D.state disk.old) back.old result (D.state disk.new) back.new }
        ensures same { D.layers disk.new ≡ D.layers disk.old }
    {
        match disk.read(self.first, back) {
            Ok(()) => Ok(self.first),
            Err(Fault::Unreadable(_)) => {
                disk.read(self.second, back)?;
                Ok(self.second)
            }
            Err(fault) => Err(fault),
        }
    }

    /// Writes a new sheet to both copies, which have to lie two sectors apart, so that no cut damages both, the first one lower: else 15, and nothing is written. If the power is off or fails in the write of a copy, starts the disk again, and answers that copy's sector. Then reads back what stands.
    pub fn renew<D: Disk>(
        self,
        disk: &mut D,
        sheet: &[u8; 512],
        back: &mut [u8; 512],
    ) -> Result<Option<u32>, Refusal>
        ensures law { Renews self.first self.second sheet.now (D.state disk.old) result (D.state disk.new) back.new }
        ensures rule { Leaves self.first self.second sheet.now (D.state disk.old) back.old result (D.state disk.new) back.new }
        ensures near { self.second < self.first + 2 → (result ≡ Err BadNumbers) × (disk.new ≡ disk.old) × (back.new ≡ back.old) }
        ensures same { D.layers disk.new ≡ D.layers disk.old }
    {
        if self.second.saturating_sub(self.first) < 2 {
            return Err(Refusal::BadNumbers);
        }
        let cut = self.rewrite(disk, sheet)?;
        self.fetch(disk, back)?;
        Ok(cut)
    }
}
