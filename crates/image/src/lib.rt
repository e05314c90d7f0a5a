// A disk in bytes that the caller lends. `docs/FORMAT.md` has the bytes of an image.
#![tactic(auto)]

ghost use Rattle.std.specs.Prelude.{◌≡◌, ℕ, ◌+◌, ◌≤◌, true, false, length, take, drop};
ghost use Rattle.disk.specs.Sectors.{DiskState, Bytes, count};
ghost use Rattle.disk.specs.Layers.{Layers};
ghost use Rattle.disk.specs.Rules.{Starts, Reads, Writes, Spoils};
ghost use Rattle.image.specs.Images.{image_state, image_layers, SectorStored, SectorWritten, SectorSpoiled};
ghost use Rattle.image.specs.ImageSound.{image-sound};
ghost use Rattle.image.specs.OfImage.{state_of, layers_of, bytes_of, Placed, Reached};

use disk::disks::{Disk, Spoilable};
use disk::faults::Fault;

/// A disk of 513 bytes a sector, and its power mark.
#[derive(Drop)]
pub struct Image<'a> {
    bytes: &'a mut [u8],
    power: bool,
}

// Copies the bytes of a sector into `buffer`. Each is below 256, which the check knows of a slice that is passed, and not of the bytes of an image.
fn fill(buffer: &mut [u8; 512], bytes: &[u8])
    requires { length bytes.now ≡ 512 }
    ensures same { buffer.new ≡ bytes.now }
    ensures whole { Bytes buffer.new }
{
    buffer.copy_from_slice(bytes);
}

impl<'a> Image<'a> {
    /// The disk in `bytes`, with power on. It has a sector for each whole 513 bytes, and 65,536 at the most.
    pub fn new(bytes: &'a mut [u8]) -> Image<'a>
        ensures state { state_of result ≡ image_state bytes.old true }
        ensures bytes { bytes_of result ≡ bytes.old }
        ensures layers { layers_of result ≡ image_layers bytes.entry.ghost_name bytes.old }
    {
        Image { bytes, power: true }
    }

    /// Turns the power off, as the main switch does between two calls.
    pub fn switch_off(&mut self)
        ensures state { state_of self.new ≡ image_state (bytes_of self.old) false }
        ensures bytes { bytes_of self.new ≡ bytes_of self.old }
        ensures same { layers_of self.new ≡ layers_of self.old }
    {
        self.power = false;
    }

    // The 512 bytes from `at` on.
    fn block(&self, at: usize) -> &[u8]
        requires { at + 512 ≤ length self.now.bytes.now }
        ensures is { result.now ≡ take 512 (drop at self.now.bytes.now) }
        ensures long { length result.now ≡ 512 }
    {
        &self.bytes[at..at + 512]
    }

    // The byte where a sector begins, which is its mark.
    #[tactic(auto, using(crate::proofs::Counted::counted))]
    fn place(&self, sector: u32) -> Result<usize, Fault>
        ensures { Placed self.now sector result }
    {
        if sector >= self.count() {
            return Err(Fault::NoSuchSector);
        }
        Ok(sector as usize * 513)
    }

    // The same where the power must be on, as for a read and a write.
    fn reach(&self, sector: u32) -> Result<usize, Fault>
        ensures { Reached self.now sector result }
    {
        if !self.power {
            return Err(Fault::PowerOff(sector));
        }
        self.place(sector)
    }
}

impl Disk for Image<'_> {
    ghost state = { state_of };

    ghost sound = { λ image. image-sound image.bytes.now image.power };

    ghost layers = { layers_of };

    #[tactic(auto, using(crate::proofs::Counted::counted))]
    fn count(&self) -> u32 {
        (self.bytes.len() / 513).min(65536) as u32
    }

    fn start(&mut self) -> Result<(), Fault>
        ensures rule { Starts (state_of self.old) result (state_of self.new) }
        ensures same { layers_of self.new ≡ layers_of self.old }
        ensures bytes { bytes_of self.new ≡ bytes_of self.old }
    {
        self.power = true;
        Ok(())
    }

    fn read(&mut self, sector: u32, buffer: &mut [u8; 512]) -> Result<(), Fault>
        ensures rule { Reads sector (state_of self.old) buffer.old result (state_of self.new) buffer.new }
        ensures same { layers_of self.new ≡ layers_of self.old }
        ensures bytes { SectorStored sector (bytes_of self.old) buffer.new result (bytes_of self.new) }
    {
        let at = self.reach(sector)?;
        if self.bytes[at] != 0 {
            return Err(Fault::Unreadable(sector));
        }
        fill(buffer, self.block(at + 1));
        Ok(())
    }

    fn write(&mut self, sector: u32, bytes: &[u8; 512]) -> Result<(), Fault>
        ensures rule { Writes sector bytes.now (state_of self.old) result (state_of self.new) }
        ensures same { layers_of self.new ≡ layers_of self.old }
        ensures bytes { SectorWritten sector bytes.now (bytes_of self.old) result (bytes_of self.new) }
    {
        let at = self.reach(sector)?;
        self.bytes[at] = 0;
        self.bytes[at + 1..at + 513].copy_from_slice(bytes);
        Ok(())
    }
}

impl Spoilable for Image<'_> {
    fn spoil(&mut self, sector: u32) -> Result<(), Fault>
        ensures rule { Spoils sector (state_of self.old) result (state_of self.new) }
        ensures same { layers_of self.new ≡ layers_of self.old }
        ensures bytes { SectorSpoiled sector (bytes_of self.old) result (bytes_of self.new) }
    {
        let at = self.place(sector)?;
        self.bytes[at] = 1;
        Ok(())
    }
}
