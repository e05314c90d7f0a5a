// The two traits of disks. `docs/CALLS.md` says what each call does.
ghost use Rattle.std.specs.Prelude.{◌≡◌, ℕ};
ghost use Rattle.disk.specs.Sectors.{DiskState, Sound, count};
ghost use Rattle.disk.specs.Layers.{Layers};
ghost use Rattle.disk.specs.Rules.{Starts, Reads, Writes, Spoils};

use crate::faults::Fault;

/// A disk whose power may fail in any call but `count`.
pub trait Disk {
    /// What the disk means: its power mark and its sectors.
    ghost state: { Self → DiskState };

    /// Every state of it is sound: few enough sectors, and 512 bytes in each that can be read.
    ghost sound: { (disk : Self) → Sound (state disk) };

    /// What no call changes: of what the disk is made, layer by layer.
    ghost layers: { Self → Layers };

    /// The number of sectors.
    fn count(&self) -> u32
        ensures { result ≡ count (state self.now) };

    /// Puts the power on.
    fn start(&mut self) -> Result<(), Fault>
        ensures rule { Starts (state self.old) result (state self.new) }
        ensures same { layers self.new ≡ layers self.old };

    /// Fills `buffer` from a sector.
    fn read(&mut self, sector: u32, buffer: &mut [u8; 512]) -> Result<(), Fault>
        ensures rule { Reads sector (state self.old) buffer.old result (state self.new) buffer.new }
        ensures same { layers self.new ≡ layers self.old };

    /// Writes `bytes` to a sector.
    fn write(&mut self, sector: u32, bytes: &[u8; 512]) -> Result<(), Fault>
        ensures rule { Writes sector bytes.now (state self.old) result (state self.new) }
        ensures same { layers self.new ≡ layers self.old };
}

/// A disk whose sectors can be made unreadable.
pub trait Spoilable: Disk {
    /// Makes a sector unreadable, power on or off.
    fn spoil(&mut self, sector: u32) -> Result<(), Fault>
        ensures rule { Spoils sector (Self.Disk.state self.old) result (Self.Disk.state self.new) }
        ensures same { Self.Disk.layers self.new ≡ Self.Disk.layers self.old };
}
