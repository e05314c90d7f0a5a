// A part of a disk, as a disk.
#![tactic(auto)]

ghost use Rattle.std.specs.Prelude.{◌≡◌};
ghost use Rattle.disk.specs.Rules.{Starts, Reads, Writes, Spoils};
ghost use Rattle.window.specs.Windows.{Placed};
ghost use Rattle.window.specs.WindowSound.{window-sound};
ghost use Rattle.window.specs.OfWindow.{below_of, first_of, length_of, window_state, window_layers, AskedRead, AskedWrite, AskedSpoil};

use disk::disks::{Disk, Spoilable};
use disk::faults::Fault;

/// The sectors of the disk below from `first` on, `length` of them at the most.
#[derive(Drop)]
pub struct Window<D> {
    below: D,
    first: u32,
    length: u32,
}

impl<D: Disk> Window<D> {
    /// The window over `below`. Any two numbers make one: what lies past the end of the disk below is not in it.
    pub fn new(below: D, first: u32, length: u32) -> Window<D>
        ensures below { below_of result ≡ below }
        ensures first { first_of result ≡ first }
        ensures length { length_of result ≡ length }
    {
        Window {
            below,
            first,
            length,
        }
    }

    /// The disk below, given back.
    // No trait for the three disks above another that give it back: each impl would hold the same two lines.
    pub fn into_below(self) -> D
        ensures { result ≡ below_of self }
    {
        let Window { below: disk, .. } = self;
        disk
    }

    // The sector to ask the disk below for. For a sector that is not in the window it is one that the disk below does not have, so that this answers 9 or 16 by itself.
    // Not one function that asks the disk below by a closure, and retells the answer. It was tried: it wants four clauses, which are longer than what the three calls repeat, and then the clauses `rule` and `below` of `read` are not proved without answers of their own. `self.place(sector)` as an argument of the call below was tried too, and the check does not cover it.
    fn place(&self, sector: u32) -> u32
        ensures { Placed self.now.first self.now.length sector (D.Disk.state self.now.below) result }
    {
        if sector < self.count() {
            self.first + sector
        } else {
            self.below.count()
        }
    }
}

impl<D: Disk> Disk for Window<D> {
    ghost state = { window_state D.Disk.state };

    ghost sound = { λ w. window-sound w.first w.length (D.Disk.state w.below) (D.Disk.sound w.below) };

    ghost layers = { window_layers D.Disk.layers };

    fn count(&self) -> u32 {
        self.below
            .count()
            .saturating_sub(self.first)
            .min(self.length)
    }

    fn start(&mut self) -> Result<(), Fault>
        ensures rule { Starts (window_state D.Disk.state self.old) result (window_state D.Disk.state self.new) }
        ensures same { window_layers D.Disk.layers self.new ≡ window_layers D.Disk.layers self.old }
        ensures below { Starts (D.Disk.state (below_of self.old)) result (D.Disk.state (below_of self.new)) }
    {
        self.below.start()
    }

    #[tactic(auto, using(crate::proofs::WindowCalls::calls))]
    fn read(&mut self, sector: u32, buffer: &mut [u8; 512]) -> Result<(), Fault>
        ensures rule { Reads sector (window_state D.Disk.state self.old) buffer.old result (window_state D.Disk.state self.new) buffer.new }
        ensures same { window_layers D.Disk.layers self.new ≡ window_layers D.Disk.layers self.old }
        ensures below { AskedRead D.Disk.state sector self.old buffer.old result self.new buffer.new }
    {
        let at = self.place(sector);
        self.below
            .read(at, buffer)
            .map_err(|fault| fault.at(sector))
    }

    #[tactic(auto, using(crate::proofs::WindowCalls::calls))]
    fn write(&mut self, sector: u32, bytes: &[u8; 512]) -> Result<(), Fault>
        ensures rule { Writes sector bytes.now (window_state D.Disk.state self.old) result (window_state D.Disk.state self.new) }
        ensures same { window_layers D.Disk.layers self.new ≡ window_layers D.Disk.layers self.old }
        ensures below { AskedWrite D.Disk.state sector bytes.now self.old result self.new }
    {
        let at = self.place(sector);
        self.below
            .write(at, bytes)
            .map_err(|fault| fault.at(sector))
    }
}

impl<D: Spoilable> Spoilable for Window<D> {
    #[tactic(auto, using(crate::proofs::WindowCalls::calls))]
    fn spoil(&mut self, sector: u32) -> Result<(), Fault>
        ensures rule { Spoils sector (window_state D.Disk.state self.old) result (window_state D.Disk.state self.new) }
        ensures same { window_layers D.Disk.layers self.new ≡ window_layers D.Disk.layers self.old }
        ensures below { AskedSpoil D.Disk.state sector self.old result self.new }
    {
        let at = self.place(sector);
        self.below.spoil(at).map_err(|fault| fault.at(sector))
    }
}
