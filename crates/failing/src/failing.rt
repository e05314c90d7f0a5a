// The failing disk, over any disk that can be spoiled.
ghost use Rattle.std.specs.Prelude.{◌≡◌, ◌<◌, true, false, Some};
ghost use Rattle.disk.specs.Sectors.{count};
ghost use Rattle.disk.specs.Rules.{Starts, Reads, Writes, Spoils, Cut};
ghost use Rattle.failing.specs.Manners.{leaves};
ghost use Rattle.failing.specs.Phases.{off_in};
ghost use Rattle.failing.specs.FailingSound.{failing-sound};
ghost use Rattle.failing.specs.OfFailing.{below_of, left_of, manner_of, off_of, failing_state, failing_layers, Waits, StartWaits, StartDue, ReadDue, WriteDue, Rests, Refuses, StartRefuses, Spoiled};

use crate::manner::Manner;
use crate::phase::Phase;
use crate::probe::{probe, reach};
use disk::disks::{Disk, Spoilable};
use disk::faults::Fault;

/// A disk that carries out a number of calls, and loses its power in the next one that it could carry out. Then it works on as the disk below does.
// Not one generic disk with `Marking`, which would be no plainer: by `WriteDue` the disk below holds what `leaves` says, by `Refuses` a power failure below in the chosen write may count, and by `Waits` every call with the power on again is the disk below's own, whose power it never asks for. A trait for the losses would have 7 ghost values, 5 functions and 9 laws, each given twice, and is longer than what the two repeat: `new`, `into_below`, and how the chosen call comes.
#[derive(Drop)]
pub struct Failing<D> {
    below: D,
    manner: Manner,
    phase: Phase<()>,
}

impl<D: Spoilable> Failing<D> {
    /// The disk that loses its power after `calls` calls of start, read and write that were done, in a write by `manner`.
    // The two come apart, here and at `Marking`: nearly all who make such a disk write both down where they do, and a struct of them would be one name more between.
    pub fn new(below: D, calls: u32, manner: Manner) -> Failing<D>
        ensures below { below_of result ≡ below }
        ensures left { left_of result ≡ Some calls }
        ensures manner { manner_of result ≡ manner }
        ensures off { off_of result ≡ false }
    {
        Failing {
            below,
            manner,
            phase: Phase::Before(calls),
        }
    }

    /// The disk below, given back.
    pub fn into_below(self) -> D
        ensures { result ≡ below_of self }
    {
        let Failing { below, .. } = self;
        below
    }

    // What a write leaves of a sector that exists on the disk below, whose power is on.
    fn leave(&mut self, sector: u32, bytes: &[u8; 512])
        requires on { (D.Disk.state self.old.below).power ≡ true }
        requires exists { sector < count (D.Disk.state self.old.below) }
        ensures cut { Cut sector bytes.now (D.Disk.state self.old.below).sectors (D.Disk.state self.new.below).sectors }
        ensures chosen { (D.Disk.state self.new.below).power ≡ true → (D.Disk.state self.new.below).sectors ≡ leaves self.old.manner sector bytes.now (D.Disk.state self.old.below).sectors }
        ensures layers { D.Disk.layers self.new.below ≡ D.Disk.layers self.old.below }
        ensures manner { self.new.manner ≡ self.old.manner }
    {
        // What the disk below answers is dropped: by `cut` any answer will do, and this disk's own is 9 whatever it was.
        match self.manner {
            Manner::AsBefore => {}
            Manner::NewBytes => {
                let _ = self.below.write(sector, bytes);
            }
            Manner::Own | Manner::OwnAndBelow | Manner::OwnAndAbove => {
                let _ = self.below.spoil(sector);
                if let Some(neighbour) = self.manner.neighbour(sector) {
                    let _ = self.below.spoil(neighbour);
                }
            }
        }
    }
}

impl<D: Spoilable> Disk for Failing<D> {
    ghost state = { failing_state D.Disk.state };

    ghost sound = { λ f. failing-sound (off_in f.phase) (D.Disk.state f.below) (D.Disk.sound f.below) };

    ghost layers = { failing_layers D.Disk.layers };

    fn count(&self) -> u32 {
        self.below.count()
    }

    fn start(&mut self) -> Result<(), Fault>
        ensures rule { Starts (failing_state D.Disk.state self.old) result (failing_state D.Disk.state self.new) }
        ensures same { failing_layers D.Disk.layers self.new ≡ failing_layers D.Disk.layers self.old }
        ensures waits { StartWaits D.Disk.state self.old result self.new }
        ensures due { StartDue D.Disk.state self.old result self.new }
        ensures refuses { StartRefuses D.Disk.state self.old self.new }
    {
        match self.phase {
            Phase::Before(0) => {
                self.below.start()?;
                self.phase.fail(0, ())
            }
            _ => self.phase.passed(self.below.start()),
        }
    }

    fn read(&mut self, sector: u32, buffer: &mut [u8; 512]) -> Result<(), Fault>
        ensures rule { Reads sector (failing_state D.Disk.state self.old) buffer.old result (failing_state D.Disk.state self.new) buffer.new }
        ensures same { failing_layers D.Disk.layers self.new ≡ failing_layers D.Disk.layers self.old }
        ensures waits { Waits self.old result self.new (Reads sector (D.Disk.state (below_of self.old)) buffer.old result (D.Disk.state (below_of self.new)) buffer.new) }
        ensures due { ReadDue D.Disk.state sector self.old result self.new }
        ensures rests { Rests self.old self.new }
        ensures refuses { Refuses self.old result self.new }
    {
        match self.phase {
            Phase::Before(0) => {
                probe(&mut self.below, sector)?;
                self.phase.fail(sector, ())
            }
            Phase::Off(()) => Err(Fault::PowerOff(sector)),
            Phase::Before(_) | Phase::On(()) => self.phase.passed(self.below.read(sector, buffer)),
        }
    }

    fn write(&mut self, sector: u32, bytes: &[u8; 512]) -> Result<(), Fault>
        ensures rule { Writes sector bytes.now (failing_state D.Disk.state self.old) result (failing_state D.Disk.state self.new) }
        ensures same { failing_layers D.Disk.layers self.new ≡ failing_layers D.Disk.layers self.old }
        ensures waits { Waits self.old result self.new (Writes sector bytes.now (D.Disk.state (below_of self.old)) result (D.Disk.state (below_of self.new))) }
        ensures due { WriteDue D.Disk.state sector bytes.now self.old result self.new }
        ensures rests { Rests self.old self.new }
        ensures refuses { Refuses self.old result self.new }
    {
        match self.phase {
            Phase::Before(0) => {
                reach(&mut self.below, sector)?;
                self.leave(sector, bytes);
                self.phase.fail(sector, ())
            }
            Phase::Off(()) => Err(Fault::PowerOff(sector)),
            Phase::Before(_) | Phase::On(()) => self.phase.passed(self.below.write(sector, bytes)),
        }
    }
}

impl<D: Spoilable> Spoilable for Failing<D> {
    fn spoil(&mut self, sector: u32) -> Result<(), Fault>
        ensures rule { Spoils sector (failing_state D.Disk.state self.old) result (failing_state D.Disk.state self.new) }
        ensures same { failing_layers D.Disk.layers self.new ≡ failing_layers D.Disk.layers self.old }
        ensures below { Spoiled D.Disk.state sector self.old result self.new }
    {
        self.below.spoil(sector)
    }
}
