// A disk over any disk that loses its power at a chosen call, and marks the sectors that are lost.
ghost use Rattle.std.specs.Prelude.{◌≡◌, true};
ghost use Rattle.marking.specs.Phases.{is_on};

use crate::lost::Lost;
use disk::disks::{Disk, Spoilable};
use disk::faults::Fault;
use failing::manner::Manner;
use failing::phase::Phase;
use failing::probe::{probe, reach};

/// A disk that carries out a number of calls, and loses its power in the next one that it could carry out. Then it works on as the disk below does, but for the sectors that the cut made unreadable: they stay so until they are written. `Failing` makes the lost sectors unreadable on the disk below, which must be one that can be spoiled; `Marking` is over any disk and keeps marks of its own, which are gone when it is taken away.
// Not one generic disk with `Failing`, though `new` and `into_below` are the same in both, since it would be no plainer: `WriteDue` tells what the disk below stores and which sectors are marked, `Refuses` does not count a power failure below in the chosen write, `ReadAgain` refuses lost sectors and so must know (`known`) that the power below is on, and a failure below is the phase `Off`, where `Waits` of `Failing` promises that it is not.
#[derive(Drop)]
pub struct Marking<D: Disk> {
    below: D,
    manner: Manner,
    phase: Phase<Lost>,
    ghost known: { is_on phase ≡ true → (D.state below).power ≡ true },
}

impl<D: Disk> Marking<D> {
    ghost use Rattle.std.specs.Prelude.{◌⊎◌, ◌↔◌, IsTrue};
    ghost use Rattle.disk.specs.Rules.{Starts};
    ghost use Rattle.failing.specs.declared.phase.Phase.TheVariants.{Before, Off, On};
    ghost use Rattle.marking.specs.Phases.{seen};
    ghost use Rattle.marking.specs.Chosen.{Stores};
    ghost use Rattle.marking.specs.Marks.{IsLost};
    ghost use Rattle.marking.specs.OfMarking.{below_of, manner_of, phase_of, marking_state, marking_layers, Refuses, StartAgain};

    /// The disk that loses its power after `calls` calls of start, read and write that were done, in a write by `manner`.
    pub fn new(below: D, calls: u32, manner: Manner) -> Marking<D>
        ensures below { below_of result ≡ below }
        ensures manner { manner_of result ≡ manner }
        ensures phase { phase_of result ≡ Before calls }
    {
        Marking {
            below,
            manner,
            phase: Phase::Before(calls),
        }
    }

    /// The disk below, given back, without the marks: a sector that only this disk held to be unreadable can be read there.
    pub fn into_below(self) -> D
        ensures below { result ≡ below_of self }
        ensures state { marking_state self ≡ seen (phase_of self) (D.state result) }
    {
        let Marking { below, .. } = self;
        below
    }

    // What the chosen write does on the disk below.
    fn store(&mut self, sector: u32, bytes: &[u8; 512]) -> Result<(), Fault>
        requires { self.old.phase ≡ Before 0 }
        ensures rule { Stores self.old.manner sector bytes.now (D.state self.old.below) result (D.state self.new.below) }
        ensures same { D.layers self.new.below ≡ D.layers self.old.below }
        ensures manner { self.new.manner ≡ self.old.manner }
        ensures phase { self.new.phase ≡ self.old.phase }
    {
        if self.manner == Manner::NewBytes {
            self.below.write(sector, bytes)
        } else {
            reach(&mut self.below, sector)
        }
    }

    // Whether a sector is lost that the disk below has.
    fn is_gone(&self, lost: Lost, sector: u32) -> bool
        ensures { IsTrue result ↔ IsLost sector lost (D.state self.now.below) }
    {
        lost.has(sector) && sector < self.below.count()
    }

    // A start after the failure.
    // A read and a write with the power on again end in the same way, each with marks of its own: a function for the three would take the marks and the answer, and be as long as the two lines that it saves.
    fn start_again(&mut self, lost: Lost) -> Result<(), Fault>
        requires { (self.old.phase ≡ Off lost) ⊎ (self.old.phase ≡ On lost) }
        ensures rule { Starts (marking_state self.old) result (marking_state self.new) }
        ensures same { marking_layers self.new ≡ marking_layers self.old }
        ensures refuses { Refuses self.old result self.new }
        ensures again { StartAgain self.old result self.new }
    {
        let answer = self.below.start();
        self.phase = lost.again(answer);
        answer
    }
}

impl<D: Disk> Disk for Marking<D> {
    ghost use Rattle.disk.specs.Rules.{Starts, Reads, Writes};
    ghost use Rattle.marking.specs.MarkingSound.{marking-sound};
    ghost use Rattle.marking.specs.OfMarking.{below_of, marking_state, marking_layers, Waits, StartDue, ReadDue, WriteDue, Refuses, Rests, StartAgain, ReadAgain, WriteAgain};

    ghost state = { marking_state };

    ghost sound = { λ f. marking-sound f.phase (D.state f.below) (D.sound f.below) };

    ghost layers = { marking_layers };

    fn count(&self) -> u32 {
        self.below.count()
    }

    fn start(&mut self) -> Result<(), Fault>
        ensures rule { Starts (marking_state self.old) result (marking_state self.new) }
        ensures same { marking_layers self.new ≡ marking_layers self.old }
        ensures waits { Waits self.old result self.new (Starts (D.state (below_of self.old)) result (D.state (below_of self.new))) }
        ensures due { StartDue self.old result self.new }
        ensures refuses { Refuses self.old result self.new }
        ensures again { StartAgain self.old result self.new }
    {
        match self.phase {
            Phase::Before(0) => {
                self.below.start()?;
                self.phase.fail(0, Lost::NONE)
            }
            Phase::Before(_) => self.phase.passed(self.below.start()),
            Phase::Off(lost) | Phase::On(lost) => self.start_again(lost),
        }
    }

    fn read(&mut self, sector: u32, buffer: &mut [u8; 512]) -> Result<(), Fault>
        ensures rule { Reads sector (marking_state self.old) buffer.old result (marking_state self.new) buffer.new }
        ensures same { marking_layers self.new ≡ marking_layers self.old }
        ensures waits { Waits self.old result self.new (Reads sector (D.state (below_of self.old)) buffer.old result (D.state (below_of self.new)) buffer.new) }
        ensures due { ReadDue sector self.old result self.new }
        ensures refuses { Refuses self.old result self.new }
        ensures rests { Rests self.old self.new }
        ensures again { ReadAgain sector self.old buffer.old result self.new buffer.new }
    {
        match self.phase {
            Phase::Before(0) => {
                probe(&mut self.below, sector)?;
                self.phase.fail(sector, Lost::NONE)
            }
            Phase::Before(_) => self.phase.passed(self.below.read(sector, buffer)),
            Phase::Off(_) => Err(Fault::PowerOff(sector)),
            Phase::On(lost) => {
                if self.is_gone(lost, sector) {
                    return Err(Fault::Unreadable(sector));
                }
                let answer = self.below.read(sector, buffer);
                self.phase = lost.again(answer);
                answer
            }
        }
    }

    fn write(&mut self, sector: u32, bytes: &[u8; 512]) -> Result<(), Fault>
        ensures rule { Writes sector bytes.now (marking_state self.old) result (marking_state self.new) }
        ensures same { marking_layers self.new ≡ marking_layers self.old }
        ensures waits { Waits self.old result self.new (Writes sector bytes.now (D.state (below_of self.old)) result (D.state (below_of self.new))) }
        ensures due { WriteDue sector bytes.now self.old result self.new }
        ensures refuses { Refuses self.old result self.new }
        ensures rests { Rests self.old self.new }
        ensures again { WriteAgain sector bytes.now self.old result self.new }
    {
        match self.phase {
            Phase::Before(0) => {
                self.store(sector, bytes)?;
                self.phase.fail(sector, Lost::by(self.manner, sector))
            }
            Phase::Before(_) => self.phase.passed(self.below.write(sector, bytes)),
            Phase::Off(_) => Err(Fault::PowerOff(sector)),
            Phase::On(lost) => {
                let answer = self.below.write(sector, bytes);
                self.phase = lost.after(answer, sector).again(answer);
                answer
            }
        }
    }
}

impl<D: Spoilable> Spoilable for Marking<D> {
    ghost use Rattle.disk.specs.Rules.{Spoils};
    ghost use Rattle.marking.specs.OfMarking.{marking_state, marking_layers, Spoiled};

    #[tactic(auto, using(crate::proofs::Masking::spoiling))]
    fn spoil(&mut self, sector: u32) -> Result<(), Fault>
        ensures rule { Spoils sector (marking_state self.old) result (marking_state self.new) }
        ensures same { marking_layers self.new ≡ marking_layers self.old }
        ensures below { Spoiled sector self.old result self.new }
    {
        self.below.spoil(sector)
    }
}
