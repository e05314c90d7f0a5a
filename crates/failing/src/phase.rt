// The course of a disk whose power fails once.
ghost use Rattle.std.specs.Prelude.{◌≡◌};
ghost use Rattle.failing.specs.Phases.{done, passed, Fails};

use disk::faults::Fault;

/// Where a disk is in that course. `L` is what it keeps of the sectors that are lost.
#[derive(Clone, Copy, PartialEq, Eq, Debug)]
pub enum Phase<L> {
    /// So many calls will be done before the one that loses the power.
    Before(u32),
    /// The disk took the power away.
    Off(L),
    /// The power was put on again.
    On(L),
}

impl<L: Copy> Phase<L> {
    /// Where it is after a call that is done.
    pub fn done(self) -> Phase<L>
        ensures { result ≡ done self }
    {
        match self {
            Phase::Before(calls) => Phase::Before(calls.saturating_sub(1)),
            Phase::Off(lost) | Phase::On(lost) => Phase::On(lost),
        }
    }

    /// Counts a call by its answer, which it hands on: one that is refused does not count.
    pub fn passed(&mut self, answer: Result<(), Fault>) -> Result<(), Fault>
        ensures phase { self.new ≡ passed answer self.old }
        ensures answer { result ≡ answer }
    {
        answer?;
        *self = self.done();
        Ok(())
    }

    /// The disk's own failure in a call of `sector`: it takes the power away, and `lost` is lost.
    pub fn fail(&mut self, sector: u32, lost: L) -> Result<(), Fault>
        ensures { Fails sector lost result self.new }
    {
        *self = Phase::Off(lost);
        Err(Fault::PowerOff(sector))
    }
}
