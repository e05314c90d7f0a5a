// Why a disk call is refused.
ghost use Rattle.std.specs.Prelude.{◌≡◌, Some};
ghost use Rattle.refusal.specs.Refusals.{text_of};
ghost use Rattle.disk.specs.Faults.{refusal_of, fault_at};

use refusal::Refusal;
use std::error::Error;
use std::fmt;

/// The refusals that a disk has of its own. Each is one of the product's: `Refusal::from` says which.
#[derive(Clone, Copy, PartialEq, Eq, Debug)]
pub enum Fault {
    PowerOff(u32),
    Unreadable(u32),
    NoSuchSector,
}

impl Fault {
    /// The same fault, at another sector where it names one.
    pub fn at(self, sector: u32) -> Fault
        ensures { result ≡ fault_at sector self }
    {
        match self {
            Fault::PowerOff(_) => Fault::PowerOff(sector),
            Fault::Unreadable(_) => Fault::Unreadable(sector),
            Fault::NoSuchSector => Fault::NoSuchSector,
        }
    }
}

impl From<Fault> for Refusal {
    ghost from_gives = { λ fault refusal. refusal ≡ refusal_of fault };

    fn from(fault: Fault) -> Refusal {
        match fault {
            Fault::PowerOff(sector) => Refusal::PowerOff(sector),
            Fault::Unreadable(sector) => Refusal::Unreadable(sector),
            Fault::NoSuchSector => Refusal::NoSuchSector,
        }
    }
}

/// Writes what the refusal writes that the fault is.
impl fmt::Display for Fault {
    ghost output = { λ fault. Some (text_of (refusal_of fault)) };

    fn fmt<W: fmt::Write>(&self, f: &mut fmt::Formatter<W>) -> fmt::Result {
        Refusal::from(*self).fmt(f)
    }
}

impl Error for Fault {}
