// The sectors that a cut made unreadable, of which the disk below knows nothing.
ghost use Rattle.std.specs.Prelude.{◌≡◌, ◌<◌};
ghost use Rattle.marking.specs.Marks.{lost_by, is_lost, kept};
ghost use Rattle.marking.specs.Phases.{again};

use disk::faults::Fault;
use failing::manner::Manner;
use failing::phase::Phase;

/// A mark for the sector that was written, and one for its neighbour.
// No array of marks, by which `has` and `after` would be shorter: there are two at the most, and each has a name in the clauses, where the sector's own is hidden before its neighbour.
#[derive(Clone, Copy, PartialEq, Eq, Debug)]
pub struct Lost {
    own: Option<u32>,
    neighbour: Option<u32>,
}

impl Lost {
    /// No sector.
    pub const NONE: Lost = Lost {
        own: None,
        neighbour: None,
    };

    /// The sectors that a cut by `manner` makes unreadable in a write of `sector`.
    pub fn by(manner: Manner, sector: u32) -> Lost
        requires { sector < 65536 }
        ensures { result ≡ lost_by manner sector }
    {
        let own = match manner {
            Manner::AsBefore | Manner::NewBytes => None,
            Manner::Own | Manner::OwnAndBelow | Manner::OwnAndAbove => Some(sector),
        };
        Lost {
            own,
            neighbour: manner.neighbour(sector),
        }
    }

    /// Whether a sector is marked.
    pub fn has(self, sector: u32) -> bool
        ensures { result ≡ is_lost self sector }
    {
        self.own == Some(sector) || self.neighbour == Some(sector)
    }

    /// The marks after a write of `sector`, by its answer. A sector that is written can be read.
    pub fn after(self, answer: Result<(), Fault>, sector: u32) -> Lost
        ensures { result ≡ kept answer sector self }
    {
        match answer {
            Ok(()) => Lost {
                own: self.own.filter(|marked| *marked != sector),
                neighbour: self.neighbour.filter(|marked| *marked != sector),
            },
            Err(_) => self,
        }
    }

    /// The phase after a start, or after a call with the power on again: on, if the answer is not 9.
    pub fn again(self, answer: Result<(), Fault>) -> Phase<Lost>
        ensures { result ≡ again answer self }
    {
        match answer {
            Err(Fault::PowerOff(_)) => Phase::Off(self),
            _ => Phase::On(self),
        }
    }
}
