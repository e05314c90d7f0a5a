// What a write may leave in whose course the power fails.
ghost use Rattle.std.specs.Prelude.{◌≡◌, ◌<◌, Some};
ghost use Rattle.failing.specs.Manners.{neighbour_of, words_of};

use std::fmt;

/// The manners that the cut rule allows, for a write of a sector.
#[derive(Clone, Copy, PartialEq, Eq, Debug)]
pub enum Manner {
    /// The sector is as before.
    AsBefore,
    /// The sector holds the new bytes.
    NewBytes,
    /// The sector is unreadable.
    Own,
    /// The sector and the one below it are unreadable.
    OwnAndBelow,
    /// The sector and the one above it are unreadable.
    OwnAndAbove,
}

impl Manner {
    /// The five manners, in order.
    pub const ALL: [Manner; 5] = [
        Manner::AsBefore,
        Manner::NewBytes,
        Manner::Own,
        Manner::OwnAndBelow,
        Manner::OwnAndAbove,
    ];

    /// The sector beside `sector` that is unreadable too. Below sector 0 that is sector 0 itself.
    // The sector is below 65,536, since no `u32` is the one above the highest.
    pub fn neighbour(self, sector: u32) -> Option<u32>
        requires { sector < 65536 }
        ensures { result ≡ neighbour_of self sector }
    {
        match self {
            Manner::AsBefore | Manner::NewBytes | Manner::Own => None,
            Manner::OwnAndBelow => Some(sector.saturating_sub(1)),
            Manner::OwnAndAbove => Some(sector + 1),
        }
    }

    /// The manner in words, for a report.
    pub fn words(self) -> &'static str
        ensures { result.now ≡ words_of self }
    {
        match self {
            Manner::AsBefore => "the sector as before",
            Manner::NewBytes => "the sector with the new bytes",
            Manner::Own => "the sector unreadable",
            Manner::OwnAndBelow => "the sector and the one below it unreadable",
            Manner::OwnAndAbove => "the sector and the one above it unreadable",
        }
    }
}

/// Writes the words.
impl fmt::Display for Manner {
    ghost output = { λ manner. Some (words_of manner) };

    fn fmt<W: fmt::Write>(&self, f: &mut fmt::Formatter<W>) -> fmt::Result {
        f.pad(self.words())
    }
}
