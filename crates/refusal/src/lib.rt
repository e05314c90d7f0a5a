// The refusals of the whole product.
#![tactic(auto)]

ghost use Rattle.std.specs.Prelude.{◌≡◌, Some};
ghost use Rattle.refusal.specs.Refusals.{number_of, place_of, words_of, text_of};

use std::error::Error;
use std::fmt;

/// Why a call was turned down. `docs/CALLS.md` lists every case.
#[derive(Clone, Copy, PartialEq, Eq, Debug)]
pub enum Refusal {
    VolumeDown,
    BadName,
    TooLong,
    VersionAbove,
    RegisterFull,
    NoRun,
    NoSuchFile,
    BufferShort,
    PowerOff(u32),
    Unreadable(u32),
    LeaderDiffers(u32),
    NoVolume,
    RegisterBroken(u32),
    NumbersUsedUp,
    BadNumbers,
    NoSuchSector,
    VolumeUp,
}

impl Refusal {
    /// The number by which the product's documents and reports name this refusal.
    // No `From`: the number leaves out the place, so it is not the refusal as a number.
    pub fn number(&self) -> u8
        ensures { result ≡ number_of self.now }
    {
        match self {
            Refusal::VolumeDown => 1,
            Refusal::BadName => 2,
            Refusal::TooLong => 3,
            Refusal::VersionAbove => 4,
            Refusal::RegisterFull => 5,
            Refusal::NoRun => 6,
            Refusal::NoSuchFile => 7,
            Refusal::BufferShort => 8,
            Refusal::PowerOff(_) => 9,
            Refusal::Unreadable(_) => 10,
            Refusal::LeaderDiffers(_) => 11,
            Refusal::NoVolume => 12,
            Refusal::RegisterBroken(_) => 13,
            Refusal::NumbersUsedUp => 14,
            Refusal::BadNumbers => 15,
            Refusal::NoSuchSector => 16,
            Refusal::VolumeUp => 17,
        }
    }

    /// The sector or the page that this refusal names, if it names one.
    pub fn place(&self) -> Option<u32>
        ensures { result ≡ place_of self.now }
    {
        match self {
            Refusal::PowerOff(place)
            | Refusal::Unreadable(place)
            | Refusal::LeaderDiffers(place)
            | Refusal::RegisterBroken(place) => Some(*place),
            _ => None,
        }
    }

    /// The refusal in words, for a report.
    pub fn words(&self) -> &'static str
        ensures { result.now ≡ words_of self.now }
    {
        match self {
            Refusal::VolumeDown => "volume down",
            Refusal::BadName => "bad name",
            Refusal::TooLong => "too long",
            Refusal::VersionAbove => "version above 9,999",
            Refusal::RegisterFull => "register full",
            Refusal::NoRun => "no run of sectors",
            Refusal::NoSuchFile => "no such file",
            Refusal::BufferShort => "buffer short",
            Refusal::PowerOff(_) => "power off",
            Refusal::Unreadable(_) => "unreadable",
            Refusal::LeaderDiffers(_) => "leader differs",
            Refusal::NoVolume => "no volume",
            Refusal::RegisterBroken(_) => "register broken",
            Refusal::NumbersUsedUp => "numbers used up",
            Refusal::BadNumbers => "bad numbers",
            Refusal::NoSuchSector => "no such sector",
            Refusal::VolumeUp => "volume up",
        }
    }
}

/// Writes the number, a space and the words.
impl fmt::Display for Refusal {
    ghost output = { λ refusal. Some (text_of refusal) };

    fn fmt<W: fmt::Write>(&self, f: &mut fmt::Formatter<W>) -> fmt::Result {
        let number = self.number();
        let words = self.words();
        write!(f, "{number} {words}")
    }
}

impl Error for Refusal {}
