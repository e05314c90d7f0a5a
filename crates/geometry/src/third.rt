// The three thirds of the log.
ghost use Rattle.std.specs.Prelude.{◌≡◌, ◌++◌, Some, None, MatchResult, codes, decimal};
ghost use Rattle.geometry.specs.Thirds.{number_of, third_of, next_of};

use std::error::Error;
use std::fmt;

/// One of the thirds that the log is written in, in turn.
#[derive(Clone, Copy, PartialEq, Eq, Debug)]
pub enum Third {
    Zero,
    One,
    Two,
}

/// A number that no third has.
#[derive(Clone, Copy, PartialEq, Eq, Debug)]
pub struct NoSuchThird(pub u8);

/// Writes that there is no third of this number.
impl fmt::Display for NoSuchThird {
    ghost output = { λ error. Some (codes "no third " ++ decimal error.0) };

    fn fmt<W: fmt::Write>(&self, f: &mut fmt::Formatter<W>) -> fmt::Result {
        let number = self.0;
        write!(f, "no third {number}")
    }
}

impl Error for NoSuchThird {}

impl From<Third> for u8 {
    ghost from_gives = { λ third number. number ≡ number_of third };

    fn from(third: Third) -> u8 {
        third as u8
    }
}

impl TryFrom<u8> for Third {
    type Error = NoSuchThird;

    ghost try_from_gives = { λ number r. MatchResult r (λ third. third_of number ≡ Some third) (λ e. (e.0 ≡ number) × (third_of number ≡ None)) };

    fn try_from(number: u8) -> Result<Third, NoSuchThird> {
        match number {
            0 => Ok(Third::Zero),
            1 => Ok(Third::One),
            2 => Ok(Third::Two),
            _ => Err(NoSuchThird(number)),
        }
    }
}

impl Third {
    /// The third after this one. 0 follows 2.
    pub fn next(self) -> Third
        ensures { result ≡ next_of self }
    {
        match self {
            Third::Zero => Third::One,
            Third::One => Third::Two,
            Third::Two => Third::Zero,
        }
    }
}
