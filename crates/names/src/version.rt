// The version of a file.
ghost use Rattle.std.specs.Prelude.{◌≡◌, ◌+◌, ◌<◌, Some, None, Ok, Err};
ghost use Rattle.refusal.specs.declared.Refusal.TheVariants.{VersionAbove};
ghost use Rattle.names.specs.Versions.{InRange, highest};

use refusal::Refusal;

/// The highest version.
pub const HIGHEST: u16 = 9999;

/// A version is 1 to 9,999. Every value of it is good.
#[derive(Clone, Copy, PartialEq, Eq, PartialOrd, Ord, Debug)]
pub struct Version {
    pub number: u16,
    ghost good: { InRange number },
}

impl Version {
    /// The version with this number, if there is one.
    // An Option, as of `NonZero::new`: what a number that is no version means differs by who asks. After the highest it is 4, in stored bytes it says that they are no key.
    pub fn new(number: u16) -> Option<Version>
        ensures { elim result [ Some v ↦ InRange number × (v.number ≡ number) | None ↦ (InRange number → ⊥) ] }
    {
        if (1..=HIGHEST).contains(&number) {
            Some(Version { number })
        } else {
            None
        }
    }

    /// The first version, 1.
    pub fn first() -> Version
        ensures { result.number ≡ 1 }
    {
        Version { number: 1 }
    }

    /// The version after this one, or 4 after the highest.
    pub fn next(self) -> Result<Version, Refusal>
        ensures { elim result [ Ok v ↦ (self.number < highest) × (v.number ≡ self.number + 1) | Err x ↦ (self.number ≡ highest) × (x ≡ VersionAbove) ] }
    {
        Version::new(self.number + 1).ok_or(Refusal::VersionAbove)
    }
}
