// A place between keys to look from.
ghost use Rattle.std.specs.Prelude.{◌≡◌, ℕ, ◌≤◌, true, List, ◌++◌, length, replicate, Ok, Err};
ghost use Rattle.refusal.specs.declared.Refusal.TheVariants.{BadName};
ghost use Rattle.names.specs.Names.{GoodName, filled, is_key, two_bytes};
ghost use Rattle.names.specs.Orders.{before};

use crate::key::joined;
use crate::name::Name;
use refusal::Refusal;

/// 22 bytes in the order of keys, which need not be a key.
#[derive(Clone, Copy, PartialEq, Eq, PartialOrd, Ord, Debug)]
pub struct Bound {
    pub bytes: [u8; 22],
}

impl Bound {
    /// The bound below every key: all zeros.
    pub fn lowest() -> Bound
        ensures value { result.bytes ≡ replicate 22 0 }
        ensures below { (k : List ℕ) → is_key k ≡ true → before result.bytes k ≡ true }
    {
        Bound { bytes: [0; 22] }
    }

    /// The bound at this good name and a version, which may be any number.
    pub fn at(name: &Name, version: u16) -> Bound
        ensures { result.bytes ≡ name.now.bytes ++ two_bytes version }
    {
        Bound {
            bytes: joined(&name.bytes, version),
        }
    }

    /// The bound at this name and version. The name may be empty, and the version any number. 2 for another bad name.
    // An empty text is no none here: it is the least text that a caller may look from.
    pub fn new(name: &[u8], version: u16) -> Result<Bound, Refusal>
        ensures { elim result [ Ok b ↦ (1 ≤ length name.now → GoodName name.now) × (b.bytes ≡ filled name.now ++ two_bytes version) | Err x ↦ (x ≡ BadName) × (1 ≤ length name.now) × (GoodName name.now → ⊥) ] }
    {
        let bytes = if name.is_empty() {
            [0; 20]
        } else {
            Name::new(name)?.bytes
        };
        Ok(Bound {
            bytes: joined(&bytes, version),
        })
    }
}
