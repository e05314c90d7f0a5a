// The key of a file: its name and its version.
ghost use Rattle.std.specs.Prelude.{◌≡◌, true, false, ◌++◌, take, Some, None, codes, decimal};
ghost use Rattle.names.specs.Names.{GoodName, filled, is_key, is_byte_key, two_bytes, version_of, key_text};
ghost use Rattle.names.specs.Orders.{before, Total};
ghost use Rattle.names.specs.Versions.{InRange};

use crate::name::Name;
use crate::version::Version;
use std::fmt;

/// The 20 bytes of the name and the version in two bytes, the higher first. Keys are ordered by their bytes, the first that differs decides. Every value of it is good.
#[derive(Clone, Copy, PartialEq, Eq, PartialOrd, Ord, Debug)]
pub struct Key {
    pub bytes: [u8; 22],
    ghost good: { is_key bytes ≡ true },
    ghost stored: { is_byte_key bytes ≡ true },
}

impl Key {
    /// The key of a name and a version.
    pub fn new(name: &Name, version: Version) -> Key
        ensures { result.bytes ≡ name.now.bytes ++ two_bytes version.number }
    {
        Key {
            bytes: joined(&name.bytes, version.number),
        }
    }

    /// The key of the name with this text and of the version with this number, if there are such.
    // An Option, as of `Version::new`: there is no number of a refusal for a version below 1.
    pub fn of(text: &[u8], version: u16) -> Option<Key>
        ensures { elim result [ Some k ↦ GoodName text.now × InRange version × (k.bytes ≡ filled text.now ++ two_bytes version) | None ↦ (GoodName text.now → InRange version → ⊥) ] }
    {
        let name = Name::new(text).ok()?;
        Some(Key::new(&name, Version::new(version)?))
    }

    /// The key in these bytes, if they are one.
    // An Option, as of `Name::from_bytes`, and for the reason that stands there.
    pub fn from_bytes(bytes: &[u8; 22]) -> Option<Key>
        ensures { elim result [ Some k ↦ (is_key bytes.now ≡ true) × (k.bytes ≡ bytes.now) | None ↦ is_key bytes.now ≡ false ] }
    {
        Name::from_bytes(bytes.first_chunk().unwrap())?;
        Version::new(version_of(bytes))?;
        Some(Key { bytes: *bytes })
    }

    /// The key's version.
    pub fn version(&self) -> Version
        ensures { result.number ≡ version_of self.now.bytes }
    {
        Version {
            number: version_of(&self.bytes),
        }
    }

    /// The key's name.
    pub fn name(&self) -> Name
        ensures { result.bytes ≡ take 20 self.now.bytes }
    {
        Name {
            bytes: *self.bytes.first_chunk().unwrap(),
        }
    }

    /// Whether this key comes before another.
    // Beside the derived order: its contract is the one that says that keys are totally ordered, and no other says it of a `Key`.
    pub fn before(&self, other: &Key) -> bool
        ensures value { result ≡ before self.now.bytes other.now.bytes }
        ensures order { Total before }
    {
        self < other
    }
}

/// Writes the name, a full stop and the version.
impl fmt::Display for Key {
    ghost output = { λ key. Some (key_text key.bytes) };

    fn fmt<W: fmt::Write>(&self, f: &mut fmt::Formatter<W>) -> fmt::Result {
        let name = self.name();
        let version = self.version().number;
        write!(f, "{name}.{version}")
    }
}

// The 20 bytes of a name and a number in two bytes, the higher first.
pub(crate) fn joined(name: &[u8; 20], number: u16) -> [u8; 22]
    ensures { result ≡ name.now ++ two_bytes number }
{
    let mut bytes = [0u8; 22];
    bytes[..20].copy_from_slice(name);
    bytes[20..].copy_from_slice(&number.to_be_bytes());
    bytes
}

/// The number in the last two of a key's bytes, also where these are no key.
pub fn version_of(bytes: &[u8; 22]) -> u16
    ensures { result ≡ version_of bytes.now }
{
    let [.., high, low] = bytes;
    u16::from_be_bytes([*high, *low])
}
