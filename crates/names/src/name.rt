// The name of a file.
ghost use Rattle.std.specs.Prelude.{◌≡◌, true, false, Some, None, Ok, Err};
ghost use Rattle.std.specs.Fmt.{padded};
ghost use Rattle.refusal.specs.declared.Refusal.TheVariants.{BadName};
ghost use Rattle.names.specs.Names.{letter, letters, letters_then_zeros, GoodName, filled, is_name, HasText, text_of};

use padding::{padded, text_length};
use refusal::Refusal;
use std::{fmt, str};

/// A name has 1 to 20 characters of A to Z, 0 to 9 and the hyphen. It is stored filled up with zeros to 20 bytes. Every value of it is good.
#[derive(Clone, Copy, PartialEq, Eq, PartialOrd, Ord, Debug)]
pub struct Name {
    pub bytes: [u8; 20],
    ghost good: { is_name bytes ≡ true },
}

impl Name {
    /// The name with this text, or 2.
    pub fn new(text: &[u8]) -> Result<Name, Refusal>
        ensures { elim result [ Ok n ↦ GoodName text.now × (n.bytes ≡ filled text.now) | Err x ↦ (x ≡ BadName) × (GoodName text.now → ⊥) ] }
    {
        if text.is_empty() || text.len() > 20 || !only_letters(text) {
            return Err(Refusal::BadName);
        }
        Ok(Name {
            bytes: padded(text),
        })
    }

    /// The name that is stored in these bytes, if they are one: a good text, filled up.
    // An Option and no Result: what it means that bytes are no name differs by who asks. In a page of a register it breaks a rule (13), in a sector it says that the sector is no leader.
    pub fn from_bytes(bytes: &[u8; 20]) -> Option<Name>
        ensures { elim result [ Some n ↦ (is_name bytes.now ≡ true) × (n.bytes ≡ bytes.now) × HasText bytes.now | None ↦ is_name bytes.now ≡ false ] }
    {
        if is_name(bytes) {
            Some(Name { bytes: *bytes })
        } else {
            None
        }
    }

    /// The text of the name: the bytes before the first zero.
    pub fn text(&self) -> &str
        ensures value { result.now ≡ text_of self.now.bytes }
        ensures good { GoodName result.now }
        ensures whole { self.now.bytes ≡ filled result.now }
    {
        str::from_utf8(&self.bytes[..text_length(&self.bytes)]).unwrap()
    }
}

/// Writes the text.
impl fmt::Display for Name {
    ghost output = { λ name. Some (text_of name.bytes) };

    ghost styled_output = { λ name spec. Some (padded spec (text_of name.bytes)) };

    fn fmt<W: fmt::Write>(&self, f: &mut fmt::Formatter<W>) -> fmt::Result {
        f.pad(self.text())
    }
}

// Whether these bytes are a stored name.
fn is_name(bytes: &[u8; 20]) -> bool
    ensures { result ≡ is_name bytes.now }
{
    is_letter(bytes[0]) && letters_then_zeros(bytes)
}

// Whether a byte is a character of a name.
fn is_letter(byte: u8) -> bool
    ensures { result ≡ letter byte }
{
    matches!(byte, b'A'..=b'Z' | b'0'..=b'9' | b'-')
}

// Whether there are letters only.
fn only_letters(text: &[u8]) -> bool
    ensures { result ≡ letters text.now }
{
    text.iter().all(|byte| is_letter(*byte))
}

// Whether there are letters and then zeros only.
#[tactic(auto, unfolding(crate::specs::Names::letters_then_zeros))]
fn letters_then_zeros(bytes: &[u8]) -> bool
    ensures { result ≡ letters_then_zeros bytes.now }
{
    bytes
        .iter()
        .skip_while(|byte| is_letter(**byte))
        .all(|byte| *byte == 0)
}
