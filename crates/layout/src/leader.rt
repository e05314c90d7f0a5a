// The leader: which file an extent belongs to.
ghost use Rattle.std.specs.Prelude.{◌≡◌};
ghost use Rattle.layout.specs.Leaders.{encode_leader, decode_leader, leader_of, LeaderFits};

use crate::carried::Carried;
use crate::rest::are_zeros;
use geometry::sizes::LONGEST;
use names::key::Key;
use padding::padded;

/// The bytes of a file's key, and the file's length.
// Plain bytes and no Key: a narrower field would ask more of those who encode a leader.
#[derive(Clone, Copy, PartialEq, Eq, Debug)]
pub struct Leader {
    pub key: [u8; 22],
    pub length: u32,
}

impl Carried for Leader {
    type Known = ();

    ghost Fits = { λ _. LeaderFits };

    ghost encoded = { encode_leader };

    ghost decoded = { λ _. decode_leader };

    fn encode(&self, sector: &mut [u8; 512]) {
        *sector = padded(b"FSDL");
        sector[4..26].copy_from_slice(&self.key);
        sector[26..30].copy_from_slice(&self.length.to_be_bytes());
    }

    #[tactic(auto, using(crate::proofs::LeaderRound::leaders))]
    fn decode(sector: &[u8; 512], _known: ()) -> Option<Leader> {
        let [b'F', b'S', b'D', b'L', ..] = sector else {
            return None;
        };
        leader_of(sector.last_chunk().unwrap())
    }
}

// The leader in the bytes after the letters, if they are right.
fn leader_of(rest: &[u8; 508]) -> Option<Leader>
    ensures { result ≡ leader_of rest.now }
{
    let (key, rest) = rest.split_first_chunk()?;
    let (length, rest) = rest.split_first_chunk()?;
    let length = u32::from_be_bytes(*length);
    if length > LONGEST || !are_zeros(rest) {
        return None;
    }
    Key::from_bytes(key)?;
    Some(Leader { key: *key, length })
}
