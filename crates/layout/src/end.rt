// The end of a record in the log.
ghost use Rattle.std.specs.Prelude.{◌≡◌};
ghost use Rattle.layout.specs.Ends.{encode_end, decode_end, EndFits};

use crate::carried::Carried;
use crate::rest::are_zeros_from;
use padding::padded;

/// The group number of a record, and how many pages it has.
#[derive(Clone, Copy, PartialEq, Eq, Debug)]
pub struct RecordEnd {
    pub group: u32,
    pub count: u8,
}

impl Carried for RecordEnd {
    type Known = ();

    ghost Fits = { λ _. EndFits };

    ghost encoded = { encode_end };

    ghost decoded = { λ _. decode_end };

    #[tactic(auto, unfolding(crate::specs::Padded::padded))]
    fn encode(&self, sector: &mut [u8; 512]) {
        let [a, b, c, d] = self.group.to_be_bytes();
        *sector = padded(&[b'F', b'S', b'D', b'E', a, b, c, d, self.count]);
    }

    #[tactic(auto, using(crate::proofs::EndRound::ends))]
    fn decode(sector: &[u8; 512], _known: ()) -> Option<RecordEnd> {
        let [b'F', b'S', b'D', b'E', a, b, c, d, count, ..] = sector else {
            return None;
        };
        if !are_zeros_from(sector, 9) {
            return None;
        }
        Some(RecordEnd {
            group: u32::from_be_bytes([*a, *b, *c, *d]),
            count: *count,
        })
    }
}
