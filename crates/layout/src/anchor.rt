// The anchor: from which third and which group number on the log is read.
ghost use Rattle.std.specs.Prelude.{◌≡◌};
ghost use Rattle.layout.specs.Anchors.{encode_anchor, decode_anchor, AnchorFits};

use crate::carried::Carried;
use crate::rest::are_zeros_from;
use geometry::third::Third;
use padding::padded;

/// The anchored third, and the group number of the first record in it.
#[derive(Clone, Copy, PartialEq, Eq, Debug)]
pub struct Anchor {
    pub third: Third,
    pub group: u32,
}

impl Carried for Anchor {
    type Known = ();

    ghost Fits = { λ _. AnchorFits };

    ghost encoded = { encode_anchor };

    ghost decoded = { λ _. decode_anchor };

    #[tactic(auto, unfolding(crate::specs::Padded::padded))]
    fn encode(&self, sector: &mut [u8; 512]) {
        let [a, b, c, d] = self.group.to_be_bytes();
        *sector = padded(&[b'F', b'S', b'D', b'A', u8::from(self.third), a, b, c, d]);
    }

    #[tactic(auto, using(crate::proofs::AnchorRound::anchors))]
    fn decode(sector: &[u8; 512], _known: ()) -> Option<Anchor> {
        let [b'F', b'S', b'D', b'A', third, a, b, c, d, ..] = sector else {
            return None;
        };
        if !are_zeros_from(sector, 9) {
            return None;
        }
        Some(Anchor {
            third: Third::try_from(*third).ok()?,
            group: u32::from_be_bytes([*a, *b, *c, *d]),
        })
    }
}
