// The header: the numbers of a volume.
ghost use Rattle.std.specs.Prelude.{◌≡◌};
ghost use Rattle.layout.specs.Headers.{encode_header, decode_header, header_of, HeaderFits};

use crate::carried::Carried;
use crate::rest::are_zeros_from;
use geometry::geometry::Geometry;
use padding::padded;

/// The number of pages, the sectors of a third and the sectors of the disk.
// Plain numbers and no Geometry, which holds good numbers only: a narrower field would ask more of those who encode a header.
#[derive(Clone, Copy, PartialEq, Eq, Debug)]
pub struct Header {
    pub pages: u8,
    pub third: u16,
    pub sectors: u32,
}

impl Carried for Header {
    /// The number of the disk's sectors.
    type Known = u32;

    ghost Fits = { HeaderFits };

    ghost encoded = { encode_header };

    ghost decoded = { decode_header };

    #[tactic(auto, unfolding(crate::specs::Padded::padded))]
    fn encode(&self, sector: &mut [u8; 512]) {
        let [t, u] = self.third.to_be_bytes();
        let [a, b, c, d] = self.sectors.to_be_bytes();
        *sector = padded(&[b'F', b'S', b'D', b'V', 1, self.pages, t, u, a, b, c, d]);
    }

    #[tactic(auto, using(crate::proofs::HeaderRound::headers))]
    fn decode(sector: &[u8; 512], count: u32) -> Option<Header> {
        let [b'F', b'S', b'D', b'V', 1, pages, t, u, a, b, c, d, ..] = sector else {
            return None;
        };
        if !are_zeros_from(sector, 12) {
            return None;
        }
        let third = u16::from_be_bytes([*t, *u]);
        let sectors = u32::from_be_bytes([*a, *b, *c, *d]);
        header_of(*pages, third, sectors, count)
    }
}

// The header with these numbers, if they are right on a disk of `count` sectors.
fn header_of(pages: u8, third: u16, sectors: u32, count: u32) -> Option<Header>
    ensures { result ≡ header_of count pages third sectors }
{
    if sectors != count {
        return None;
    }
    Geometry::new(u32::from(pages), u32::from(third), sectors).ok()?;
    Some(Header {
        pages,
        third,
        sectors,
    })
}
