// The head of a record in the log.
ghost use Rattle.std.specs.Prelude.{◌≡◌, nat_lt};
ghost use Rattle.std.specs.List.{list_all};
ghost use Rattle.layout.specs.Heads.{encode_head, decode_head, head_of, HeadFits, good_pages, rises};

use crate::carried::Carried;
use crate::rest::are_zeros;
use padding::padded;

/// The group number of a record, how many pages it has, and their numbers. The places after those are zero.
// No list of fixed room in place of the count and the numbers, which would be no plainer: it would have to be made of the 21 stored numbers and turned into them again, and `count` and `pages` are public fields that callers read.
#[derive(Clone, Copy, PartialEq, Eq, Debug)]
pub struct RecordHead {
    pub group: u32,
    pub count: u8,
    pub pages: [u8; 21],
}

impl Carried for RecordHead {
    /// The number of the volume's pages.
    type Known = u8;

    ghost Fits = { HeadFits };

    ghost encoded = { encode_head };

    ghost decoded = { decode_head };

    fn encode(&self, sector: &mut [u8; 512]) {
        let [a, b, c, d] = self.group.to_be_bytes();
        *sector = padded(&[b'F', b'S', b'D', b'H', a, b, c, d, self.count]);
        sector[9..30].copy_from_slice(&self.pages);
    }

    #[tactic(auto, using(crate::proofs::HeadRound::heads))]
    fn decode(sector: &[u8; 512], limit: u8) -> Option<RecordHead> {
        let [b'F', b'S', b'D', b'H', a, b, c, d, count, ..] = sector else {
            return None;
        };
        let group = u32::from_be_bytes([*a, *b, *c, *d]);
        head_of(group, *count, sector.last_chunk().unwrap(), limit)
    }
}

// The head with these numbers and the bytes after them, if they are right.
fn head_of(group: u32, count: u8, rest: &[u8; 503], limit: u8) -> Option<RecordHead>
    ensures { result ≡ head_of limit group count rest.now }
{
    let (pages, rest) = rest.split_first_chunk()?;
    if count == 0 || !are_pages(pages, count, limit) || !are_zeros(rest) {
        return None;
    }
    Some(RecordHead {
        group,
        count,
        pages: *pages,
    })
}

// Whether the first `count` numbers rise and are below `limit`, and the others are zero.
fn are_pages(pages: &[u8; 21], count: u8, limit: u8) -> bool
    ensures { result ≡ good_pages count 0 limit pages.now }
{
    let Some((listed, others)) = pages.split_at_checked(usize::from(count)) else {
        return false;
    };
    rise(listed) && all_below(listed, limit) && are_zeros(others)
}

// Whether each number is below the next.
fn rise(pages: &[u8]) -> bool
    ensures { result ≡ rises 0 pages.now }
{
    pages.is_sorted_by(|page, next| page < next)
}

// Whether each number is below `limit`.
fn all_below(pages: &[u8], limit: u8) -> bool
    ensures { result ≡ list_all (λ page. nat_lt page limit) pages.now }
{
    pages.iter().all(|page| *page < limit)
}
