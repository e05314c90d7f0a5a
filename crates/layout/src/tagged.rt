// Which of the tagged sectors a sector is.
ghost use Rattle.layout.specs.Tags.{Carries, Alone};

use crate::anchor::Anchor;
use crate::carried::Carried;
use crate::end::RecordEnd;
use crate::head::RecordHead;
use crate::header::Header;
use crate::leader::Leader;

/// What a sector carries.
#[derive(Clone, Copy, PartialEq, Eq, Debug)]
pub enum Tagged {
    Header(Header),
    Anchor(Anchor),
    Head(RecordHead),
    End(RecordEnd),
    Leader(Leader),
}

/// What a sector carries on a disk of `count` sectors, in a volume of `pages` pages, if it is tagged.
pub fn tag_of(sector: &[u8; 512], count: u32, pages: u8) -> Option<Tagged>
    ensures value { Carries count pages sector.now result }
    ensures alone { Alone count pages sector.now result }
{
    Header::decode(sector, count)
        .map(Tagged::Header)
        .or_else(|| Anchor::decode(sector, ()).map(Tagged::Anchor))
        .or_else(|| RecordHead::decode(sector, pages).map(Tagged::Head))
        .or_else(|| RecordEnd::decode(sector, ()).map(Tagged::End))
        .or_else(|| Leader::decode(sector, ()).map(Tagged::Leader))
}
