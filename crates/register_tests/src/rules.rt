// Good registers with bytes changed by hand: the page that breaks a rule.
ghost use Rattle.std.specs.Prelude.{◌≤◌, length};

use crate::changes::{FIRST, add, put, rising};
use crate::page_bytes::put_bytes;
use refusal::Refusal;
use register::replay::replay;
use register_check::check::check;
use register_check::extents::Area;
use std::process::Abort;
use std::test::Fail;

/// Bytes that are put on a page from a place on.
pub type Edit = (usize, usize, &'static [u8]);

/// 16 entries of R in the versions 1 to 16 on four pages, with the files from sector 60 to 107: versions 1 to 8 on page 1, 9 to 16 on page 2. Page 3 is not in use. The items stand from byte 32 on in 24 bytes each, the entries in 32.
pub fn good(rt: &(impl Abort + AllocGlobal)) -> Result<[[u8; 512]; 4], Fail> {
    let mut pages = [[0; 512]; 4];
    let mut changes = Vec::new(rt.alloc());
    add(&mut changes, rising(rt.alloc(), 1, 16)?.as_slice(), put)?;
    assert_eq!(rt; replay(&mut pages, changes.as_slice()), 16);
    Ok(pages)
}

/// Changes the bytes of pages.
pub fn edit(rt: &impl Abort, pages: &mut [[u8; 512]; 4], edits: &[Edit]) {
    for (page, at, bytes) in edits {
        assert!(rt; *page < 4);
        put_bytes(rt, &mut pages[*page], *at, *bytes);
    }
}

/// The sectors for the files of a good register.
pub const AREA: Area = Area {
    first: FIRST,
    sectors: 108,
};

/// What is changed, and the page that then breaks a rule.
pub type Row = (&'static [Edit], Option<u32>);

/// Checks rows on a disk of so many sectors.
// The tests of the leaves and of the root are alike but for their tables, which are all that they say: a function for both would take the two tables and call this one twice.
pub fn blamed(rt: &(impl Abort + AllocGlobal), sectors: u32, rows: &[Row]) -> Result<(), Fail> {
    let good = good(rt)?;
    let area = Area {
        first: FIRST,
        sectors,
    };
    for (i, (edits, page)) in rows.iter().enumerate() {
        let mut pages = good;
        edit(rt, &mut pages, *edits);
        let refused = page.map(Refusal::RegisterBroken);
        assert_eq!(rt; check(&pages, area).err(), refused, "{}", i);
    }
    Ok(())
}
