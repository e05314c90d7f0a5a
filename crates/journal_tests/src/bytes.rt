// The bytes of a disk of 120 sectors: as a volume of four pages with thirds of 14 sectors, the thirds begin at 8, 22 and 36, the first copies of the pages at 50, the second ones at 55, the data at 60.
use crate::calls::Answer::*;
use crate::calls::Call::*;
use crate::calls::on_image;
use padding::fitted;
use std::process::Abort;

/// The bytes of such a disk.
pub type Bytes = [u8; 61560];

/// A disk of zeros.
pub const BLANK: Bytes = [0; 61560];

/// The volume after a format, its pages of 1, 2, 3 and 4.
pub fn formatted(rt: &impl Abort) -> Bytes {
    let mut bytes = BLANK;
    on_image(rt, &"format", &mut bytes, &[(Format(14, 4), Done)]);
    bytes
}

/// What a sector holds.
#[derive(Clone, Copy)]
pub enum Held {
    /// It is unreadable.
    Lost,
    /// Its bytes are all the same.
    All(u8),
    /// These bytes, and zeros behind them.
    Tag(&'static [u8]),
}

// The bytes of a sector, if it can be read.
fn read(bytes: &Bytes, sector: usize) -> Option<&[u8]> {
    let (mark, held) = bytes.chunks(513).nth(sector)?.split_first()?;
    (*mark == 0).then_some(held)
}

// Whether a sector holds that.
fn is_held(bytes: &Bytes, sector: usize, held: Held) -> bool {
    match (read(bytes, sector), held) {
        (None, Held::Lost) => true,
        (Some(found), Held::All(byte)) => found == [byte; 512].as_slice(),
        (Some(found), Held::Tag(tag)) => found == fitted::<512>(tag).as_slice(),
        _ => false,
    }
}

/// The first and the last of some sectors, and what each of them holds.
pub type Row = (usize, usize, Held);

/// Checks what some sectors hold.
pub fn check_sectors(rt: &impl Abort, bytes: &Bytes, rows: &[Row]) {
    for (first, last, held) in rows {
        for sector in *first..=*last {
            assert!(rt; is_held(bytes, sector, *held), "{}", sector);
        }
    }
}

/// Makes sectors unreadable.
pub fn spoil(rt: &impl Abort, bytes: &mut Bytes, sectors: &[usize]) {
    for sector in sectors {
        assert!(rt; *sector < 120);
        bytes[513 * *sector] = 1;
    }
}

/// Puts bytes with zeros behind them into a sector.
pub fn put(rt: &impl Abort, bytes: &mut Bytes, sector: usize, tag: &[u8]) {
    assert!(rt; sector < 120);
    let at = 513 * sector;
    bytes[at] = 0;
    bytes[at + 1..at + 513].copy_from_slice(&fitted::<512>(tag));
}
