// A volume's tagged sectors, written for the listing.
use disk::disks::Disk;
use disk::faults::Fault;
use geometry::third::Third;
use layout::anchor::Anchor;
use layout::carried::Carried;
use layout::end::RecordEnd;
use layout::head::RecordHead;
use layout::header::Header;
use layout::leader::Leader;
use names::key::Key;
use names::name::Name;
use names::version::Version;
use pages::records::MOST_ENTRIES;
use refusal::Refusal;

pub const PAGES: u8 = 4;

pub const THIRD: u16 = 14;

pub const SECTORS: u32 = 120;

/// How many page images the volume has.
pub const IMAGES: usize = PAGES as usize;

/// How many files there are places for on the leaves: as many on each page but that of the root as it has room for.
pub const PLACES: usize = MOST_ENTRIES * (IMAGES - 1);

// Writes what carries a value to each of these sectors.
fn write_to<D: Disk, C: Carried>(disk: &mut D, value: &C, sectors: &[u32]) -> Result<(), Fault> {
    let mut bytes = [0u8; 512];
    value.encode(&mut bytes);
    for sector in sectors {
        disk.write(*sector, &bytes)?;
    }
    Ok(())
}

// Writes the header and the anchor, each twice.
fn write_twins<D: Disk>(disk: &mut D) -> Result<(), Fault> {
    let header = Header {
        pages: PAGES,
        third: THIRD,
        sectors: SECTORS,
    };
    write_to(disk, &header, &[0, 2])?;
    let anchor = Anchor {
        third: Third::Zero,
        group: 2,
    };
    write_to(disk, &anchor, &[4, 6])
}

// Writes the record of group 2 with page 1: its head and its end, each twice.
fn write_record<D: Disk>(disk: &mut D) -> Result<(), Fault> {
    let mut pages = [0u8; 21];
    pages[0] = 1;
    let head = RecordHead {
        group: 2,
        count: 1,
        pages,
    };
    write_to(disk, &head, &[8, 10])?;
    let end = RecordEnd { group: 2, count: 1 };
    write_to(disk, &end, &[12, 14])
}

// Writes the leader of a file.
fn write_leader<D: Disk>(disk: &mut D) -> Result<(), Refusal> {
    let key = Key::new(&Name::new(b"R5")?, Version::first());
    let leader = Leader {
        key: key.bytes,
        length: 40,
    };
    write_to(disk, &leader, &[60])?;
    Ok(())
}

/// Writes the tagged sectors of the listing.
pub fn write_all<D: Disk>(disk: &mut D) -> Result<(), Refusal> {
    write_twins(disk)?;
    write_record(disk)?;
    write_leader(disk)
}
