// A volume as recovery reads it off a disk, and all that it writes then.
ghost use Rattle.std.specs.Prelude.{◌≡◌, ℕ, ◌+◌, ◌^◌, ◌<◌, ◌≤◌, ◌++◌, length, None, slice_index_or};
ghost use Rattle.disk.specs.WriteLists.{Wrote};
ghost use Rattle.frames.specs.Frames.{forced_of, none_held};
ghost use Rattle.recovering.specs.Volumes.{Seen, PagesRead, VolumeSeen, LostAre, seen_writes};
ghost use Rattle.thirds.specs.Homes.{mend};
ghost use Rattle.thirds.specs.Words.{Disk};

use crate::homes::{LostHomes, read_homes};
use crate::mending::mend_side;
use crate::redoing::redo_homes;
use crate::twins::{Twin, mend_twin, read_anchors, read_headers};
use disk::disks::Disk;
use disk::faults::Fault;
use forcing::anchors::write_anchors;
use frames::frame::{Frame, MOST_PAGES};
use frames::table::empty_log;
use geometry::geometry::Geometry;
use geometry::third::Third;
use layout::anchor::Anchor;
use layout::header::Header;
use refusal::Refusal;
use searching::log::read_log;

/// What recovery has read of a volume: its header and anchor, its geometry, the number that is missing in its log, and which homes cannot be read.
#[derive(Clone, Copy, PartialEq, Eq, Debug)]
pub struct SeenVolume {
    pub header: Twin<Header>,
    pub anchor: Twin<Anchor>,
    pub geometry: Geometry,
    pub missing: u64,
    pub lost: LostHomes,
}

/// Starts the disk and reads a volume off it, the images of its pages into the frames. Nothing is written. Refused with 9, 12, or 13 and the first page that has no image.
pub fn read_volume<D: Disk>(
    disk: &mut D,
    frames: &mut [Frame; MOST_PAGES],
    work: &mut [u8; 512],
) -> Result<SeenVolume, Refusal>
    ensures rule { VolumeSeen (D.state disk.old) result (D.state disk.new) frames.new }
    ensures long { length frames.new ≡ 21 }
    ensures same { D.layers disk.new ≡ D.layers disk.old }
{
    disk.start()?;
    let Some(header) = read_headers(disk, work)? else {
        return Err(Refusal::NoVolume);
    };
    // The numbers of a right header are good, so this is never refused.
    let numbers = header.value;
    let geometry = Geometry::new(
        u32::from(numbers.pages),
        u32::from(numbers.third),
        numbers.sectors,
    )?;
    let Some(anchor) = read_anchors(disk, work)? else {
        return Err(Refusal::NoVolume);
    };
    let pages = &mut frames[..geometry.pages as usize];
    let (missing, lost) = read_pages(disk, &geometry, anchor.value, pages, work)?;
    Ok(SeenVolume {
        header,
        anchor,
        geometry,
        missing,
        lost,
    })
}

// Reads the log from an anchor on, and then the homes. The number that is missing in the log, and which homes cannot be read. What the frames hold before says nothing.
fn read_pages<D: Disk>(
    disk: &mut D,
    geometry: &Geometry,
    anchor: Anchor,
    frames: &mut [Frame],
    work: &mut [u8; 512],
) -> Result<(u64, LostHomes), Refusal>
    requires { length frames.old ≡ geometry.now.pages }
    ensures rule { PagesRead geometry.now.pages geometry.now.third anchor.third anchor.group (D.state disk.old) result (D.state disk.new) frames.new }
    ensures same { D.layers disk.new ≡ D.layers disk.old }
{
    // No page has a record before the log is read.
    empty_log(frames);
    let missing = read_log(disk, geometry, anchor, frames, work)?;
    let lost = read_homes(disk, geometry, frames, work)?;
    Ok((missing, lost))
}

/// Writes what has to be written before the volume is up: bad copies, unreadable homes, the pages that have a record, and both anchors, for an empty log whose first number is `next`.
pub fn write_volume<D: Disk>(
    disk: &mut D,
    seen: &SeenVolume,
    next: u32,
    frames: &[Frame; MOST_PAGES],
    work: &mut [u8; 512],
) -> Result<(), Fault>
    ensures rule { (σ : Disk) (N : ℕ) (it : Seen σ N seen.now frames.now) → next ≡ seen.now.missing + 1 → Wrote (seen_writes σ seen.now it.log (forced_of frames.now)) (D.state disk.old) result (D.state disk.new) }
    ensures same { D.layers disk.new ≡ D.layers disk.old }
{
    let pages = &frames[..seen.geometry.pages as usize];
    let first = seen.geometry.first_homes();
    let second = seen.geometry.second_homes();
    mend_twin(disk, &seen.header, work)?;
    mend_twin(disk, &seen.anchor, work)?;
    mend_homes(disk, pages, &seen.lost, first, second)?;
    redo_homes(disk, pages, first, second)?;
    write_anchors(disk, Third::Zero, next, work)
}

// Writes the homes that were found unreadable, those of the first side first.
fn mend_homes<D: Disk>(
    disk: &mut D,
    pages: &[Frame],
    lost: &LostHomes,
    first: u32,
    second: u32,
) -> Result<(), Fault>
    requires few { length pages.now ≤ 21 }
    requires near { first + 21 < 2 ^ 32 }
    requires far { second + 21 < 2 ^ 32 }
    ensures rule { (σ : Disk) → LostAre σ lost.now first second (length pages.now) → Wrote (mend σ (forced_of pages.now) first (length pages.now) ++ mend σ (forced_of pages.now) second (length pages.now)) (D.state disk.old) result (D.state disk.new) }
    ensures same { D.layers disk.new ≡ D.layers disk.old }
{
    mend_side(disk, pages, &lost.first, first)?;
    mend_side(disk, pages, &lost.second, second)
}
