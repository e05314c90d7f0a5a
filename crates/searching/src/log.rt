// The whole log, from the anchored third on.
ghost use Rattle.std.specs.Prelude.{◌≡◌, ◌≤◌, length};
ghost use Rattle.geometry.specs.declared.third.Third.{Third};
ghost use Rattle.layout.specs.Heads.{HeadFits};
ghost use Rattle.searching.specs.LogReads.{TakenIn, LogRead};

use crate::copies::read_copy;
use crate::record::{FoundRecord, next_record};
use disk::disks::Disk;
use disk::faults::Fault;
use frames::frame::Frame;
use geometry::geometry::Geometry;
use layout::anchor::Anchor;

// Reads the images of a record's pages into their frames. A record that is there has each image in one of its two places.
fn take_in<D: Disk>(
    disk: &mut D,
    found: &FoundRecord,
    frames: &mut [Frame],
    work: &mut [u8; 512],
) -> Result<(), Fault>
    requires fits { HeadFits (length frames.old) found.now.head }
    requires few { length frames.old ≤ 21 }
    requires within { found.now.place ≤ 4096 }
    ensures rule { TakenIn found.now (D.state disk.old) frames.old result (D.state disk.new) frames.new }
    ensures same { D.layers disk.new ≡ D.layers disk.old }
{
    let first = found.place + 3;
    let second = found.place + 4 + u32::from(found.head.count);
    for j in 0..found.head.count {
        read_copy(disk, first + u32::from(j), second + u32::from(j), work)?;
        let page = found.head.pages[usize::from(j)];
        frames[usize::from(page)] = Frame {
            now: *work,
            forced: *work,
            changed: false,
            third: Some(found.third),
        };
    }
    Ok(())
}

/// Reads the images of every record of the log into the frames, and answers the missing number. A frame of no record stays as it is.
pub fn read_log<D: Disk>(
    disk: &mut D,
    geometry: &Geometry,
    anchor: Anchor,
    frames: &mut [Frame],
    work: &mut [u8; 512],
) -> Result<u64, Fault>
    requires { length frames.old ≡ geometry.now.pages }
    ensures rule { LogRead geometry.now.pages geometry.now.third anchor.third anchor.group (D.state disk.old) frames.old result (D.state disk.new) frames.new }
    ensures same { D.layers disk.new ≡ D.layers disk.old }
{
    let mut third = anchor.third;
    let mut place = geometry.third_start(third);
    for group in anchor.group..=u32::MAX {
        let next = next_record(disk, geometry, anchor.third, third, place, group, work)?;
        let Some(found) = next else {
            return Ok(u64::from(group));
        };
        take_in(disk, &found, frames, work)?;
        third = found.third;
        place = found.place + 5 + 2 * u32::from(found.head.count);
    }
    Ok(1 << 32)
}
