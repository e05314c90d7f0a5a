// Whether a record is there.
ghost use Rattle.std.specs.Prelude.{◌≡◌, ◌+◌, ◌^◌, ◌<◌, ◌≤◌};
ghost use Rattle.searching.specs.Looks.{RecordSeen};
ghost use Rattle.searching.specs.LogReads.{SeatSeen};
ghost use Rattle.thirds.specs.Records.{start};

use crate::copies::all_copied;
use crate::heads::{first_head, one_end};
use disk::disks::Disk;
use disk::faults::Fault;
use geometry::geometry::Geometry;
use geometry::third::Third;
use layout::end::RecordEnd;
use layout::head::RecordHead;

/// A record that was found: where it stands, and its head.
#[derive(Clone, Copy, PartialEq, Eq, Debug)]
pub struct FoundRecord {
    pub third: Third,
    pub place: u32,
    pub head: RecordHead,
}

/// The head of the record with this group number at `place` of `third`, if that record is there.
pub fn record_at<D: Disk>(
    disk: &mut D,
    geometry: &Geometry,
    third: Third,
    place: u32,
    group: u32,
    work: &mut [u8; 512],
) -> Result<Option<RecordHead>, Fault>
    requires { place ≤ 4096 }
    ensures rule { RecordSeen geometry.now.pages geometry.now.third third place group (D.state disk.old) result (D.state disk.new) }
    ensures same { D.layers disk.new ≡ D.layers disk.old }
{
    let Some(head) = first_head(disk, place, group, geometry.pages as u8, work)? else {
        return Ok(None);
    };
    let count = u32::from(head.count);
    if place + 5 + 2 * count > geometry.last_of(third) {
        return Ok(None);
    }
    let end = RecordEnd {
        group,
        count: head.count,
    };
    if !one_end(disk, place + 3 + count, place + 4 + 2 * count, end, work)? {
        return Ok(None);
    }
    if !all_copied(disk, place + 3, place + 4 + count, head.count, work)? {
        return Ok(None);
    }
    Ok(Some(head))
}

/// The next record of the log: at `place` of `third`, or else at the start of the next third, unless that is the anchored one.
pub fn next_record<D: Disk>(
    disk: &mut D,
    geometry: &Geometry,
    anchored: Third,
    third: Third,
    place: u32,
    group: u32,
    work: &mut [u8; 512],
) -> Result<Option<FoundRecord>, Fault>
    requires from { start geometry.now.third third ≤ place }
    requires below { place < start geometry.now.third third + geometry.now.third }
    ensures rule { SeatSeen geometry.now.pages geometry.now.third anchored third place group (D.state disk.old) result (D.state disk.new) }
    ensures same { D.layers disk.new ≡ D.layers disk.old }
{
    if let Some(head) = record_at(disk, geometry, third, place, group, work)? {
        return Ok(Some(FoundRecord { third, place, head }));
    }
    let third = third.next();
    if third == anchored {
        return Ok(None);
    }
    let place = geometry.third_start(third);
    let head = record_at(disk, geometry, third, place, group, work)?;
    Ok(head.map(|head| FoundRecord { third, place, head }))
}
