// A force over any disk, the table of frames and the place of the log.
ghost use Rattle.std.specs.Prelude.{◌≡◌, ◌+◌, ◌^◌, ◌<◌, length};
ghost use Rattle.disk.specs.WriteLists.{Wrote};
ghost use Rattle.forcing.specs.Force.{giving_up, force_writes, ForceLeaves};

use crate::anchors::write_anchors;
use crate::homes::carry_homes;
use crate::place::LogPlace;
use crate::record::write_record;
use disk::disks::Disk;
use disk::faults::Fault;
use frames::frame::Frame;
use frames::table::{any_changed, changed_count, release, settle};
use geometry::geometry::Geometry;

/// Writes all pages that changed since the last force as one group, and says where the log stands then. Nothing is written if none changed.
pub fn force<D: Disk>(
    disk: &mut D,
    geometry: &Geometry,
    log: &mut LogPlace,
    frames: &mut [Frame],
    work: &mut [u8; 512],
) -> Result<(), Fault>
    requires all { length frames.old ≡ geometry.now.pages }
    requires last { log.old.next + 1 < 2 ^ 32 }
    ensures rule { Wrote (force_writes geometry.now.pages geometry.now.third log.old frames.old) (D.state disk.old) result (D.state disk.new) }
    ensures leaves { ForceLeaves geometry.now.third log.old frames.old result log.new frames.new }
    ensures same { D.layers disk.new ≡ D.layers disk.old }
{
    if !any_changed(frames) {
        return Ok(());
    }
    let count = changed_count(frames);
    let record = log.record_place(geometry, count);
    if record.gives_up {
        give_up(disk, geometry, log, frames, work)?;
    }
    write_record(disk, frames, record.place, log.next, work)?;
    if record.gives_up {
        release(frames, log.anchored);
    }
    settle(frames, record.third);
    log.advance(geometry, count);
    Ok(())
}

// The homes of the pages whose newest record is in the anchored third, and then anchors that name the next one.
fn give_up<D: Disk>(
    disk: &mut D,
    geometry: &Geometry,
    log: &LogPlace,
    frames: &[Frame],
    work: &mut [u8; 512],
) -> Result<(), Fault>
    requires { length frames.now ≡ geometry.now.pages }
    ensures rule { Wrote (giving_up geometry.now.pages geometry.now.third log.now frames.now) (D.state disk.old) result (D.state disk.new) }
    ensures same { D.layers disk.new ≡ D.layers disk.old }
{
    carry_homes(
        disk,
        frames,
        log.anchored,
        geometry.first_homes(),
        geometry.second_homes(),
    )?;
    let third = log.anchored.next();
    write_anchors(disk, third, log.first_in(third), work)
}
