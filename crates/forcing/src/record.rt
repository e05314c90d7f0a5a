// A record of the changed pages.
ghost use Rattle.std.specs.Prelude.{◌≡◌, ◌+◌, ◌*◌, ◌^◌, ◌<◌, ◌≤◌, length};
ghost use Rattle.disk.specs.WriteLists.{Wrote};
ghost use Rattle.forcing.specs.Force.{record_at, ending};
ghost use Rattle.frames.specs.Frames.{changed_pages, head_of};
ghost use Rattle.geometry.specs.declared.third.Third.{Third};
ghost use Rattle.thirds.specs.Records.{pages_at, opening, layout};

use disk::disks::Disk;
use disk::faults::Fault;
use frames::frame::Frame;
use frames::table::head_of;
use layout::end::RecordEnd;
use layout::head::RecordHead;
use working::values::write_value;

/// Writes the record of the changed pages, in the order of its sectors.
pub fn write_record<D: Disk>(
    disk: &mut D,
    frames: &[Frame],
    place: u32,
    group: u32,
    work: &mut [u8; 512],
) -> Result<(), Fault>
    requires few { length frames.now ≤ 21 }
    requires near { place ≤ 4096 }
    ensures rule { (third : Third) → Wrote (layout (record_at third place group frames.now)) (D.state disk.old) result (D.state disk.new) }
    ensures same { D.layers disk.new ≡ D.layers disk.old }
{
    let head = head_of(frames, group);
    write_opening(disk, place, &head, frames, work)?;
    write_closing(disk, place, &head, frames, work)
}

// Both heads, and the images after them.
fn write_opening<D: Disk>(
    disk: &mut D,
    place: u32,
    head: &RecordHead,
    frames: &[Frame],
    work: &mut [u8; 512],
) -> Result<(), Fault>
    requires few { length frames.now ≤ 21 }
    requires near { place ≤ 4096 }
    requires head { head.now ≡ head_of head.now.group frames.now }
    ensures rule { (third : Third) → Wrote (opening (record_at third place head.now.group frames.now)) (D.state disk.old) result (D.state disk.new) }
    ensures same { D.layers disk.new ≡ D.layers disk.old }
{
    write_value(disk, place, head, work)?;
    write_value(disk, place + 2, head, work)?;
    write_changed(disk, place + 3, frames)
}

// The first end, the images again, and the end again.
fn write_closing<D: Disk>(
    disk: &mut D,
    place: u32,
    head: &RecordHead,
    frames: &[Frame],
    work: &mut [u8; 512],
) -> Result<(), Fault>
    requires few { length frames.now ≤ 21 }
    requires near { place ≤ 4096 }
    requires head { head.now ≡ head_of head.now.group frames.now }
    ensures rule { (third : Third) → Wrote (ending (record_at third place head.now.group frames.now)) (D.state disk.old) result (D.state disk.new) }
    ensures same { D.layers disk.new ≡ D.layers disk.old }
{
    let count = u32::from(head.count);
    let end = RecordEnd {
        group: head.group,
        count: head.count,
    };
    write_value(disk, place + 3 + count, &end, work)?;
    write_changed(disk, place + 4 + count, frames)?;
    write_value(disk, place + 4 + 2 * count, &end, work)
}

// The images of the changed pages, to the sectors from `first` on.
fn write_changed<D: Disk>(disk: &mut D, first: u32, frames: &[Frame]) -> Result<(), Fault>
    requires { first + length frames.now < 2 ^ 32 }
    ensures rule { Wrote (pages_at first (changed_pages frames.now)) (D.state disk.old) result (D.state disk.new) }
    ensures same { D.layers disk.new ≡ D.layers disk.old }
{
    // A test and a counter, not `filter` and `enumerate`: in a function with a type parameter the toolchain writes a part of its own of the proof of such a loop that it then refuses.
    let mut sector = first;
    for frame in frames {
        if frame.changed {
            disk.write(sector, &frame.now)?;
            sector += 1;
        }
    }
    Ok(())
}
