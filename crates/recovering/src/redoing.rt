// The pages that have a record, written home.
ghost use Rattle.std.specs.Prelude.{◌≡◌, ℕ, ◌+◌, ◌^◌, ◌<◌, ◌≤◌, List, length, slice_index_or};
ghost use Rattle.disk.specs.WriteLists.{Wrote};
ghost use Rattle.frames.specs.Frames.{forced_of, none_held};
ghost use Rattle.thirds.specs.Records.{Rec};
ghost use Rattle.thirds.specs.Homes.{redo, holder};

use disk::disks::Disk;
use disk::faults::Fault;
use frames::frame::Frame;

/// Writes the image of each page that has a record to both its homes, from `first` and from `second` on.
pub fn redo_homes<D: Disk>(
    disk: &mut D,
    frames: &[Frame],
    first: u32,
    second: u32,
) -> Result<(), Fault>
    requires few { length frames.now ≤ 21 }
    requires near { first + 21 < 2 ^ 32 }
    requires far { second + 21 < 2 ^ 32 }
    ensures rule { (log : List Rec) → ((i : ℕ) → i < length frames.now → (slice_index_or frames.now i none_held).third ≡ holder log i) → Wrote (redo log (forced_of frames.now) first second (length frames.now)) (D.state disk.old) result (D.state disk.new) }
    ensures same { D.layers disk.new ≡ D.layers disk.old }
{
    for (page, frame) in frames.iter().enumerate() {
        if frame.third.is_some() {
            disk.write(first + page as u32, &frame.forced)?;
            disk.write(second + page as u32, &frame.forced)?;
        }
    }
    Ok(())
}
