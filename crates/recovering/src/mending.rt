// The homes that cannot be read, written.
ghost use Rattle.std.specs.Prelude.{◌≡◌, ℕ, ◌+◌, ◌^◌, ◌<◌, ◌≤◌, false, length, slice_index_or};
ghost use Rattle.disk.specs.WriteLists.{Wrote};
ghost use Rattle.frames.specs.Frames.{forced_of};
ghost use Rattle.recovering.specs.HomeReads.{is_lost};
ghost use Rattle.thirds.specs.Words.{Disk};
ghost use Rattle.thirds.specs.Homes.{mend};

use disk::disks::Disk;
use disk::faults::Fault;
use frames::frame::{Frame, MOST_PAGES};

/// Writes each page's image to its home of one side, from `first` on, where that was found unreadable.
pub fn mend_side<D: Disk>(
    disk: &mut D,
    frames: &[Frame],
    lost: &[bool; MOST_PAGES],
    first: u32,
) -> Result<(), Fault>
    requires few { length frames.now ≤ 21 }
    requires near { first + 21 < 2 ^ 32 }
    ensures rule { (σ : Disk) → ((i : ℕ) → i < length frames.now → slice_index_or lost.now i false ≡ is_lost (σ (first + i))) → Wrote (mend σ (forced_of frames.now) first (length frames.now)) (D.state disk.old) result (D.state disk.new) }
    ensures same { D.layers disk.new ≡ D.layers disk.old }
{
    for (page, frame) in frames.iter().enumerate() {
        if lost[page] {
            disk.write(first + page as u32, &frame.forced)?;
        }
    }
    Ok(())
}
