// The homes of the pages whose newest record is in a third that is given up.
ghost use Rattle.std.specs.Prelude.{◌≡◌, ◌+◌, ◌^◌, ◌<◌, [], ◌∷◌, length};
ghost use Rattle.disk.specs.WriteLists.{Wrote};
ghost use Rattle.forcing.specs.Force.{carried};
ghost use Rattle.thirds.specs.Cuts.{write};

use disk::disks::Disk;
use disk::faults::Fault;
use frames::frame::Frame;
use geometry::third::Third;

/// Writes the image as last forced to both homes, from `first` and from `second` on, of each page whose newest record is in `third`.
pub fn carry_homes<D: Disk>(
    disk: &mut D,
    frames: &[Frame],
    third: Third,
    first: u32,
    second: u32,
) -> Result<(), Fault>
    requires firsts { first + length frames.now < 2 ^ 32 }
    requires seconds { second + length frames.now < 2 ^ 32 }
    ensures rule { Wrote (carried third frames.now first second) (D.state disk.old) result (D.state disk.new) }
    ensures same { D.layers disk.new ≡ D.layers disk.old }
{
    for (page, frame) in frames.iter().enumerate() {
        if frame.third == Some(third) {
            write_both(
                disk,
                first + page as u32,
                second + page as u32,
                &frame.forced,
            )?;
        }
    }
    Ok(())
}

// The same bytes to both sectors.
fn write_both<D: Disk>(
    disk: &mut D,
    first: u32,
    second: u32,
    bytes: &[u8; 512],
) -> Result<(), Fault>
    ensures rule { Wrote (write first bytes.now ∷ write second bytes.now ∷ []) (D.state disk.old) result (D.state disk.new) }
    ensures same { D.layers disk.new ≡ D.layers disk.old }
{
    disk.write(first, bytes)?;
    disk.write(second, bytes)
}
