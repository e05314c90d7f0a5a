// The two anchors.
ghost use Rattle.std.specs.Prelude.{◌≡◌};
ghost use Rattle.disk.specs.WriteLists.{Wrote};
ghost use Rattle.thirds.specs.Recovery.{both_anchors};

use disk::disks::Disk;
use disk::faults::Fault;
use geometry::third::Third;
use layout::anchor::Anchor;
use working::values::write_value;

/// Writes both anchors, the lower sector first.
pub fn write_anchors<D: Disk>(
    disk: &mut D,
    third: Third,
    group: u32,
    work: &mut [u8; 512],
) -> Result<(), Fault>
    ensures rule { Wrote (both_anchors third group) (D.state disk.old) result (D.state disk.new) }
    ensures same { D.layers disk.new ≡ D.layers disk.old }
{
    let anchor = Anchor { third, group };
    write_value(disk, 4, &anchor, work)?;
    write_value(disk, 6, &anchor, work)
}
