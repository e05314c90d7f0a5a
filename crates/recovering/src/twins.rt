// What stands on a volume's disk twice: the header and the anchor.
ghost use Rattle.std.specs.Prelude.{◌≡◌, ℕ};
ghost use Rattle.disk.specs.WriteLists.{Wrote};
ghost use Rattle.recovering.specs.Copies.{HeaderRead, AnchorRead, written_of};

use disk::disks::Disk;
use disk::faults::Fault;
use layout::anchor::Anchor;
use layout::carried::Carried;
use layout::header::Header;
use working::values::{read_value, write_value};

/// The copy that counts, and the sector of the one that has to be written from it.
#[derive(Clone, Copy, PartialEq, Eq, Debug)]
pub struct Twin<V> {
    pub value: V,
    pub bad: Option<u32>,
}

/// The header in sector 0, or else in sector 2. A copy that is not right is bad; one that is right and differs is not.
pub fn read_headers<D: Disk>(
    disk: &mut D,
    work: &mut [u8; 512],
) -> Result<Option<Twin<Header>>, Fault>
    ensures rule { HeaderRead (D.state disk.old) result (D.state disk.new) }
    ensures same { D.layers disk.new ≡ D.layers disk.old }
{
    let count = (*disk).count();
    let first: Option<Header> = read_value(disk, 0, count, work)?;
    let second: Option<Header> = read_value(disk, 2, count, work)?;
    Ok(match (first, second) {
        (Some(value), Some(_)) => Some(Twin { value, bad: None }),
        (Some(value), None) => Some(Twin {
            value,
            bad: Some(2),
        }),
        (None, Some(value)) => Some(Twin {
            value,
            bad: Some(0),
        }),
        (None, None) => None,
    })
}

/// The anchor in sector 4, or else in sector 6. Where both are right and differ, the second is bad.
pub fn read_anchors<D: Disk>(
    disk: &mut D,
    work: &mut [u8; 512],
) -> Result<Option<Twin<Anchor>>, Fault>
    ensures rule { (pages : ℕ) → AnchorRead pages (D.state disk.old) result (D.state disk.new) }
    ensures same { D.layers disk.new ≡ D.layers disk.old }
{
    let first: Option<Anchor> = read_value(disk, 4, (), work)?;
    let second: Option<Anchor> = read_value(disk, 6, (), work)?;
    Ok(match (first, second) {
        (Some(value), _) => {
            let bad = if second == first { None } else { Some(6) };
            Some(Twin { value, bad })
        }
        (None, Some(value)) => Some(Twin {
            value,
            bad: Some(4),
        }),
        (None, None) => None,
    })
}

/// Writes the bad copy, if there is one.
pub fn mend_twin<D: Disk, V: Carried>(
    disk: &mut D,
    twin: &Twin<V>,
    work: &mut [u8; 512],
) -> Result<(), Fault>
    ensures rule { Wrote (written_of twin.now.bad (V.encoded twin.now.value)) (D.state disk.old) result (D.state disk.new) }
    ensures same { D.layers disk.new ≡ D.layers disk.old }
{
    match twin.bad {
        Some(sector) => write_value(disk, sector, &twin.value, work),
        None => Ok(()),
    }
}
