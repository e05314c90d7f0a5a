// A format.
ghost use Rattle.std.specs.Prelude.{◌≡◌, ◌+◌, ◌^◌, ◌<◌, length, replicate, Ok, Err};
ghost use Rattle.disk.specs.Sectors.{count};
ghost use Rattle.disk.specs.WriteLists.{Wrote, run_of};
ghost use Rattle.journal.specs.Formats.{zero_writes, header_writes, format_writes, FormatGood, FormatDown};
ghost use Rattle.refusal.specs.declared.Refusal.TheVariants.{BadNumbers};

use crate::change::is_loggable;
use disk::disks::Disk;
use disk::faults::Fault;
use disk::runs::write_run;
use forcing::anchors::write_anchors;
use geometry::geometry::Geometry;
use geometry::third::Third;
use layout::header::Header;
use refusal::Refusal;
use working::values::write_value;

/// Makes the disk an empty volume with these images as its pages. Refused with 15 where the numbers are bad or an image begins like the head or the end of a record.
pub fn format_down<D: Disk>(
    disk: &mut D,
    third: u32,
    images: &[[u8; 512]],
    work: &mut [u8; 512],
) -> Result<(), Refusal>
    ensures rule { FormatDown third images.now (D.state disk.old) result (D.state disk.new) }
    ensures same { D.layers disk.new ≡ D.layers disk.old }
{
    let geometry = geometry_for(third, images, (*disk).count())?;
    disk.start()?;
    write_volume(disk, &geometry, images, work)?;
    Ok(())
}

// The geometry of a volume with these images on a disk of so many sectors, or 15.
fn geometry_for(third: u32, images: &[[u8; 512]], sectors: u32) -> Result<Geometry, Refusal>
    ensures { elim result [ Ok g ↦ FormatGood third images.now sectors × (g.pages ≡ length images.now) × (g.third ≡ third) × (g.sectors ≡ sectors) | Err x ↦ (FormatGood third images.now sectors → ⊥) × (x ≡ BadNumbers) ] }
{
    let pages = u32::try_from(images.len()).map_err(|_| Refusal::BadNumbers)?;
    let geometry = Geometry::new(pages, third, sectors)?;
    if !images.iter().all(is_loggable) {
        return Err(Refusal::BadNumbers);
    }
    Ok(geometry)
}

// All that a format writes, in its order.
fn write_volume<D: Disk>(
    disk: &mut D,
    geometry: &Geometry,
    images: &[[u8; 512]],
    work: &mut [u8; 512],
) -> Result<(), Fault>
    requires pages { length images.now ≡ geometry.now.pages }
    requires sectors { count (D.state disk.old) ≡ geometry.now.sectors }
    ensures rule { Wrote (format_writes geometry.now.pages geometry.now.third geometry.now.sectors images.now) (D.state disk.old) result (D.state disk.new) }
    ensures same { D.layers disk.new ≡ D.layers disk.old }
{
    write_zeros(disk, geometry, work)?;
    write_run(disk, geometry.first_homes(), images)?;
    write_run(disk, geometry.second_homes(), images)?;
    write_anchors(disk, Third::Zero, 1, work)?;
    write_headers(disk, geometry, work)
}

// Zeros to the headers, and to everything from the anchors to the last sector of the log.
fn write_zeros<D: Disk>(
    disk: &mut D,
    geometry: &Geometry,
    work: &mut [u8; 512],
) -> Result<(), Fault>
    ensures rule { Wrote (zero_writes geometry.now.third) (D.state disk.old) result (D.state disk.new) }
    ensures same { D.layers disk.new ≡ D.layers disk.old }
{
    *work = [0; 512];
    disk.write(0, work)?;
    disk.write(2, work)?;
    fill(disk, 4, geometry.first_homes() - 4, work)
}

// The same bytes to so many sectors from `first` on.
fn fill<D: Disk>(disk: &mut D, first: u32, count: u32, bytes: &[u8; 512]) -> Result<(), Fault>
    requires { first + count < 2 ^ 32 }
    ensures rule { Wrote (run_of first (replicate count bytes.now)) (D.state disk.old) result (D.state disk.new) }
    ensures same { D.layers disk.new ≡ D.layers disk.old }
{
    for i in 0..count {
        disk.write(first + i, bytes)?;
    }
    Ok(())
}

// Both headers.
fn write_headers<D: Disk>(
    disk: &mut D,
    geometry: &Geometry,
    work: &mut [u8; 512],
) -> Result<(), Fault>
    ensures rule { Wrote (header_writes geometry.now.pages geometry.now.third geometry.now.sectors) (D.state disk.old) result (D.state disk.new) }
    ensures same { D.layers disk.new ≡ D.layers disk.old }
{
    let header = Header {
        pages: geometry.pages as u8,
        third: geometry.third as u16,
        sectors: geometry.sectors,
    };
    write_value(disk, 0, &header, work)?;
    write_value(disk, 2, &header, work)
}
