// The heads and the ends of a record.
ghost use Rattle.std.specs.Prelude.{◌≡◌, ℕ, ◌+◌, ◌^◌, ◌<◌};
ghost use Rattle.searching.specs.Looks.{HeadSeen, FirstHeadSeen, EndSeen, EndsSeen};

use disk::disks::Disk;
use disk::faults::Fault;
use layout::end::RecordEnd;
use layout::head::RecordHead;
use working::values::read_value;

// The head with this group number in a sector.
fn head_in<D: Disk>(
    disk: &mut D,
    sector: u32,
    group: u32,
    pages: u8,
    work: &mut [u8; 512],
) -> Result<Option<RecordHead>, Fault>
    ensures rule { HeadSeen pages sector group (D.state disk.old) result (D.state disk.new) }
    ensures same { D.layers disk.new ≡ D.layers disk.old }
{
    let head: Option<RecordHead> = read_value(disk, sector, pages, work)?;
    Ok(head.filter(|head| head.group == group))
}

/// The first right head with this group number, of the two of a record at `place`.
pub fn first_head<D: Disk>(
    disk: &mut D,
    place: u32,
    group: u32,
    pages: u8,
    work: &mut [u8; 512],
) -> Result<Option<RecordHead>, Fault>
    requires { place + 2 < 2 ^ 32 }
    ensures rule { FirstHeadSeen pages place group (D.state disk.old) result (D.state disk.new) }
    ensures same { D.layers disk.new ≡ D.layers disk.old }
{
    match head_in(disk, place, group, pages, work)? {
        Some(head) => Ok(Some(head)),
        None => head_in(disk, place + 2, group, pages, work),
    }
}

// Whether a sector is the end of a record of this number and so many pages.
fn is_end<D: Disk>(
    disk: &mut D,
    sector: u32,
    end: RecordEnd,
    work: &mut [u8; 512],
) -> Result<bool, Fault>
    ensures rule { (pages : ℕ) → EndSeen pages sector end.group end.count (D.state disk.old) result (D.state disk.new) }
    ensures same { D.layers disk.new ≡ D.layers disk.old }
{
    Ok(read_value(disk, sector, (), work)? == Some(end))
}

/// Whether one of two sectors is the end of a record of this number and so many pages.
pub fn one_end<D: Disk>(
    disk: &mut D,
    first: u32,
    second: u32,
    end: RecordEnd,
    work: &mut [u8; 512],
) -> Result<bool, Fault>
    requires { first < second }
    ensures rule { (pages : ℕ) → EndsSeen pages first second end.group end.count (D.state disk.old) result (D.state disk.new) }
    ensures same { D.layers disk.new ≡ D.layers disk.old }
{
    Ok(is_end(disk, first, end, work)? || is_end(disk, second, end, work)?)
}
