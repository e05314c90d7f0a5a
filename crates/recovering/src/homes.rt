// The homes of the pages, read.
ghost use Rattle.std.specs.Prelude.{◌≡◌, ◌≤◌, length};
ghost use Rattle.recovering.specs.HomeReads.{PageRead, HomesRead};

use disk::disks::Disk;
use disk::faults::Fault;
use frames::frame::{Frame, MOST_PAGES};
use geometry::geometry::Geometry;
use refusal::Refusal;
use working::images::read_image;

/// Which homes cannot be read, on each side, by page.
#[derive(Clone, Copy, PartialEq, Eq, Debug)]
pub struct LostHomes {
    pub first: [bool; MOST_PAGES],
    pub second: [bool; MOST_PAGES],
}

// Reads the homes of one page; its image is from the first of them that can be read, if no record gave it one. Which of the two cannot be read; none if the page has no image.
fn read_page<D: Disk>(
    disk: &mut D,
    first: u32,
    second: u32,
    frame: &mut Frame,
    work: &mut [u8; 512],
) -> Result<Option<(bool, bool)>, Fault>
    requires { first ≤ second }
    ensures rule { PageRead first second (D.state disk.old) frame.old result (D.state disk.new) frame.new }
    ensures same { D.layers disk.new ≡ D.layers disk.old }
{
    // The second home is read first: a first home that cannot be read then leaves its bytes where they are.
    let second_read = read_image(disk, second, work)?;
    let first_read = read_image(disk, first, work)?;
    if frame.third.is_none() {
        if !first_read && !second_read {
            return Ok(None);
        }
        frame.forced = *work;
    }
    frame.now = frame.forced;
    frame.changed = false;
    Ok(Some((!first_read, !second_read)))
}

/// Reads the image of each page that no record gave one from its first home, or else from its second, and finds which homes cannot be read. Refused with 13 and the first page that has no image, or with 9.
pub fn read_homes<D: Disk>(
    disk: &mut D,
    geometry: &Geometry,
    frames: &mut [Frame],
    work: &mut [u8; 512],
) -> Result<LostHomes, Refusal>
    requires { length frames.old ≡ geometry.now.pages }
    ensures rule { HomesRead geometry.now.pages geometry.now.third (D.state disk.old) frames.old result (D.state disk.new) frames.new }
    ensures same { D.layers disk.new ≡ D.layers disk.old }
{
    let first = geometry.first_homes();
    let second = geometry.second_homes();
    let mut lost = LostHomes {
        first: [false; MOST_PAGES],
        second: [false; MOST_PAGES],
    };
    for (page, frame) in frames.iter_mut().enumerate() {
        let at = page as u32;
        let Some((first_lost, second_lost)) = read_page(disk, first + at, second + at, frame, work)?
        else {
            return Err(Refusal::RegisterBroken(at));
        };
        lost.first[page] = first_lost;
        lost.second[page] = second_lost;
    }
    Ok(lost)
}
