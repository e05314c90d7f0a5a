// The images of a record's pages, each in two places.
ghost use Rattle.std.specs.Prelude.{◌≡◌, ◌+◌, ◌^◌, ◌<◌, ◌≤◌};
ghost use Rattle.searching.specs.Looks.{CopySeen, CopiesSeen};

use disk::disks::Disk;
use disk::faults::Fault;
use working::images::read_image;

/// Fills `image` from the first of two sectors that can be read. Whether one of them can.
pub fn read_copy<D: Disk>(
    disk: &mut D,
    first: u32,
    second: u32,
    image: &mut [u8; 512],
) -> Result<bool, Fault>
    requires { first ≤ second }
    ensures rule { CopySeen first second (D.state disk.old) result (D.state disk.new) image.new }
    ensures same { D.layers disk.new ≡ D.layers disk.old }
{
    Ok(read_image(disk, first, image)? || read_image(disk, second, image)?)
}

/// Whether each of `count` pages, from `first` and again from `second` on, can be read in one of its two places.
pub fn all_copied<D: Disk>(
    disk: &mut D,
    first: u32,
    second: u32,
    count: u8,
    work: &mut [u8; 512],
) -> Result<bool, Fault>
    requires some { 0 < count }
    requires order { first ≤ second }
    requires within { second + count < 2 ^ 32 }
    ensures rule { CopiesSeen first second count (D.state disk.old) result (D.state disk.new) }
    ensures same { D.layers disk.new ≡ D.layers disk.old }
{
    for j in 0..u32::from(count) {
        if !read_copy(disk, first + j, second + j, work)? {
            return Ok(false);
        }
    }
    Ok(true)
}
