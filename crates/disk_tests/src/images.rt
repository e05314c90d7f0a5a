// The bytes of an image: a mark and 512 bytes for each sector, and a tail.
use crate::bytes::{count_tail, put_tail, sectors};
use crate::kinds::{on_above, on_image};
use crate::scripts::Answer::*;
use crate::scripts::Call::*;
use disk::disks::Disk;
use disk::faults::Fault;
use disk::faults::Fault::*;
use failing::failing::Failing;
use failing::manner::Manner;
use image::Image;
use std::test::Fail;

// Writes 512 mixed bytes to a sector and reads it: how many bytes are those written.
fn write_and_read<D: Disk>(disk: &mut D, sector: u32) -> Result<usize, Fault> {
    let mut block = [0; 512];
    put_tail(&mut block, 0);
    disk.write(sector, &block)?;
    let mut found = [0; 512];
    disk.read(sector, &mut found)?;
    Ok(count_tail(&found, 0))
}

#[test]
fn a_write_clears_the_mark_and_stores_the_bytes(rt: HostRuntime) -> Result<(), Fail> {
    let mut bytes = [5; 1026];
    assert_eq!(rt; write_and_read(&mut Image::new(&mut bytes), 1)?, 512);
    assert_eq!(rt; [bytes[512], bytes[513]], [5, 0]);
    assert_eq!(rt; count_tail(&bytes[514..1026], 0), 512);
    Ok(())
}

#[test]
fn any_mark_but_0_is_unreadable(rt: HostRuntime) {
    let mut bytes = sectors::<1539>();
    bytes[0] = 2;
    bytes[513] = 255;
    on_image(
        &rt,
        &mut bytes,
        true,
        &[
            (Read(0), Refused(Unreadable(0))),
            (Read(1), Refused(Unreadable(1))),
            (Read(2), Holds(3)),
        ],
    );
}

#[test]
fn no_call_touches_the_tail(rt: HostRuntime) {
    let mut bytes = [0; 1126];
    put_tail(&mut bytes, 1026);
    on_above(
        &rt,
        Failing::new(Image::new(&mut bytes), 2, Manner::OwnAndAbove),
        Failing::into_below,
        &[
            (Write(1, 9), Done),
            (Read(1), Holds(9)),
            (Write(2, 9), Refused(NoSuchSector)),
            (Spoil(2), Refused(NoSuchSector)),
            (Spoil(1), Done),
            (Write(1, 8), Refused(PowerOff(1))),
            (Start, Done),
            (Read(1), Refused(Unreadable(1))),
        ],
        &[(Write(1, 7), Done)],
    );
    assert_eq!(rt; count_tail(&bytes, 1026), 100);
}
