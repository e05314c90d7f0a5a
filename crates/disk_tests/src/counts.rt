// How many sectors an image has.
use crate::bytes::{count_tail, put_tail};
use crate::kinds::on_image;
use crate::scripts::Answer::*;
use crate::scripts::Call::*;
use disk::faults::Fault::*;
use std::process::Abort;
use std::test::Fail;

// Checks that an image over `bytes` has `count` sectors and no more.
fn has(rt: &impl Abort, bytes: &mut [u8], count: u32) {
    on_image(
        rt,
        bytes,
        true,
        &[
            (Count, Sectors(count)),
            (Read(count), Refused(NoSuchSector)),
            (Write(count, 1), Refused(NoSuchSector)),
        ],
    );
}

#[test]
fn whole_sectors(rt: HostRuntime) {
    has(&rt, &mut [], 0);
    has(&rt, &mut [0; 512], 0);
    has(&rt, &mut [0; 513], 1);
    has(&rt, &mut [0; 1025], 1);
    has(&rt, &mut [0; 1026], 2);
}

#[test]
fn at_most_65536(rt: HostRuntime) -> Result<(), Fail> {
    let mut bytes = vec![in rt.alloc(); 0; 65537 * 513 + 77]?;
    put_tail(bytes.as_mut_slice(), 65536 * 513);
    has(&rt, bytes.as_mut_slice(), 65536);
    on_image(
        &rt,
        bytes.as_mut_slice(),
        true,
        &[(Write(65535, 7), Done), (Read(65535), Holds(7))],
    );
    assert_eq!(rt; count_tail(bytes.as_slice(), 65536 * 513), 513 + 77);
    Ok(())
}
