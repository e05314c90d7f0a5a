// The sectors of files and of records.
use geometry::sizes::{data_sectors, extent_sectors, record_sectors};
use refusal::Refusal;
use std::process::Abort;

// The bytes of a file, its data sectors, and the sectors of its extent.
type Row = (u32, u32, u32);

const FILES: [Row; 8] = [
    (0, 0, 2),
    (1, 1, 3),
    (512, 1, 3),
    (513, 2, 4),
    (1024, 2, 4),
    (7680, 15, 17),
    (7681, 16, 18),
    (8192, 16, 18),
];

#[test]
fn files(rt: HostRuntime) {
    for (bytes, data, extent) in FILES {
        assert_eq!(rt; data_sectors(bytes), Ok(data), "{bytes}");
        assert_eq!(rt; extent_sectors(bytes), Ok(extent), "{bytes}");
    }
}

#[test]
fn too_long(rt: HostRuntime) {
    assert_eq!(rt; data_sectors(8193), Err(Refusal::TooLong));
    assert_eq!(rt; extent_sectors(8193), Err(Refusal::TooLong));
    assert_eq!(rt; data_sectors(u32::MAX), Err(Refusal::TooLong));
}

#[test]
fn records(rt: HostRuntime) {
    assert_eq!(rt; record_sectors(1), 7);
    assert_eq!(rt; record_sectors(4), 13);
    assert_eq!(rt; record_sectors(21), 47);
}
