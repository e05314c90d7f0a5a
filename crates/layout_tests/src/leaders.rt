// Which keys and lengths a leader may hold.
use crate::kinds::is_right;
use layout::carried::Carried;
use layout::leader::Leader;
use padding::fitted;
use std::process::Abort;

// The text of a name, a version, a length, and whether the leader with these is right.
type Row = (&'static [u8], u16, u32, bool);

const ROWS: [Row; 13] = [
    (b"R5", 1, 40, true),
    (b"R5", 9999, 0, true),
    (b"ABCDEFGHIJKLMNOPQRST", 1, 8192, true),
    (b"R5", 1, 8193, false),
    (b"R5", 1, u32::MAX, false),
    (b"R5", 0, 40, false),
    (b"R5", 10000, 40, false),
    (b"R5", u16::MAX, 40, false),
    (b"", 1, 40, false),
    (b"r5", 1, 40, false),
    (b"R 5", 1, 40, false),
    (b"R\x005", 1, 40, false),
    (b"\0R5", 1, 40, false),
];

// The leader with these numbers, good or not.
// Not by `Key::of`, which makes no key of a bad name or version.
fn leader_of(name: &[u8], version: u16, length: u32) -> Leader {
    let mut key: [u8; 22] = fitted(name);
    key[20..].copy_from_slice(&version.to_be_bytes());
    Leader { key, length }
}

#[test]
fn keys_and_lengths(rt: HostRuntime) {
    for (name, version, length, right) in ROWS {
        let mut sector = [0; 512];
        leader_of(name, version, length).encode(&mut sector);
        assert_eq!(rt;
            is_right::<Leader>(&sector, ()),
            right,
            "{name:?} {version} {length}"
        );
    }
}
