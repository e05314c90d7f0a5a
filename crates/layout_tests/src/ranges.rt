// Which sectors are right as headers, anchors, heads and ends.
use crate::kinds::is_right;
use layout::anchor::Anchor;
use layout::carried::Carried;
use layout::end::RecordEnd;
use layout::head::RecordHead;
use layout::header::Header;
use layout::leader::Leader;
use padding::fitted;
use std::process::Abort;

// What a reader knows beforehand, the bytes that a sector begins with, all others being zero, and whether it is right.
type Row<K> = (K, &'static [u8], bool);

fn check_rows<C: Carried + Drop>(rt: &impl Abort, rows: &[Row<C::Known>]) {
    for (known, fields, right) in rows {
        assert_eq!(rt;
            is_right::<C>(&fitted(fields), *known),
            *right,
            "{fields:?}"
        );
    }
}

const HEADERS: [Row<u32>; 16] = [
    (120, b"FSDV\x01\x04\0\x0e\0\0\0\x78", true),
    (119, b"FSDV\x01\x04\0\x0e\0\0\0\x78", false),
    (121, b"FSDV\x01\x04\0\x0e\0\0\0\x78", false),
    (120, b"FSDV\0\x04\0\x0e\0\0\0\x78", false),
    (120, b"FSDV\x02\x04\0\x0e\0\0\0\x78", false),
    (120, b"FSDV\x01\x01\0\x0e\0\0\0\x78", false),
    (120, b"FSDV\x01\x02\0\x0e\0\0\0\x78", true),
    (1000, b"FSDV\x01\x15\0\x3c\0\0\x03\xe8", true),
    (1000, b"FSDV\x01\x16\0\x3c\0\0\x03\xe8", false),
    (120, b"FSDV\x01\x04\0\x0d\0\0\0\x78", false),
    (120, b"FSDV\x01\x04\0\x21\0\0\0\x78", true),
    (120, b"FSDV\x01\x04\0\x22\0\0\0\x78", false),
    (120, b"FSDV\x01\x04\x01\x0e\0\0\0\x78", false),
    (120, b"FSDV\x01\x04\0\x0e\x01\0\0\x78", false),
    (62, b"FSDV\x01\x04\0\x0e\0\0\0\x3e", true),
    (61, b"FSDV\x01\x04\0\x0e\0\0\0\x3d", false),
];

#[test]
fn headers(rt: HostRuntime) {
    check_rows::<Header>(&rt, &HEADERS);
}

const ANCHORS: [Row<()>; 4] = [
    ((), b"FSDA\x01\0\0\0\x02", true),
    ((), b"FSDA\x02\xff\xff\xff\xff", true),
    ((), b"FSDA\x03\0\0\0\x02", false),
    ((), b"FSDA\xff\0\0\0\x02", false),
];

const ENDS: [Row<()>; 2] = [((), b"FSDE", true), ((), b"FSDE\xff\xff\xff\xff\xff", true)];

#[test]
fn anchors_and_ends(rt: HostRuntime) {
    check_rows::<Anchor>(&rt, &ANCHORS);
    check_rows::<RecordEnd>(&rt, &ENDS);
}

const HEADS: [Row<u8>; 13] = [
    (4, b"FSDH\0\0\0\x02\0", false),
    (4, b"FSDH\0\0\0\x02\x01\0", true),
    (4, b"FSDH\0\0\0\x02\x01\x03", true),
    (4, b"FSDH\0\0\0\x02\x01\x04", false),
    (4, b"FSDH\0\0\0\x02\x02\0\x03", true),
    (4, b"FSDH\0\0\0\x02\x02\0\x04", false),
    (4, b"FSDH\0\0\0\x02\x02\x01\x01", false),
    (4, b"FSDH\0\0\0\x02\x02\x02\x01", false),
    (4, b"FSDH\0\0\0\x02\x01\x01\x02", false),
    (4, b"FSDH\0\0\0\x02\x04\0\x01\x02\x03", true),
    (
        21,
        b"FSDH\0\0\0\x02\x15\0\x01\x02\x03\x04\x05\x06\x07\x08\x09\x0a\x0b\x0c\x0d\x0e\x0f\x10\x11\x12\x13\x14",
        true,
    ),
    (
        20,
        b"FSDH\0\0\0\x02\x15\0\x01\x02\x03\x04\x05\x06\x07\x08\x09\x0a\x0b\x0c\x0d\x0e\x0f\x10\x11\x12\x13\x14",
        false,
    ),
    (
        255,
        b"FSDH\0\0\0\x02\x16\0\x01\x02\x03\x04\x05\x06\x07\x08\x09\x0a\x0b\x0c\x0d\x0e\x0f\x10\x11\x12\x13\x14",
        false,
    ),
];

#[test]
fn heads(rt: HostRuntime) {
    check_rows::<RecordHead>(&rt, &HEADS);
}

// How many kinds a sector is right as.
fn kinds_of(fields: &[u8]) -> usize {
    let sector = fitted(fields);
    let kinds = [
        is_right::<Header>(&sector, 120),
        is_right::<Anchor>(&sector, ()),
        is_right::<RecordHead>(&sector, 4),
        is_right::<RecordEnd>(&sector, ()),
        is_right::<Leader>(&sector, ()),
    ];
    kinds.iter().filter(|right| **right).count()
}

// The bytes that a sector begins with, and how many kinds it is right as.
const KINDS: [(&[u8], usize); 10] = [
    (b"", 0),
    (b"NR", 0),
    (b"NL", 0),
    (b"NRDV\x01\x04\0\x0e\0\0\0\x78", 0),
    (b"NLDA\0\0\0\0\x02", 0),
    (b"FSDV\x01\x04\0\x0e\0\0\0\x78", 1),
    (b"FSDA\0\0\0\0\x02", 1),
    (b"FSDH\0\0\0\x02\x01\x01", 1),
    (b"FSDE\0\0\0\x02\x01", 1),
    (
        b"FSDLR5\0\0\0\0\0\0\0\0\0\0\0\0\0\0\0\0\0\0\0\x01\0\0\0\x28",
        1,
    ),
];

#[test]
fn of_no_kind_or_one(rt: HostRuntime) {
    for (fields, kinds) in KINDS {
        assert_eq!(rt; kinds_of(fields), kinds, "{fields:?}");
    }
}
