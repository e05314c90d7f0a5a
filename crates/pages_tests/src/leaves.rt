// A worked leaf of two entries: its bytes both ways, and which of them have no use.
use crate::kinds::{are_fixed, entries_on, items_on, put};
use pages::page::{decode_page, decode_row, formed, write_page};
use pages::records::{Entry, LEAF, MOST_ENTRIES, ROOT};
use std::process::Abort;

const FIRST: Entry = Entry {
    key: *b"R5\0\0\0\0\0\0\0\0\0\0\0\0\0\0\0\0\0\0\0\x01",
    start: 60,
    length: 40,
};

const SECOND: Entry = Entry {
    key: *b"ABCDEFGHIJKLMNOPQRST\x27\x0f",
    start: 0x01020304,
    length: 8192,
};

// The leaf, byte by byte.
fn leaf(rt: &impl Abort) -> [u8; 512] {
    let mut page = [0; 512];
    put(rt, &mut page, 0, b"NL\x02");
    put(
        rt,
        &mut page,
        32,
        b"R5\0\0\0\0\0\0\0\0\0\0\0\0\0\0\0\0\0\0\0\x01\0\0\0\x3c\0\0\0\x28\0\0",
    );
    put(
        rt,
        &mut page,
        64,
        b"ABCDEFGHIJKLMNOPQRST\x27\x0f\x01\x02\x03\x04\0\0\x20\0\0\0",
    );
    page
}

#[test]
fn both_ways(rt: HostRuntime) {
    let mut page = [255; 512];
    write_page(LEAF, &[FIRST, SECOND], &mut page);
    assert!(rt; page == leaf(&rt));
    let mut out = [Entry::default(); MOST_ENTRIES];
    assert_eq!(rt; decode_page(LEAF, &page, &mut out), Some(2));
    assert!(rt; out[..2] == [FIRST, SECOND]);
    let entries = decode_row::<Entry, MOST_ENTRIES>(LEAF, &page);
    assert!(rt; entries.is_some_and(|entries| entries.as_slice() == [FIRST, SECOND].as_slice()));
}

#[test]
fn made_of(rt: HostRuntime) {
    let page = leaf(&rt);
    assert!(rt; formed(LEAF, &[FIRST, SECOND], &page));
    assert!(rt; !formed(LEAF, &[SECOND, FIRST], &page));
    assert!(rt; !formed(LEAF, &[FIRST], &page));
    assert!(rt; !formed(LEAF, &[FIRST, SECOND, Entry::default()], &page));
    assert!(rt; !formed(ROOT, &[FIRST, SECOND], &page));
}

#[test]
fn fixed_bytes(rt: HostRuntime) {
    let page = leaf(&rt);
    are_fixed(&rt, &page, 0, 2);
    are_fixed(&rt, &page, 3, 32);
    are_fixed(&rt, &page, 62, 64);
    are_fixed(&rt, &page, 94, 512);
}

#[test]
fn empty(rt: HostRuntime) {
    let mut page = [0; 512];
    assert_eq!(rt; entries_on(&page), None);
    put(&rt, &mut page, 0, b"NL");
    assert_eq!(rt; entries_on(&page), Some(0));
    assert_eq!(rt; items_on(&page), None);
}
