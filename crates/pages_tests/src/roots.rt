// A worked root of two items: its bytes both ways, and which of them have no use.
use crate::kinds::{are_fixed, entries_on, put};
use pages::page::{decode_page, decode_row, write_page};
use pages::records::{Entry, Item, LEAF, MOST_ENTRIES, MOST_ITEMS, ROOT};
use std::process::Abort;

const FIRST: Item = Item {
    separator: [0; 22],
    page: 1,
};

const SECOND: Item = Item {
    separator: *b"R5\0\0\0\0\0\0\0\0\0\0\0\0\0\0\0\0\0\0\0\x01",
    page: 0x0102,
};

// The root, byte by byte.
fn root(rt: &impl Abort) -> [u8; 512] {
    let mut page = [0; 512];
    put(rt, &mut page, 0, b"NR\x02");
    put(rt, &mut page, 54, b"\0\x01");
    put(
        rt,
        &mut page,
        56,
        b"R5\0\0\0\0\0\0\0\0\0\0\0\0\0\0\0\0\0\0\0\x01\x01\x02",
    );
    page
}

#[test]
fn both_ways(rt: HostRuntime) {
    let mut page = [255; 512];
    write_page(ROOT, &[FIRST, SECOND], &mut page);
    assert!(rt; page == root(&rt));
    let mut out = [Item::default(); MOST_ITEMS];
    assert_eq!(rt; decode_page(ROOT, &page, &mut out), Some(2));
    assert!(rt; out[..2] == [FIRST, SECOND]);
    let items = decode_row::<Item, MOST_ITEMS>(ROOT, &page);
    assert!(rt; items.is_some_and(|items| items.as_slice() == [FIRST, SECOND].as_slice()));
    assert_eq!(rt; entries_on(&page), None);
    assert!(rt; decode_row::<Entry, MOST_ENTRIES>(LEAF, &page).is_none());
}

#[test]
fn fixed_bytes(rt: HostRuntime) {
    let page = root(&rt);
    are_fixed(&rt, &page, 0, 2);
    are_fixed(&rt, &page, 3, 32);
    are_fixed(&rt, &page, 80, 512);
}
