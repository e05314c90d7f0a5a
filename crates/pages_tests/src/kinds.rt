// The two kinds of page, how many records a page is, and pages by their bytes.
use pages::page::decode_page;
use pages::records::{Entry, Item, LEAF, MOST_ENTRIES, MOST_ITEMS, ROOT};
use std::process::Abort;

/// How many items a page is the root of, if it is one.
// Beside `entries_on`, and no one function for both: it would be as long, and each caller would have to name the letter, the record and the most of them.
pub fn items_on(page: &[u8; 512]) -> Option<usize> {
    decode_page(ROOT, page, &mut [Item::default(); MOST_ITEMS])
}

/// How many entries a page is the leaf of, if it is one.
pub fn entries_on(page: &[u8; 512]) -> Option<usize> {
    decode_page(LEAF, page, &mut [Entry::default(); MOST_ENTRIES])
}

/// Puts bytes on a page from a place on.
// The register's tests have the same function: one for both would be library code, which may not abort, and each caller would have to say what it does where the bytes do not fit.
pub fn put(rt: &impl Abort, page: &mut [u8; 512], at: usize, bytes: &[u8]) {
    assert!(rt; at <= 512);
    assert!(rt; bytes.len() <= 512 - at);
    page[at..at + bytes.len()].copy_from_slice(bytes);
}

/// Checks that no byte of `from..to` may be another: whichever of its bits is turned over, the page is of neither kind.
// The tests of tagged sectors turn bits over as well: one function for both would be library code, which may not abort, and its contract would say no less than the loop.
pub fn are_fixed(rt: &impl Abort, page: &[u8; 512], from: usize, to: usize) {
    // By places: a place is what is changed, and what a failure names.
    for i in from..to {
        assert!(rt; i < 512);
        for bit in [1u8, 2, 4, 8, 16, 32, 64, 128] {
            let mut other = *page;
            other[i] ^= bit;
            assert_eq!(rt; items_on(&other), None, "{}", i);
            assert_eq!(rt; entries_on(&other), None, "{}", i);
        }
    }
}
