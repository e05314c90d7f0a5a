// Page images by their bytes, and which of them a change writes.
ghost use Rattle.std.specs.Prelude.{◌≤◌, length};

use padding::fitted;
use register::replay::{Change, replay};
use std::alloc::AllocError;
use std::process::Abort;

/// Puts bytes on a page from a place on.
// The tests of pages have the same function: one for both would be library code, which may not abort, and each caller would have to say what it does where the bytes do not fit.
pub fn put_bytes(rt: &impl Abort, page: &mut [u8; 512], at: usize, bytes: &[u8]) {
    assert!(rt; at <= 512);
    assert!(rt; bytes.len() <= 512 - at);
    page[at..at + bytes.len()].copy_from_slice(bytes);
}

/// A leaf without entries.
pub fn empty_leaf() -> [u8; 512] {
    fitted(b"NL")
}

/// A root with one item, that of a page.
pub fn root_with(page: u8) -> [u8; 512] {
    let mut root = fitted(b"NR\x01");
    root[55] = page;
    root
}

/// The numbers of the pages, of five, that the last of some changes writes, where all of them are carried out.
pub fn written(
    rt: &(impl Abort + AllocGlobal),
    changes: &[Change],
) -> Result<Vec<usize>, AllocError> {
    let mut before = [[0; 512]; 5];
    let mut after = [[0; 512]; 5];
    let earlier = &changes[..changes.len().saturating_sub(1)];
    assert_eq!(rt; replay(&mut before, earlier), earlier.len());
    assert_eq!(rt; replay(&mut after, changes), changes.len());
    before
        .iter()
        .zip(&after)
        .enumerate()
        .filter_map(|(page, (old, new))| (old != new).then_some(page))
        .collect(rt.alloc())
}
