// Keys and changes by numbers: the n-th key is that of R in version n, and its file has 40 bytes and the three sectors from 57 + 3 n on.
use names::key::Key;
use register::replay::Change;
use register_check::extents::Area;
use std::alloc::{AllocError, Global};
use std::test::Fail;

/// The first sector for files.
pub const FIRST: u32 = 60;

/// As many sectors as the files of all numbers need.
pub const ENOUGH: Area = Area {
    first: FIRST,
    sectors: FIRST + 3 * 9999,
};

/// The key of a name and a version.
pub fn key(text: &[u8], version: u16) -> Result<Key, Fail> {
    Ok(Key::of(text, version).ok_or("no key")?)
}

/// The n-th key.
pub fn nth(n: u16) -> Result<Key, Fail> {
    key(b"R", n)
}

/// The n-th entry is put in.
pub fn put(n: u16) -> Result<Change, Fail> {
    Ok(Change::Put {
        key: nth(n)?,
        start: 57 + 3 * u32::from(n),
        length: 40,
    })
}

/// The n-th entry is taken out.
pub fn take(n: u16) -> Result<Change, Fail> {
    Ok(Change::Take { key: nth(n)? })
}

/// A change for each of these numbers, in this order.
pub fn add<F: Fn(u16) -> Result<Change, Fail>>(
    changes: &mut Vec<Change>,
    order: &[u16],
    change: F,
) -> Result<(), Fail>
    requires { F.IsAlwaysCallable change }
{
    for n in order {
        changes.push(change(*n)?)?;
    }
    Ok(())
}

/// The numbers from one up to another.
pub fn rising(alloc: Global, from: u16, to: u16) -> Result<Vec<u16>, AllocError> {
    (from..=to).collect(alloc)
}

/// The numbers from one down to another.
pub fn falling(alloc: Global, from: u16, to: u16) -> Result<Vec<u16>, AllocError> {
    (to..=from).rev().collect(alloc)
}
