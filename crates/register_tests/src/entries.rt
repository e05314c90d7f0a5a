// All entries of a register, one after another.

use crate::changes::{add, falling, put, rising};
use names::key::version_of;
use pages::records::Entry;
use register::changes::Register;
use register::lookups::Lookup;
use register::replay::replay;
use std::test::Fail;

// 167 entries on 20 leaves, put in from the last to the first.
#[test]
fn in_order(rt: HostRuntime) -> Result<(), Fail> {
    let mut changes = Vec::new(rt.alloc());
    add(&mut changes, falling(rt.alloc(), 167, 1)?.as_slice(), put)?;
    let mut pages = [[0; 512]; 21];
    assert_eq!(rt; replay(&mut pages, changes.as_slice()), 167);
    let versions: Vec<u16> = Lookup::over(&pages)
        .entries()
        .map(|entry: Entry| version_of(&entry.key))
        .collect(rt.alloc())?;
    assert!(rt; versions.as_slice() == rising(rt.alloc(), 1, 167)?.as_slice());
    Ok(())
}

#[test]
fn of_none(rt: HostRuntime) -> Result<(), Fail> {
    let mut pages = [[0; 512]; 2];
    let register = Register::format(&mut pages);
    assert!(rt; register.look().entries().next().is_none());
    Ok(())
}
