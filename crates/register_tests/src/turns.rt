// Names that begin alike, in the order of their bytes, and what the register tells of each.

use crate::changes::{add, key, rising, take};
use names::bound::Bound;
use names::key::Key;
use names::name::Name;
use names::version::Version;
use pages::records::Entry;
use register::changes::Register;
use register::lookups::Lookup;
use register::replay::{Change, replay};
use std::alloc::Global;
use std::process::Abort;
use std::test::Fail;

// A name and a version.
type Row = (&'static [u8], u16);

// In their order: the first byte that differs decides, and a name that ends comes before one that goes on.
const IN_TURN: [Row; 20] = [
    (b"-", 1),
    (b"0", 9999),
    (b"9", 1),
    (b"ABCDEFGHIJKLMNOPQRST", 9999),
    (b"R", 1),
    (b"R", 9999),
    (b"R-5", 7),
    (b"R1", 1),
    (b"R1", 2),
    (b"R1", 9998),
    (b"R1", 9999),
    (b"R10", 4),
    (b"R1000000000000000000", 1),
    (b"R5", 1),
    (b"R5", 256),
    (b"R5", 257),
    (b"ROUND-1", 1),
    (b"ROUND-10", 1),
    (b"Z", 1),
    (b"ZZZZZZZZZZZZZZZZZZZZ", 9999),
];

// Puts in the entry of a row, which tells the row's place.
fn put(place: usize) -> Result<Change, Fail> {
    let (text, version) = *IN_TURN.get(place).ok_or("no such row")?;
    Ok(Change::Put {
        key: key(text, version)?,
        start: 1000,
        length: u32::try_from(place)?,
    })
}

// All of them put in, every seventh first.
fn changes(alloc: Global) -> Result<Vec<Change>, Fail> {
    (0..140usize)
        .step_by(7)
        .map(|i: usize| put(i % 20))
        .try_collect(alloc)
}

// The place of the row that an entry is of, if there is one.
fn place_of(entry: Option<Entry>) -> Option<u32> {
    entry.map(|entry: Entry| entry.length)
}

// What a lookup of each key, and of what is above it, tells.
fn keys_tell(rt: &impl Abort, register: &Lookup<'_, [u8; 512]>) -> Result<(), Fail> {
    assert_eq!(rt; place_of(register.above(&Bound::lowest())), Some(0));
    for (place, (text, version)) in (0..20u32).zip(IN_TURN) {
        let key = key(text, version)?;
        let bound = Bound { bytes: key.bytes };
        // An `if`: `then_some` was tried, which makes the sum at every place, and that it fits was then not proved.
        let next = if place < 19 { Some(place + 1) } else { None };
        assert_eq!(rt; place_of(register.find(&key)), Some(place));
        assert_eq!(rt; place_of(register.above(&bound)), next);
    }
    Ok(())
}

// Keys that are not there.
const MISSING: [Row; 6] = [
    (b"-", 2),
    (b"R", 2),
    (b"R1", 3),
    (b"R100", 4),
    (b"R5", 2),
    (b"Z", 9999),
];

// Bounds, and the places of the rows above them.
const ABOVE: [(Row, Option<u32>); 10] = [
    ((b"", 9999), Some(0)),
    ((b"-", 0), Some(0)),
    ((b"R", 0), Some(4)),
    ((b"R", 9998), Some(5)),
    ((b"R1", 3), Some(9)),
    ((b"R1", u16::MAX), Some(11)),
    ((b"R10", 0), Some(11)),
    ((b"R2", 1), Some(13)),
    ((b"Z", 1), Some(19)),
    ((b"ZZZZZZZZZZZZZZZZZZZZ", 10000), None),
];

// What there is at missing keys, and above bounds.
fn bounds_tell(rt: &impl Abort, register: &Lookup<'_, [u8; 512]>) -> Result<(), Fail> {
    for (text, version) in &MISSING {
        assert!(rt;
            register.find(&key(*text, *version)?).is_none(),
            "{}",
            version
        );
    }
    for ((text, version), place) in &ABOVE {
        let bound = Bound::new(*text, *version)?;
        assert_eq!(rt; place_of(register.above(&bound)), *place, "{}", version);
    }
    Ok(())
}

// Names, and the places and versions of their newest.
const NEWEST: [(&'static [u8], Option<u32>, Option<u16>); 12] = [
    (b"-", Some(0), Some(1)),
    (b"R", Some(5), Some(9999)),
    (b"R-5", Some(6), Some(7)),
    (b"R1", Some(10), Some(9999)),
    (b"R10", Some(11), Some(4)),
    (b"R100", None, None),
    (b"R1000000000000000000", Some(12), Some(1)),
    (b"R5", Some(15), Some(257)),
    (b"ROUND-1", Some(16), Some(1)),
    (b"ROUND", None, None),
    (b"Z", Some(18), Some(1)),
    (b"ZZ", None, None),
];

// The number of a name's highest version.
fn highest(register: &Lookup<'_, [u8; 512]>, name: &Name) -> Option<u16> {
    register
        .highest_version(name)
        .map(|version: Version| version.number)
}

fn names_tell(rt: &impl Abort, register: &Lookup<'_, [u8; 512]>) -> Result<(), Fail> {
    for (text, place, version) in &NEWEST {
        let name = Name::new(*text)?;
        assert_eq!(rt; place_of(register.newest(&name)), *place, "{:?}", version);
        assert_eq!(rt; highest(register, &name), *version);
    }
    Ok(())
}

#[test]
fn told(rt: HostRuntime) -> Result<(), Fail> {
    let mut pages = [[0; 512]; 3];
    let changes = changes(rt.alloc())?;
    assert_eq!(rt; replay(&mut pages, changes.as_slice()), 20);
    let register = Lookup::over(&pages);
    keys_tell(&rt, &register)?;
    bounds_tell(&rt, &register)?;
    names_tell(&rt, &register)
}

// R1 in the versions 1 to 9 and then R2 in the versions 1 to 7, with the lengths 1 to 16.
fn nine_and_seven(n: u16) -> Result<Change, Fail> {
    let key = if n < 10 {
        key(b"R1", n)?
    } else {
        key(b"R2", n - 9)?
    };
    Ok(Change::Put {
        key,
        start: 1000,
        length: u32::from(n),
    })
}

// A version of R1 is taken out.
fn take_one(version: u16) -> Result<Change, Fail> {
    Ok(Change::Take {
        key: key(b"R1", version)?,
    })
}

// The second leaf begins with version 9 of R1, which is taken out: its leaf then has no entry below those of R2.
#[test]
fn newest_on_the_leaf_before(rt: HostRuntime) -> Result<(), Fail> {
    let mut pages = [[0; 512]; 3];
    let mut changes = Vec::new(rt.alloc());
    add(
        &mut changes,
        rising(rt.alloc(), 1, 16)?.as_slice(),
        nine_and_seven,
    )?;
    let ninth = key(b"R1", 9)?;
    assert_eq!(rt; replay(&mut pages, changes.as_slice()), 16);
    let mut register = Register::over(&mut pages);
    let taken = register.take_out(&ninth).ok_or("version 9 is missing")?;
    assert_eq!(rt; (taken.start, taken.length), (1000, 9));
    let name = Name::new(b"R1")?;
    let look = register.look();
    assert_eq!(rt;
        (look.page_of(&key(b"R1", 8)?), look.page_of(&ninth)),
        (1, 2)
    );
    assert_eq!(rt; place_of(look.newest(&name)), Some(8));
    assert_eq!(rt; highest(&look, &name), Some(8));
    assert_eq!(rt; place_of(look.above(&Bound::at(&name, 8))), Some(10));
    assert_eq!(rt; place_of(look.above(&Bound::at(&name, 9))), Some(10));
    add(&mut changes, rising(rt.alloc(), 1, 9)?.as_slice(), take_one)?;
    assert_eq!(rt; replay(&mut pages, changes.as_slice()), 25);
    let register = Lookup::over(&pages);
    assert!(rt; register.newest(&name).is_none());
    assert_eq!(rt; highest(&register, &name), None);
    assert_eq!(rt; place_of(register.above(&Bound::lowest())), Some(10));
    Ok(())
}
