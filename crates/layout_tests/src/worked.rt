// Worked sectors: their bytes, the values that they decode to, and that each bit of the tag and of the bytes after the fields counts.
use crate::kinds::is_right;
use geometry::third::Third;
use layout::anchor::Anchor;
use layout::carried::Carried;
use layout::end::RecordEnd;
use layout::head::RecordHead;
use layout::header::Header;
use layout::leader::Leader;
use padding::fitted;
use std::process::Abort;

const BITS: [u8; 8] = [1, 2, 4, 8, 16, 32, 64, 128];

// Checks that a sector is not right when one bit of the byte at `i` is turned over, whichever it is.
// The tests of pages turn bits over as well: one function for both would be library code, which may not abort, and its contract would say no less than the loop.
fn turned<C: Carried + Drop>(rt: &impl Abort, known: C::Known, sector: &[u8; 512], i: usize) {
    assert!(rt; i < 512);
    for bit in BITS {
        let mut other = *sector;
        other[i] ^= bit;
        assert!(rt; !is_right::<C>(&other, known), "{}", i);
    }
}

// Checks that the sector of a value holds these bytes and then zeros, that the value comes back from it, and that each bit of the tag and of those zeros counts.
fn both_ways<C: Carried + PartialEq + Drop>(
    rt: &impl Abort,
    value: C,
    known: C::Known,
    fields: &[u8],
) {
    let mut sector = [255; 512];
    value.encode(&mut sector);
    assert!(rt; sector == fitted(fields));
    assert!(rt; C::decode(&sector, known) == Some(value));
    for i in (0..4).chain(fields.len()..512) {
        turned::<C>(rt, known, &sector, i);
    }
}

#[test]
fn headers(rt: HostRuntime) {
    let small = Header {
        pages: 4,
        third: 14,
        sectors: 120,
    };
    both_ways(&rt, small, 120, b"FSDV\x01\x04\0\x0e\0\0\0\x78");
    let large = Header {
        pages: 21,
        third: 1000,
        sectors: 66051,
    };
    both_ways(&rt, large, 66051, b"FSDV\x01\x15\x03\xe8\0\x01\x02\x03");
}

#[test]
fn anchors(rt: HostRuntime) {
    let first = Anchor {
        third: Third::Zero,
        group: 2,
    };
    both_ways(&rt, first, (), b"FSDA\0\0\0\0\x02");
    let second = Anchor {
        third: Third::One,
        group: 0x01020304,
    };
    both_ways(&rt, second, (), b"FSDA\x01\x01\x02\x03\x04");
    let last = Anchor {
        third: Third::Two,
        group: u32::MAX,
    };
    both_ways(&rt, last, (), b"FSDA\x02\xff\xff\xff\xff");
}

#[test]
fn heads(rt: HostRuntime) {
    let mut pages = [0; 21];
    pages[0] = 1;
    let one = RecordHead {
        group: 2,
        count: 1,
        pages,
    };
    both_ways(&rt, one, 4, b"FSDH\0\0\0\x02\x01\x01");
    pages[1] = 3;
    let two = RecordHead {
        group: 0x01020304,
        count: 2,
        pages,
    };
    both_ways(&rt, two, 4, b"FSDH\x01\x02\x03\x04\x02\x01\x03");
}

#[test]
fn ends(rt: HostRuntime) {
    let small = RecordEnd { group: 2, count: 1 };
    both_ways(&rt, small, (), b"FSDE\0\0\0\x02\x01");
    let large = RecordEnd {
        group: 0x01020304,
        count: 21,
    };
    both_ways(&rt, large, (), b"FSDE\x01\x02\x03\x04\x15");
}

#[test]
fn leaders(rt: HostRuntime) {
    let short = Leader {
        key: *b"R5\0\0\0\0\0\0\0\0\0\0\0\0\0\0\0\0\0\0\0\x01",
        length: 40,
    };
    both_ways(
        &rt,
        short,
        (),
        b"FSDLR5\0\0\0\0\0\0\0\0\0\0\0\0\0\0\0\0\0\0\0\x01\0\0\0\x28",
    );
    let long = Leader {
        key: *b"ABCDEFGHIJKLMNOPQRST\x27\x0f",
        length: 8192,
    };
    both_ways(&rt, long, (), b"FSDLABCDEFGHIJKLMNOPQRST\x27\x0f\0\0\x20\0");
}
