// How many records a page may say that it has.
use crate::kinds::{entries_on, items_on};
use pages::page::write_page;
use pages::records::{Entry, Item, LEAF, MOST_ENTRIES, MOST_ITEMS, ROOT};
use std::process::Abort;

// An entry of zeros but for its length.
fn entry() -> Entry {
    Entry {
        length: 40,
        ..Entry::default()
    }
}

// Checks how many records are on a page once its byte 2 is each of these counts.
fn tells<F: Fn(&[u8; 512]) -> Option<usize>>(
    rt: &impl Abort,
    page: &[u8; 512],
    records_on: F,
    counts: &[(u8, Option<usize>)],
)
    requires { F.IsAlwaysCallable records_on }
{
    let mut page = *page;
    for (count, told) in counts {
        page[2] = *count;
        assert_eq!(rt; records_on(&page), *told, "{}", count);
    }
}

#[test]
fn of_leaves(rt: HostRuntime) {
    let mut page = [0; 512];
    write_page(LEAF, &[entry(); MOST_ENTRIES], &mut page);
    let counts = [
        (15, Some(15)),
        (0, None),
        (1, None),
        (14, None),
        (16, None),
        (20, None),
        (255, None),
    ];
    tells(&rt, &page, entries_on, &counts);
}

#[test]
fn of_roots(rt: HostRuntime) {
    let mut page = [0; 512];
    let item = Item {
        page: 1,
        ..Item::default()
    };
    write_page(ROOT, &[item; MOST_ITEMS], &mut page);
    let counts = [
        (20, Some(20)),
        (0, None),
        (1, None),
        (19, None),
        (21, None),
        (255, None),
    ];
    tells(&rt, &page, items_on, &counts);
}

// Behind the last record a leaf has zeros, and these are records too: only a register tells that they have no keys.
#[test]
fn of_zeros(rt: HostRuntime) {
    let mut page = [0; 512];
    write_page(LEAF, &[entry(); 2], &mut page);
    let counts = [
        (1, None),
        (2, Some(2)),
        (3, Some(3)),
        (15, Some(15)),
        (16, None),
    ];
    tells(&rt, &page, entries_on, &counts);
}
