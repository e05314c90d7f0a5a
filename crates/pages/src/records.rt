// The records of a register: the items of its root, and the entries of its leaves.
ghost use Rattle.std.specs.Prelude.{◌≡◌, ◌+◌, ◌≤◌, length, take, drop};
ghost use Rattle.pages.specs.Records.{item_bytes, item_of, ItemFit, entry_bytes, entry_of, EntryFit};
ghost use Rattle.pages.specs.Fields.{item-long, item-back, item-fits, entry-long, entry-back, entry-fits};

use crate::stored::Stored;
use rows::keyed::Keyed;

/// The letter of the root.
pub const ROOT: u8 = b'R';

/// The letter of a leaf.
pub const LEAF: u8 = b'L';

/// The most items of the root.
pub const MOST_ITEMS: usize = 20;

/// The most entries of a leaf.
pub const MOST_ENTRIES: usize = 15;

// The bytes of a buffer from a place on, as many as are asked for.
fn bytes_at<const N: usize>(buf: &[u8], at: usize) -> [u8; N]
    requires { at + N ≤ length buf.now }
    ensures { result ≡ take N (drop at buf.now) }
{
    *buf[at..].first_chunk().unwrap()
}

// A separator and a key are bytes here. A `Key` is too little: a page may hold bytes that are no key, and the check of a register has to read them. A `Bound` is no plainer: each clause would name its bytes a field deeper, and of all that a `Bound` has only its order is used, which arrays have.

/// An item of the root: the keys from its separator on, up to that of the next item, belong to its page.
// The page is named by its number, which is its form on the disk.
#[derive(Clone, Copy, Debug, Default, PartialEq, Eq)]
pub struct Item {
    pub separator: [u8; 22],
    pub page: u16,
}

/// An entry of a leaf: a key, and the start and the length that it gives.
#[derive(Clone, Copy, Debug, Default, PartialEq, Eq)]
pub struct Entry {
    pub key: [u8; 22],
    pub start: u32,
    pub length: u32,
}

impl Keyed for Item {
    type Key = [u8; 22];

    ghost key = { λ i. i.separator };

    #[tactic(auto, using(rows::proofs::KeyOrder::bytes_total))]
    fn key(&self) -> [u8; 22] {
        self.separator
    }
}

impl Keyed for Entry {
    type Key = [u8; 22];

    ghost key = { λ e. e.key };

    #[tactic(auto, using(rows::proofs::KeyOrder::bytes_total))]
    fn key(&self) -> [u8; 22] {
        self.key
    }
}

impl Stored for Item {
    ghost WIDE = { 24 };

    const WIDE: usize = 24;

    ghost bytes = { item_bytes };

    ghost value = { item_of };

    ghost fit = { ItemFit };

    ghost long = { item-long };

    ghost back = { item-back };

    ghost fits = { item-fits };

    fn write(&self, buf: &mut [u8]) {
        buf[..22].copy_from_slice(&self.separator);
        buf[22..].copy_from_slice(&self.page.to_be_bytes());
    }

    fn read(buf: &[u8]) -> Item {
        Item {
            separator: bytes_at(buf, 0),
            page: u16::from_be_bytes(bytes_at(buf, 22)),
        }
    }
}

impl Stored for Entry {
    ghost WIDE = { 32 };

    const WIDE: usize = 32;

    ghost bytes = { entry_bytes };

    ghost value = { entry_of };

    ghost fit = { EntryFit };

    ghost long = { entry-long };

    ghost back = { entry-back };

    ghost fits = { entry-fits };

    fn write(&self, buf: &mut [u8]) {
        buf[..22].copy_from_slice(&self.key);
        buf[22..26].copy_from_slice(&self.start.to_be_bytes());
        buf[26..30].copy_from_slice(&self.length.to_be_bytes());
        buf[30..].copy_from_slice(&[0, 0]);
    }

    fn read(buf: &[u8]) -> Entry {
        Entry {
            key: bytes_at(buf, 0),
            start: u32::from_be_bytes(bytes_at(buf, 22)),
            length: u32::from_be_bytes(bytes_at(buf, 26)),
        }
    }
}
