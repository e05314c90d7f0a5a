// A row of records, and the same calls on records that are lent.
ghost use Rattle.std.specs.Prelude.{◌≡◌, ◌-◌, ◌<◌, ◌≤◌, List, map, length, take, slice_set};
ghost use Rattle.rows.specs.Lists.{comes_before, up_to, put_at, without};

use crate::keyed::Keyed;
use std::marker::Model;

/// At most `N` records, whose users keep them in the order of their keys. `docs/CALLS.md` says what its calls do.
// Not the library's `ArrayVec`: to take a record out it asks for a `Default` of the records, which was never asked of those who take one out of a row.
#[derive(Drop)]
pub struct Row<R, const N: usize> {
    records: [R; N],
    count: usize,
}

// Clauses see the records of the row, and not those behind them.
impl<R, const N: usize> Model for Row<R, N> {
    ghost Value = { List R };

    ghost view = { λ r. take r.count r.records };

    ghost invariant = { λ r. r.count ≤ N };
}

impl<R, const N: usize> Row<R, N> {
    /// The first `count` of these records.
    pub fn of(records: [R; N], count: usize) -> Row<R, N>
        requires { count ≤ N }
        ensures { result ≡ take count records }
    {
        Row { records, count }
    }

    /// How many records there are.
    pub fn len(&self) -> usize
        ensures value { result ≡ length self.now }
        ensures within { length self.now ≤ N }
    {
        self.count
    }

    /// The records.
    pub fn as_slice(&self) -> &[R]
        ensures records { result.now ≡ self.now }
        ensures within { length self.now ≤ N }
    {
        &self.records[..self.count]
    }
}

impl<R: Copy, const N: usize> Row<R, N> {
    /// Puts a record in at a place; those from there on move up by one.
    pub fn put_in(&mut self, at: usize, new: R)
        requires room { length self.old < N }
        requires inside { at ≤ length self.old }
        ensures { self.new ≡ put_at self.old at new }
    {
        put_into(&mut self.records[..self.count + 1], at, new);
        self.count += 1;
    }

    /// Takes the record at a place out; those behind it move down by one.
    pub fn take_out(&mut self, at: usize)
        requires { at < length self.old }
        ensures { self.new ≡ without self.old at }
    {
        take_from(&mut self.records[..self.count], at);
        self.count -= 1;
    }

    /// Puts another record in the place of one.
    pub fn replace(&mut self, at: usize, new: R)
        requires { at < length self.old }
        ensures { self.new ≡ slice_set self.old at new }
    {
        let among = &mut self.records[..self.count];
        among[at] = new;
    }
}

impl<R: Keyed, const N: usize> Row<R, N> {
    /// How many records have a key that is not above `wanted`: the last of them is where `wanted` would be found, and the next one is the lowest above it.
    pub fn find(&self, wanted: &R::Key) -> usize
        ensures bound { result ≤ length self.now }
        ensures value { result ≡ up_to (comes_before R.Key.cmp) wanted.now (map R.key self.now) }
    {
        place_in(&self.records[..self.count], wanted)
    }
}

// The next three are over records that are lent: a `Row` would be a copy of them, and the memory of a volume is fixed.

/// How many of the records have a key that is not above `wanted`, from the first on.
pub fn place_in<R: Keyed>(records: &[R], wanted: &R::Key) -> usize
    ensures bound { result ≤ length records.now }
    ensures value { result ≡ up_to (comes_before R.Key.cmp) wanted.now (map R.key records.now) }
{
    // From the front: `partition_point` and `binary_search_by` answer this only where keys rise, which nothing asks of these records.
    records
        .iter()
        .position(|r| *wanted < r.key())
        .unwrap_or(records.len())
}

/// Puts a record in at a place among the records and one place more behind them; those from there on move up by one, over that place.
pub fn put_into<R: Copy>(records: &mut [R], at: usize, new: R)
    requires { at < length records.old }
    ensures { records.new ≡ put_at (take (length records.old - 1) records.old) at new }
{
    records[at..].rotate_right(1);
    records[at] = new;
}

/// Takes the record at a place out; those behind it move down by one, and what the last place holds then is not said.
pub fn take_from<R: Copy>(records: &mut [R], at: usize)
    requires { at < length records.old }
    ensures { take (length records.old - 1) records.new ≡ without records.old at }
{
    records[at..].rotate_left(1);
}
