// Pages that are lent for changes: a register made, entries put in and taken out.
ghost use Rattle.std.specs.Prelude.{◌≡◌, ◌≤◌, false, [], map, length, None};
ghost use Rattle.names.specs.Orders.{before};
ghost use Rattle.rows.specs.Lists.{look_up};
ghost use Rattle.pages.specs.Writes.{wrote};
ghost use Rattle.register.specs.Calls.{PutsIn, TakesOut};
ghost use Rattle.register.specs.Changes.{Carries};
ghost use Rattle.register.specs.Fresh.{fresh_pages, fresh_writes};
ghost use Rattle.register.specs.Images.{key_of, entry, entries_of, is_full, put_writes, take_writes};
ghost use Rattle.register.specs.Registers.{IsRegister};
ghost use Rattle.register.specs.OneProof.{IsRegister-prop};
ghost use Rattle.register.specs.Seats.{Seated};

use crate::fresh::write_fresh;
use crate::lookups::Lookup;
use crate::replay::Change;
use crate::roots::{drop_item, split};
use crate::seats::{Seat, write_records};
use names::key::Key;
use pages::paged::Paged;
use pages::records::{Entry, LEAF, MOST_ENTRIES};
use refusal::Refusal;

/// Pages that are lent for changes and hold a register.
// `pages` is public for the reason that stands at `Lookup`.
#[derive(Drop)]
pub struct Register<'a, P: Paged> {
    pub pages: &'a mut [P],
    ghost kept: { IsRegister (length pages.now) (map P.image pages.now) } by { IsRegister-prop (length pages.now) (map P.image pages.now) },
}

// Puts an entry into the leaf of its seat; there is room for it.
fn put_at_seat<P: Paged>(pages: &mut [P], mut seat: Seat, new: Entry)
    requires seated { Seated (length pages.old) (map P.image pages.old) new.key seat }
    requires room { is_full (length pages.old) (map P.image pages.old) new.key ≡ false }
    ensures { pages.new ≡ wrote P.written (put_writes (length pages.old) new (map P.image pages.old)) pages.old }
{
    let place = seat.place;
    seat.leaf.put_in(place, new);
    if seat.leaf.len() <= MOST_ENTRIES {
        write_records(pages, seat.page, LEAF, seat.leaf.as_slice());
    } else {
        split(pages, seat);
    }
}

// Takes the entry of a key out, which is there.
fn take_at_seat<P: Paged>(pages: &mut [P], key: &[u8; 22], mut seat: Seat)
    requires seated { Seated (length pages.old) (map P.image pages.old) key.now seat }
    requires there { 1 ≤ seat.place }
    ensures { pages.new ≡ wrote P.written (take_writes key.now (map P.image pages.old)) pages.old }
{
    let last = seat.place - 1;
    seat.leaf.take_out(last);
    write_records(pages, seat.page, LEAF, seat.leaf.as_slice());
    if seat.items.len() > 1 && seat.leaf.len() == 0 {
        drop_item(pages, seat);
    }
}

impl<'a, P: Paged> Register<'a, P> {
    /// The register on these pages.
    pub fn over(pages: &'a mut [P]) -> Register<'a, P>
        requires { IsRegister (length pages.old) (map P.image pages.old) }
        ensures same { result.pages.now ≡ pages.old }
        ensures named { result.pages.ghost_name ≡ pages.entry.ghost_name }
    {
        Register { pages }
    }

    /// Writes the pages of a fresh volume: a register with no entries.
    // The number of pages, 2 to 21, is asked by each call that takes any pages: a type for so many pages would only move the question to whoever makes a value of it.
    pub fn format(pages: &'a mut [P]) -> Register<'a, P>
        requires least { 2 ≤ length pages.old }
        requires most { length pages.old ≤ 21 }
        ensures writes { result.pages.now ≡ wrote P.written (fresh_writes 0 (length pages.old)) pages.old }
        ensures images { map P.image result.pages.now ≡ fresh_pages (length pages.old) }
        ensures empty { entries_of (map P.image result.pages.now) ≡ [] }
        ensures long { length result.pages.now ≡ length pages.old }
        ensures named { result.pages.ghost_name ≡ pages.entry.ghost_name }
    {
        write_fresh(pages);
        Register::over(pages)
    }

    /// The same pages, for look ups.
    pub fn look(&self) -> Lookup<'_, P>
        ensures { result.pages.now ≡ self.now.pages.now }
    {
        Lookup { pages: self.pages }
    }

    /// Puts in an entry whose key is not there, or refuses with 5 if its leaf is full and no leaf may be added; then nothing changes.
    // Key, start and length come apart: the bytes in an `Entry` need be no key, and callers have the three apart too, as in `Change::Put`.
    pub fn put_in(&mut self, key: &Key, start: u32, len: u32) -> Result<(), Refusal>
        requires { look_up key_of before key.now.bytes (entries_of (map P.image self.old.pages.now)) ≡ None }
        ensures done { PutsIn P.image P.written (entry key.now.bytes start len) self.old.pages.now result self.new.pages.now }
        ensures named { self.new.pages.ghost_name ≡ self.old.pages.ghost_name }
    {
        let seat = self.look().home(&key.bytes);
        if !seat.has_room(self.pages.len()) {
            return Err(Refusal::RegisterFull);
        }
        let new = Entry {
            key: key.bytes,
            start,
            length: len,
        };
        put_at_seat(self.pages, seat, new);
        Ok(())
    }

    /// Takes the entry of a key out and answers it; if there is none, nothing changes.
    pub fn take_out(&mut self, key: &Key) -> Option<Entry>
        ensures done { TakesOut P.image P.written key.now.bytes self.old.pages.now result self.new.pages.now }
        ensures named { self.new.pages.ghost_name ≡ self.old.pages.ghost_name }
    {
        let found = self.look().find(key)?;
        let seat = self.look().home(&key.bytes);
        take_at_seat(self.pages, &key.bytes, seat);
        Some(found)
    }

    /// Carries out a change, or refuses it with 5; then nothing changes.
    pub fn carry_out(&mut self, change: &Change) -> Result<(), Refusal>
        ensures done { Carries P.image P.written change.now self.old.pages.now result self.new.pages.now }
        ensures named { self.new.pages.ghost_name ≡ self.old.pages.ghost_name }
    {
        match change {
            Change::Put { key, start, length } => {
                if self.look().find(key).is_some() {
                    return Ok(());
                }
                self.put_in(key, *start, *length)
            }
            Change::Take { key } => {
                let _ = self.take_out(key);
                Ok(())
            }
        }
    }
}
