// A disk that notes what is done on it, over any disk.
ghost use Rattle.std.specs.Prelude.{◌≡◌};
ghost use Rattle.disk.specs.Sectors.{DiskState};

use crate::bytes::Bytes;
use crate::calls::{Answer, Call, Step, play};
use disk::disks::Disk;
use disk::faults::Fault;
use image::Image;
use journal::journal::Journal;
use std::process::Abort;

/// The disk below, the number of starts, reads and writes that were done, the number of those writes, and the sectors of the first 64 of them.
#[derive(Drop)]
pub struct Noting<D> {
    below: D,
    calls: u32,
    writes: u32,
    sectors: [u32; 64],
}

impl<D> Noting<D> {
    /// Over a disk, with nothing noted.
    pub fn new(below: D) -> Noting<D> {
        Noting {
            below,
            calls: 0,
            writes: 0,
            sectors: [0; 64],
        }
    }

    // Counts a call that was done.
    fn count_call(&mut self)
        ensures { self.new.below ≡ self.old.below }
    {
        self.calls = self.calls.saturating_add(1);
    }

    // Notes a write that was done.
    fn note(&mut self, sector: u32)
        ensures { self.new.below ≡ self.old.below }
    {
        if let Some(place) = self.sectors.get_mut(self.writes as usize) {
            *place = sector;
        }
        self.writes = self.writes.saturating_add(1);
    }
}

impl<D: Disk> Disk for Noting<D> {
    ghost state = { λ d. D.state d.below };

    ghost sound = { λ d. D.sound d.below };

    ghost layers = { λ d. D.layers d.below };

    fn count(&self) -> u32 {
        self.below.count()
    }

    fn start(&mut self) -> Result<(), Fault> {
        self.below.start()?;
        self.count_call();
        Ok(())
    }

    fn read(&mut self, sector: u32, buffer: &mut [u8; 512]) -> Result<(), Fault> {
        self.below.read(sector, buffer)?;
        self.count_call();
        Ok(())
    }

    fn write(&mut self, sector: u32, bytes: &[u8; 512]) -> Result<(), Fault> {
        self.below.write(sector, bytes)?;
        self.count_call();
        self.note(sector);
        Ok(())
    }
}

/// A call of a script, its answer, and the sectors that it writes, in their order.
pub type Row = (Call, Answer, &'static [u32]);

// Plays a script on a new journal over a disk.
fn play_over<D: Disk>(rt: &impl Abort, disk: &mut D, script: &[Step]) {
    play(rt, &"noting", &mut Journal::new(disk), script);
}

// Plays the calls of rows on a new journal over a disk.
fn play_rows<D: Disk>(rt: &impl Abort, disk: &mut D, rows: &[Row]) {
    let mut journal = Journal::new(disk);
    for (i, (call, answer, _)) in rows.iter().enumerate() {
        play(rt, &i, &mut journal, &[(*call, *answer)]);
    }
}

/// Plays a script on a new journal over the image in `bytes`, and checks what is written.
pub fn on_noting(rt: &impl Abort, bytes: &mut [u8], rows: &[Row]) {
    let mut noting = Noting::new(Image::new(bytes));
    play_rows(rt, &mut noting, rows);
    let mut written = noting.sectors.iter().take(noting.writes as usize);
    for (i, (_, _, sectors)) in rows.iter().enumerate() {
        for sector in *sectors {
            assert_eq!(rt; written.next(), Some(sector), "{}", i);
        }
    }
    assert!(rt; written.next().is_none());
}

/// How many starts, reads and writes a script does, and how many of them are writes.
pub fn calls_of(rt: &impl Abort, bytes: &Bytes, script: &[Step]) -> (u32, u32) {
    let mut bytes = *bytes;
    let mut noting = Noting::new(Image::new(&mut bytes));
    play_over(rt, &mut noting, script);
    (noting.calls, noting.writes)
}
