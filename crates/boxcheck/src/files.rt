// The register of the small volume: some files are put in, one is taken out again, and what is left is listed.
ghost use Rattle.std.specs.Prelude.{◌≤◌, length, map};
ghost use Rattle.register.specs.Registers.{IsRegister};

use crate::lines::FileLine;
use crate::listing::{IMAGES, PLACES};
use anyhow::{Context, bail, ensure};
use geometry::geometry::Geometry;
use names::key::Key;
use pages::paged::Paged;
use register::lookups::Lookup;
use register::replay::{Change, replay};
use register_check::check::check;
use register_check::extents::Area;

// The key of a file.
fn key(text: &[u8], version: u16) -> anyhow::Result<Key> {
    Key::of(text, version).context("a name or a version of a file is bad")
}

/// A file of so many bytes is put in, from a sector on.
pub fn put(text: &[u8], version: u16, start: u32, length: u32) -> anyhow::Result<Change> {
    Ok(Change::Put {
        key: key(text, version)?,
        start,
        length,
    })
}

/// Five files are put in, and one is taken out.
// No table that is mapped to changes: each of them can be refused, and a map to an array has no `?`.
pub fn changes() -> anyhow::Result<[Change; 6]> {
    Ok([
        put(b"R5", 1, 60, 40)?,
        put(b"ROUND-1", 1, 63, 512)?,
        put(b"R10", 1, 66, 1200)?,
        put(b"ROUND-1", 2, 71, 530)?,
        put(b"R10", 2, 75, 8192)?,
        Change::Take {
            key: key(b"ROUND-1", 1)?,
        },
    ])
}

// Prints a line for each file of a register, in the order of keys, and says how many there are.
fn list_files<P: Paged>(rt: &HostRuntime, register: &Lookup<'_, P>) -> anyhow::Result<usize> {
    println!(rt; "name                  version   start  length  page")?;
    let mut files = 0usize;
    for entry in register.entries() {
        let key = Key::from_bytes(&entry.key).context("a key of the register is bad")?;
        let line = FileLine {
            key,
            start: entry.start,
            length: entry.length,
            page: register.page_of(&key),
        };
        println!(rt; "{line}")?;
        files = files.saturating_add(1);
    }
    Ok(files)
}

/// Carries out changes on a fresh register, all of them.
pub fn fill<P: Paged>(pages: &mut [P], changes: &[Change]) -> anyhow::Result<()>
    requires least { 2 ≤ length pages.old }
    requires most { length pages.old ≤ 21 }
    ensures { IsRegister (length pages.old) (map P.image pages.new) }
{
    let done = replay(pages, changes);
    ensure!(done == changes.len(), "the register is full");
    Ok(())
}

/// Fills the register of a small volume, lists its files and checks its rules.
pub fn show_register(rt: &HostRuntime, geometry: &Geometry) -> anyhow::Result<()> {
    let mut pages = [[0; 512]; IMAGES];
    fill(&mut pages, &changes()?)?;
    println!(rt; "REGISTER: five files put in, then ROUND-1.1 taken out")?;
    let files = list_files(rt, &Lookup::over(&pages))?;
    let free = PLACES.saturating_sub(files);
    println!(rt; "{files} files, {free} of {PLACES} places free")?;
    let area = Area {
        first: geometry.data_start(),
        sectors: geometry.sectors,
    };
    if let Err(refusal) = check(&pages, area) {
        let page = refusal.place().context("a rule of the register is broken")?;
        bail!("page {page} of the register breaks a rule");
    }
    println!(rt; "the rules of the register are kept, and no two files meet")?;
    Ok(())
}
