// The box check: a score sheet on two sectors, through a power cut in every manner at every write, and a small volume with its journal, with a report for the fitter.
#![tactic(auto)]

mod cuts;
mod files;
mod groups;
mod images;
mod journal_lines;
mod journal_part;
mod lines;
mod listing;
mod losses;
mod report;
mod tally;
mod trials;

use crate::journal_part::show_journal;
use crate::lines::{Line, Places};
use crate::tally::Tally;
use crate::trials::{Came, Failure, Sheets, Stopped};
use anyhow::{Context, ensure};
use cases::worked_cases;
use disk::disks::Disk;
use failing::manner::Manner;
use geometry::geometry::Geometry;
use image::Image;
use layout::tagged::tag_of;
use sheet::page::page_of;
use std::env;

const OLD: &str = "ROUND 2: ADAMS 1.5, BAKER 1.0, CHEN 0.5";

const NEW: &str = "ROUND 3: ADAMS 2.5, BAKER 1.0, CHEN 1.5";

// The words of the command line, joined by spaces, or the usual new sheet where there are none.
fn new_sheet(rt: &HostRuntime) -> anyhow::Result<String> {
    let words: Vec<String> = env::args(rt)?.skip(1).collect(rt.alloc())?;
    let text = words.join(rt.alloc(), " ")?;
    if text.is_empty() {
        return Ok(String::from_str(rt.alloc(), NEW)?);
    }
    Ok(text)
}

// Carries out one trial and prints its line.
fn show(rt: &HostRuntime, sheets: &Sheets, failure: Failure) -> anyhow::Result<Came> {
    match sheets.carry_out(rt.alloc(), failure) {
        Ok(trial) => {
            println!(rt; "{trial}")?;
            Ok(trial.came)
        }
        Err(refused @ Stopped::Refused(_)) => {
            // No count of its own, which would be no plainer: it read back neither sheet, and that is what `other` counts.
            println!(rt; "{refused}")?;
            Ok(Came::Other)
        }
        Err(Stopped::NoMemory(lack)) => Err(lack.into()),
    }
}

fn head(rt: &HostRuntime, new: &str) -> anyhow::Result<()> {
    println!(rt;
        "BOX CHECK: one score sheet, two copies, a power cut in every manner at every write"
    )?;
    println!(rt; "disk       an image of 16 sectors")?;
    println!(rt; "window     sectors 3 to 12 of the disk, as sectors 0 to 9")?;
    println!(rt; "copies     sectors 2 and 4 of the window")?;
    println!(rt; "old sheet  {OLD}")?;
    println!(rt; "new sheet  {new}")?;
    println!(rt; "")?;
    println!(rt;
        "{:<21}{:<46}{:<16}{}",
        "cut in the write of", "what the cut leaves", "sectors 1 to 5", "read back"
    )?;
    Ok(())
}

fn run(rt: &HostRuntime) -> anyhow::Result<bool> {
    let text = new_sheet(rt)?;
    let old = page_of(OLD)?;
    let new = match page_of(text.as_str()) {
        Ok(new) => new,
        Err(refusal) => {
            println!(rt; "refused: {refusal}: a sheet has at most 512 bytes")?;
            return Ok(false);
        }
    };
    head(rt, text.as_str())?;
    let sheets = Sheets { old, new };
    let mut tally = Tally::default();
    for calls in 0..2u32 {
        for manner in Manner::ALL {
            tally.add(show(rt, &sheets, Failure { calls, manner })?);
        }
    }
    println!(rt; "")?;
    println!(rt; "{tally}")?;
    Ok(tally.passed())
}

// Prints each sector of a disk that carries a tag.
fn list<D: Disk>(rt: &HostRuntime, disk: &mut D) -> anyhow::Result<()> {
    println!(rt; "sector  carries{:<40}first bytes", "")?;
    for sector in 0..listing::SECTORS {
        let mut bytes = [0u8; 512];
        disk.read(sector, &mut bytes)
            .context("the disk could not be read")?;
        if let Some(tagged) = tag_of(&bytes, listing::SECTORS, listing::PAGES) {
            let line = Line {
                sector,
                tagged,
                first: &bytes[..12],
            };
            println!(rt; "{line}")?;
        }
    }
    Ok(())
}

// Writes the tagged sectors of a small volume on a fresh image and shows them.
fn show_sectors(rt: &HostRuntime) -> anyhow::Result<()> {
    let mut bytes: Vec<u8> = vec![in rt.alloc(); 0; listing::SECTORS as usize * 513]?;
    let mut disk = Image::new(bytes.as_mut_slice());
    listing::write_all(&mut disk).context("the disk could not be written")?;
    list(rt, &mut disk)?;
    let cases = worked_cases();
    println!(rt; "{cases} worked cases of the format hold by proof")?;
    Ok(())
}

// The geometry of the small volume.
fn small_volume() -> anyhow::Result<Geometry> {
    Geometry::new(
        u32::from(listing::PAGES),
        u32::from(listing::THIRD),
        listing::SECTORS,
    )
    .context("the numbers of the volume are bad")
}

// Shows where a small volume has what, its tagged sectors, its register and its journal, and tells whether the journal passed.
fn show_volume(rt: &HostRuntime) -> anyhow::Result<bool> {
    let geometry = small_volume()?;
    println!(rt; "{}", Places(geometry))?;
    show_sectors(rt)?;
    println!(rt; "")?;
    files::show_register(rt, &geometry)?;
    println!(rt; "")?;
    show_journal(rt, geometry.data_start())
}

fn main(rt: HostRuntime) -> anyhow::Result<()> {
    let passed = run(&rt)?;
    println!(rt; "")?;
    let kept = show_volume(&rt)?;
    ensure!(passed && kept, "the box check did not pass");
    Ok(())
}
