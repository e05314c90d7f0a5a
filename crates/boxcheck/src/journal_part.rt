// The journal's part of the report: a force of the register's pages, cut in every manner at every write, recoveries that are cut, and sectors that are lost.
use crate::cuts::fresh;
use crate::groups::find_record;
use crate::images::Versions;
use crate::journal_lines::{Cuts, Losses, Row, Sectors};
use crate::tally::Tally;
use anyhow::Context;
use failing::manner::Manner;
use image::Image;

// Prints the groups of the settled and of the pending images.
fn show_groups(rt: &HostRuntime, versions: &Versions) -> anyhow::Result<()> {
    let mut bytes = fresh(rt.alloc())?;
    let mut disk = Image::new(bytes.as_mut_slice());
    let [settled, pending] = versions
        .force_both(&mut disk)
        .context("the register could not be forced")?;
    let settled = find_record(&mut disk, settled)?.context("the settled group has no record")?;
    let pending = find_record(&mut disk, pending)?.context("the pending group has no record")?;
    println!(rt;
        "JOURNAL: this register forced, then R5.2 put in, and a power cut in every manner at every write of its force"
    )?;
    println!(rt; "images   group   sectors   pages")?;
    println!(rt; "settled  {settled}")?;
    println!(rt; "pending  {pending}")?;
    println!(rt; "")?;
    Ok(())
}

// Prints the table of what stands after each cut of a force.
fn show_table(rt: &HostRuntime, rows: &[Row]) -> anyhow::Result<()> {
    if let Some(row) = rows.first() {
        println!(rt; "{}", Sectors(&row.cuts))?;
    }
    for row in rows {
        println!(rt; "{row}")?;
    }
    println!(rt; "")?;
    Ok(())
}

// The cuts of a force, a row for each manner.
fn cut_rows(rt: &HostRuntime, versions: &Versions) -> anyhow::Result<Vec<Row>> {
    let mut rows = Vec::new(rt.alloc());
    for manner in Manner::ALL {
        let cuts = versions
            .cut_forces(rt.alloc(), manner)
            .context("a force could not be tried")?;
        rows.push(Row { manner, cuts })?;
    }
    Ok(rows)
}

// Counts what stands after each cut of a force, and after each cut of the recovery that follows.
fn count(rt: &HostRuntime, versions: &Versions, rows: &[Row]) -> anyhow::Result<[Tally; 2]> {
    let mut forces = Tally::default();
    let mut recoveries = Tally::default();
    for row in rows {
        for cut in &row.cuts {
            forces.add(cut.stood.into());
            versions
                .cut_recoveries(rt.alloc(), cut, &mut recoveries)
                .context("a recovery could not be tried")?;
        }
    }
    Ok([forces, recoveries])
}

/// Prints the journal's part, and tells whether it passed. The data begins at sector `end`.
pub fn show_journal(rt: &HostRuntime, end: u32) -> anyhow::Result<bool> {
    let versions = Versions::of_register()?;
    show_groups(rt, &versions)?;
    let rows = cut_rows(rt, &versions)?;
    show_table(rt, &rows)?;
    let [forces, recoveries] = count(rt, &versions, &rows)?;
    println!(rt; "{}", Cuts(forces, "the force"))?;
    println!(rt; "{}", Cuts(recoveries, "a recovery"))?;
    let losses = versions
        .lose_sectors(rt.alloc(), end)
        .context("a volume could not be shut")?;
    println!(rt; "{}", Losses(losses))?;
    Ok(forces.passed() && recoveries.passed() && losses.passed())
}
