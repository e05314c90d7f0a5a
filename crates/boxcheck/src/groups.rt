// What is forced in the journal's part: the settled images, and then the pending ones.
use crate::images::{Images, Versions};
use crate::listing::{IMAGES, PAGES, SECTORS, THIRD};
use disk::disks::Disk;
use journal::journal::Journal;
use layout::head::RecordHead;
use layout::tagged::{Tagged, tag_of};
use refusal::Refusal;

/// The record of a group, as a disk has it: its head, and its first and its last sector.
#[derive(Clone, Copy, PartialEq, Eq, Debug)]
pub struct Record {
    pub head: RecordHead,
    pub first: u32,
    pub last: u32,
}

impl Versions {
    /// Makes a disk a volume, forces the settled images and changes the pages to the pending ones. Answers the up journal and the number of the settled group.
    pub fn begin<D: Disk + Drop>(&self, disk: D) -> Result<(Journal<D>, u32), Refusal> {
        let mut work = [0; 512];
        let mut journal = Journal::new(disk);
        journal.format(u32::from(THIRD), &[[0; 512]; IMAGES], &mut work)?;
        journal.recover(&mut work)?;
        change_to(&mut journal, &self.settled)?;
        let settled = journal.force(&mut work)?;
        change_to(&mut journal, &self.pending)?;
        Ok((journal, settled))
    }

    /// Forces the settled images and the pending ones, and answers the numbers of their groups.
    pub fn force_both<D: Disk + Drop>(&self, disk: D) -> Result<[u32; 2], Refusal> {
        let (mut journal, settled) = self.begin(disk)?;
        let mut work = [0; 512];
        let pending = journal.force(&mut work)?;
        Ok([settled, pending])
    }
}

// Changes each page that has another image.
fn change_to<D: Disk>(journal: &mut Journal<D>, images: &Images) -> Result<(), Refusal> {
    let mut work = [0; 512];
    for (page, image) in images.iter().enumerate() {
        let page = page as u32;
        if journal.image(page)? != *image {
            journal.change(page, image, &mut work)?;
        }
    }
    Ok(())
}

/// Finds the record of a group on a disk.
pub fn find_record<D: Disk>(disk: &mut D, group: u32) -> Result<Option<Record>, Refusal> {
    let mut found: Option<Record> = None;
    for sector in 0..SECTORS {
        let mut bytes = [0; 512];
        disk.read(sector, &mut bytes)?;
        found = match tag_of(&bytes, SECTORS, PAGES) {
            Some(Tagged::Head(head)) if head.group == group => {
                let first = found.map_or(sector, |record| record.first);
                Some(Record {
                    head,
                    first,
                    last: sector,
                })
            }
            Some(Tagged::End(end)) if end.group == group => {
                found.map(|record| Record {
                    last: sector,
                    ..record
                })
            }
            _ => found,
        };
    }
    Ok(found)
}
