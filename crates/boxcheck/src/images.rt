// The images of the register's pages before a file is put in and after it, and which of the two a journal has.
ghost use Rattle.std.specs.Prelude.{◌≡◌};
ghost use Rattle.boxcheck.specs.Stands.{Stands, came_of};

use crate::files::{changes, fill, put};
use crate::listing::IMAGES;
use crate::trials::Came;
use disk::disks::Disk;
use journal::journal::Journal;
use refusal::Refusal;

/// An image of each page.
pub type Images = [[u8; 512]; IMAGES];

/// The images that are settled by a first force, and those of the next one.
#[derive(Clone, Copy, PartialEq, Eq, Debug)]
pub struct Versions {
    pub settled: Images,
    pub pending: Images,
}

/// Which images a recovery gave back, or why it gave none.
#[derive(Clone, Copy, PartialEq, Eq, Debug)]
pub enum Stood {
    Settled,
    Pending,
    Other,
    Refused(Refusal),
}

impl From<Stood> for Came {
    ghost from_gives = { λ stood came. came ≡ came_of stood };

    fn from(stood: Stood) -> Came {
        match stood {
            Stood::Settled => Came::Old,
            Stood::Pending => Came::New,
            Stood::Other | Stood::Refused(_) => Came::Other,
        }
    }
}

impl Versions {
    /// The pages of the small volume's register, and the same with one more file.
    pub fn of_register() -> anyhow::Result<Versions> {
        let changes = changes()?;
        let [a, b, c, d, e, f] = changes;
        let one_more = [a, b, c, d, e, f, put(b"R5", 2, 92, 512)?];
        let mut settled = [[0; 512]; IMAGES];
        fill(&mut settled, &changes)?;
        let mut pending = [[0; 512]; IMAGES];
        fill(&mut pending, &one_more)?;
        Ok(Versions { settled, pending })
    }

    /// Recovers a disk, and tells which images stand.
    pub fn stood<D: Disk + Drop>(&self, disk: D) -> Stood {
        let mut journal = Journal::new(disk);
        let mut work = [0; 512];
        if let Err(refusal) = journal.recover(&mut work) {
            return Stood::Refused(refusal);
        }
        match images_of(&journal) {
            Ok(images) => self.which(&images),
            Err(refusal) => Stood::Refused(refusal),
        }
    }

    // Which of the two these images are.
    #[tactic(auto, using(crate::proofs::SameImages::images_told))]
    fn which(&self, images: &Images) -> Stood
        ensures { Stands images.now self.now.settled self.now.pending result }
    {
        if *images == self.settled {
            Stood::Settled
        } else if *images == self.pending {
            Stood::Pending
        } else {
            Stood::Other
        }
    }
}

// The image of each page of an up journal.
fn images_of<D: Disk>(journal: &Journal<D>) -> Result<Images, Refusal> {
    let mut images = [[0; 512]; IMAGES];
    for (page, image) in images.iter_mut().enumerate() {
        *image = journal.image(page as u32)?;
    }
    Ok(images)
}
