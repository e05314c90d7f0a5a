// The numbers of a volume, tested, and the places that follow from them.
ghost use Rattle.std.specs.Prelude.{◌≡◌, ℕ, ◌+◌, ◌^◌, ◌<◌, ◌≤◌, Ok, Err};
ghost use Rattle.refusal.specs.declared.Refusal.TheVariants.{BadNumbers};
ghost use Rattle.geometry.specs.Places.{Good, third_start, last_of, first_homes, second_homes, data_start};
ghost use Rattle.geometry.specs.Thirds.{number_of};
ghost use Rattle.geometry.specs.Regions.{Apart};

use crate::third::Third;
use refusal::Refusal;

/// The number of pages P, the sectors T of a third and the sectors N of the disk. Every value of it is good.
#[derive(Clone, Copy, PartialEq, Eq, Debug)]
pub struct Geometry {
    pub pages: u32,
    pub third: u32,
    pub sectors: u32,
    ghost good: { Good pages third sectors },
}

impl Geometry {
    /// The geometry with these numbers, or 15.
    pub fn new(pages: u32, third: u32, sectors: u32) -> Result<Geometry, Refusal>
        ensures made { elim result [ Ok g ↦ (g.pages ≡ pages) × (g.third ≡ third) × (g.sectors ≡ sectors) × Good pages third sectors | Err x ↦ (x ≡ BadNumbers) × (Good pages third sectors → ⊥) ] }
        ensures regions { elim result [ Ok g ↦ Apart pages third sectors | Err x ↦ (x ≡ BadNumbers) ] }
    {
        if !(2..=21).contains(&pages)
            || !(2 * pages + 6..=1000).contains(&third)
            || sectors < 8 + 3 * third + 2 * (pages + 1) + 2
        {
            return Err(Refusal::BadNumbers);
        }
        Ok(Geometry {
            pages,
            third,
            sectors,
        })
    }

    /// The first sector of a third.
    pub fn third_start(&self, third: Third) -> u32
        ensures { result ≡ third_start self.now.third (number_of third) }
    {
        8 + u32::from(u8::from(third)) * self.third
    }

    /// The last sector of a third, which is never used.
    pub fn last_of(&self, third: Third) -> u32
        ensures { result ≡ last_of self.now.third (number_of third) }
    {
        self.third_start(third) + (self.third - 1)
    }

    /// A, where the first copies of the pages stand.
    pub fn first_homes(&self) -> u32
        ensures { result ≡ first_homes self.now.third }
    {
        8 + 3 * self.third
    }

    /// B, where the second copies stand.
    pub fn second_homes(&self) -> u32
        ensures { result ≡ second_homes self.now.pages self.now.third }
    {
        self.first_homes() + self.pages + 1
    }

    /// S, where the data begins.
    pub fn data_start(&self) -> u32
        ensures { result ≡ data_start self.now.pages self.now.third }
    {
        self.second_homes() + self.pages + 1
    }
}
