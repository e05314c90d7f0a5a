// Where the next record goes.
ghost use Rattle.std.specs.Prelude.{◌≡◌, ◌+◌, ◌^◌, ◌<◌, ◌≤◌};
ghost use Rattle.forcing.specs.Places.{record_third, record_place, gives_up, first_in, LogAfter};

use crate::place::LogPlace;
use geometry::geometry::Geometry;
use geometry::third::Third;

/// Where a record goes: its third, its first sector, and whether that third is given up first.
#[derive(Clone, Copy, PartialEq, Eq, Debug)]
pub struct RecordPlace {
    pub third: Third,
    pub place: u32,
    pub gives_up: bool,
}

impl LogPlace {
    /// Where a record of `count` pages goes: behind the last one if it ends before that third's last sector, and else to the next third.
    pub fn record_place(&self, geometry: &Geometry, count: u32) -> RecordPlace
        requires { count ≤ 21 }
        ensures third { result.third ≡ record_third geometry.now.third self.now count }
        ensures place { result.place ≡ record_place geometry.now.third self.now count }
        ensures gives_up { result.gives_up ≡ gives_up geometry.now.third self.now count }
    {
        if self.place + 4 + 2 * count < geometry.last_of(self.third) {
            return RecordPlace {
                third: self.third,
                place: self.place,
                gives_up: false,
            };
        }
        let third = self.third.next();
        RecordPlace {
            third,
            place: geometry.third_start(third),
            gives_up: third == self.anchored,
        }
    }

    /// The group number of the first record in a third.
    pub fn first_in(&self, third: Third) -> u32
        ensures { result ≡ first_in third self.now.firsts }
    {
        self.firsts[usize::from(u8::from(third))]
    }

    /// After a record of `count` pages was written where it goes.
    pub fn advance(&mut self, geometry: &Geometry, count: u32)
        requires few { count ≤ 21 }
        requires last { self.old.next + 1 < 2 ^ 32 }
        ensures { LogAfter geometry.now.third self.old count self.new }
    {
        let record = self.record_place(geometry, count);
        if record.gives_up {
            self.anchored = self.anchored.next();
        }
        if record.third != self.third {
            self.firsts[usize::from(u8::from(record.third))] = self.next;
        }
        self.third = record.third;
        self.place = record.place + 5 + 2 * count;
        self.last = self.next;
        self.next += 1;
    }
}
