// What a journal holds in memory.
ghost use Rattle.std.specs.Prelude.{◌≡◌};
ghost use Rattle.journal.specs.declared.inner.State.TheVariants as state;

use forcing::place::LogPlace;
use frames::frame::{Frame, MOST_PAGES};
use geometry::geometry::Geometry;

/// No image is changed while the next group number is above this one.
pub const MOST_NUMBER: u32 = 4_000_000_000;

/// What an up journal knows of its volume: the numbers, and where the log stands.
#[derive(Clone, Copy, PartialEq, Eq, Debug)]
pub struct Standing {
    pub geometry: Geometry,
    pub place: LogPlace,
}

/// A journal is down or up. Of a down one nothing in memory counts.
#[derive(Clone, Copy, PartialEq, Eq, Debug)]
pub enum State {
    Down,
    Up(Standing),
}

/// The state of a journal and the frames of its pages.
#[derive(Drop)]
pub struct Inner {
    pub state: State,
    pub frames: [Frame; MOST_PAGES],
}

impl Inner {
    /// The memory of a down journal.
    pub fn down() -> Inner
        ensures { result.state ≡ state.Down }
    {
        Inner {
            state: State::Down,
            frames: [Frame {
                now: [0; 512],
                forced: [0; 512],
                changed: false,
                third: None,
            }; MOST_PAGES],
        }
    }
}
