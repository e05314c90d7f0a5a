// What a force writes: the homes of the third that it gives up, the anchors, and a record of the changed pages.
#![tactic(auto)]

pub mod anchors;
pub mod force;
pub mod homes;
pub mod next;
pub mod place;
pub mod record;
