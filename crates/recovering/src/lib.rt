// What recovery reads off a disk before it writes anything, and what it writes then.
#![tactic(auto)]

pub mod homes;
pub mod mending;
pub mod redoing;
pub mod twins;
pub mod volume;
