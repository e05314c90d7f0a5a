// A score sheet on two sectors of a disk, so that one of them outlives every power cut.
#![tactic(auto)]

pub mod page;
pub mod survey;
pub mod twins;
