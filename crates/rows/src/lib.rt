// Ordered rows of records that tell their keys.
#![tactic(auto)]

pub mod keyed;
pub mod row;
