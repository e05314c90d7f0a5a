// Where everything stands on a volume's disk.
#![tactic(auto)]

pub mod geometry;
pub mod sizes;
pub mod third;
