// A disk that loses its power at a chosen call, in a chosen manner.
#![tactic(auto)]

pub mod failing;
pub mod manner;
pub mod phase;
pub mod probe;
