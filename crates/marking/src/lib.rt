// A disk that loses its power at a chosen call, in a chosen manner, and marks the sectors that are lost.
#![tactic(auto)]

mod lost;
pub mod marking;
