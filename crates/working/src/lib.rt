// The working sector that every call which touches a disk borrows, and one sector read or written through it.
#![tactic(auto)]

pub mod guard;
pub mod images;
pub mod values;
