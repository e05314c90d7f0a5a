// Names of files, their versions, and the keys that the two make.
#![tactic(auto)]

pub mod bound;
pub mod key;
pub mod name;
pub mod version;
