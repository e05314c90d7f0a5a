// The log as recovery reads it: which records are there, and the images in them.
#![tactic(auto)]

pub mod copies;
pub mod heads;
pub mod log;
pub mod record;
