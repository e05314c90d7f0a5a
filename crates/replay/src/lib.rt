// Any list of calls on a journal, carried out, with the law of the history that it makes.
#![tactic(auto)]

pub mod from_format;
pub mod losses;
pub mod replay;
pub mod steps;
