// The frames of a volume's pages, and what their table gives a record of the log.
#![tactic(auto)]

pub mod frame;
pub mod table;
