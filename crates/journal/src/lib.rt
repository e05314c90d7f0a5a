// The journal of a volume's pages: images that changed are forced as one group, and recovery gives them back as they were forced, wherever the power failed.
#![tactic(auto)]

pub mod change;
pub mod data;
pub mod force;
pub mod format;
pub mod inner;
pub mod journal;
pub mod recover;
