// Pages of 512 bytes that hold records: those of the root and of the leaves of a register.
#![tactic(auto)]

pub mod page;
pub mod paged;
pub mod records;
pub mod stored;
