// What a disk is: sectors of 512 bytes, and a power that may fail in any call.
#![tactic(auto)]

pub mod disks;
pub mod faults;
pub mod lent;
pub mod runs;
