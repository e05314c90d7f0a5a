// The check of a register's rules: which page breaks one, if any does.
#![tactic(auto)]

pub mod check;
mod collect;
pub mod extents;
mod keys;
mod leaves;
mod roots;
mod search;
