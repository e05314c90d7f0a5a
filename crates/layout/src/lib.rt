// The sectors of a volume that carry a tag, as values: encoders, and decoders that accept just the right sectors.
#![tactic(auto)]

pub mod anchor;
pub mod carried;
pub mod end;
pub mod head;
pub mod header;
pub mod leader;
mod rest;
pub mod tagged;
