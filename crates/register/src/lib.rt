// The register: it gives for each key a start and a length, and is a B-tree of two levels over page images. `docs/CALLS.md` says what each call does.
#![tactic(auto)]

pub mod changes;
pub mod entries;
pub mod fresh;
pub mod lookups;
pub mod replay;
mod roots;
mod seats;
