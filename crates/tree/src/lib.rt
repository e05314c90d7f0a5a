// The tree of two levels against the plain list of its entries. It holds definitions and proofs alone: the crate `register` has the code.
#![tactic(auto)]
