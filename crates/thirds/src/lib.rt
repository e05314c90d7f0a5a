// The log in thirds: when a record stands, what a search of the log finds, and what every cut and every lost pair of sectors leaves. It holds definitions and proofs alone: the code is in the crates above.
#![tactic(auto)]
