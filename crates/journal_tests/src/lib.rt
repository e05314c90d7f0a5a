// Tests of the journal: the bytes it leaves, its refusals, and what comes back after cuts and lost sectors.
#![tactic(auto)]

#[cfg(test)]
mod bytes;
#[cfg(test)]
mod calls;
#[cfg(test)]
mod cuts;
#[cfg(test)]
mod data;
#[cfg(test)]
mod force_cuts;
#[cfg(test)]
mod forces;
#[cfg(test)]
mod format_cuts;
#[cfg(test)]
mod memory;
#[cfg(test)]
mod noting;
#[cfg(test)]
mod numbers;
#[cfg(test)]
mod recovery_cuts;
#[cfg(test)]
mod refusals;
#[cfg(test)]
mod spoils;
#[cfg(test)]
mod worked;
