// Tests of the geometry, the names and the sectors that carry a tag.
#![tactic(auto)]

#[cfg(test)]
mod geometries;
#[cfg(test)]
mod keys;
#[cfg(test)]
mod kinds;
#[cfg(test)]
mod leaders;
#[cfg(test)]
mod naming;
#[cfg(test)]
mod ranges;
#[cfg(test)]
mod sizes;
#[cfg(test)]
mod worked;
