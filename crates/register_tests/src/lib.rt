// Tests of the register and of the check of its rules.
#![tactic(auto)]

#[cfg(test)]
mod changes;
#[cfg(test)]
mod emptied;
#[cfg(test)]
mod entries;
#[cfg(test)]
mod extents;
#[cfg(test)]
mod fills;
#[cfg(test)]
mod leaves;
#[cfg(test)]
mod page_bytes;
#[cfg(test)]
mod reuse;
#[cfg(test)]
mod roots;
#[cfg(test)]
mod rules;
#[cfg(test)]
mod turns;
