// Tests of the pages of a register.
#![tactic(auto)]

#[cfg(test)]
mod counts;
#[cfg(test)]
mod kinds;
#[cfg(test)]
mod leaves;
#[cfg(test)]
mod roots;
