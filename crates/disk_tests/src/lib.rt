// Tests of the disks, alone and one above the other.
#![tactic(auto)]

#[cfg(test)]
mod bytes;
#[cfg(test)]
mod counts;
#[cfg(test)]
mod cuts;
#[cfg(test)]
mod images;
#[cfg(test)]
mod kinds;
#[cfg(test)]
mod losses;
#[cfg(test)]
mod marks;
#[cfg(test)]
mod plain;
#[cfg(test)]
mod refusals;
#[cfg(test)]
mod runs;
#[cfg(test)]
mod scripts;
#[cfg(test)]
mod spoils;
#[cfg(test)]
mod windows;
