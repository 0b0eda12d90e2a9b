//! Tests of the crates below the table, by their public calls: stamps, draws, the gate, locks, searches, single writes,
//! and reads that meet a write which stopped. They stand in a crate of their own, so that the others are proved once
//! and not once more with their tests.
#![tactic(auto)]

#[cfg(test)]
mod asserts;
#[cfg(test)]
mod draws;
#[cfg(test)]
mod endings;
#[cfg(test)]
mod gates;
#[cfg(test)]
mod grips;
#[cfg(test)]
mod kept;
#[cfg(test)]
mod locks;
#[cfg(test)]
mod reads;
#[cfg(test)]
mod searches;
#[cfg(test)]
mod stamps;
#[cfg(test)]
mod stopped;
#[cfg(test)]
mod tables;
#[cfg(test)]
mod waits;
#[cfg(test)]
mod ways;
#[cfg(test)]
mod writes;
