//! Tests of the crates that lead from the command line to a plan, by their public calls.
#![tactic(auto)]

#[cfg(test)]
mod asserts;
#[cfg(test)]
mod changing;
#[cfg(test)]
mod made;
#[cfg(test)]
mod pieces;
#[cfg(test)]
mod plans;
#[cfg(test)]
mod words;
