//! Tests of the crates that the program stands on, by their public calls. They stand in a crate of their own, so that
//! the others are proved once and not once more with their tests.
#![tactic(auto)]

#[cfg(test)]
mod asserts;
#[cfg(test)]
mod cases;
#[cfg(test)]
mod export;
#[cfg(test)]
mod load;
#[cfg(test)]
mod map;
#[cfg(test)]
mod names;
#[cfg(test)]
mod number;
#[cfg(test)]
mod reader;
#[cfg(test)]
mod replies;
#[cfg(test)]
mod script;
#[cfg(test)]
mod shelf;
#[cfg(test)]
mod sink;
