//! Puts and removals in a table, each by one entry in its history.
#![tactic(auto)]

mod attempt;
mod below;
mod here;
mod placed;
mod shared;
mod writing;

pub use attempt::Attempt;
pub use writing::write;
