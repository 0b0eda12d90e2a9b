//! Scripts that are made up: from a seed, the commands of each of several workers. The sequence of numbers and what
//! it makes of them is in `specs/`.
#![tactic(auto)]

mod generating;

pub use generating::make_script;
