//! Files of known texts, written one after another up to the first that fails, or piece by piece.
#![tactic(auto)]

mod pieces;
mod unwritten;
mod writing;

pub use pieces::put;
pub use unwritten::Unwritten;
pub use writing::{Output, append, create_all, write, write_all};
