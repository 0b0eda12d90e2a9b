//! What every other crate speaks of: the calls on a map with their history, the commands and replies of a
//! script, names, want of memory, and a plain sorted map.
#![tactic(auto)]

mod call;
mod command;
mod memory;
mod name;
mod plain_map;

pub use call::{Call, Entry, Key};
pub use command::{Command, Reply};
pub use memory::OutOfMemory;
pub use name::Name;
pub use plain_map::PlainMap;
