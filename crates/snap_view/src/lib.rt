//! The answers of a clone: of the map as it was when the clone was cut, whatever the table has come to since. No call
//! waits, allocates or writes a word.
#![tactic(auto)]

mod ahead;
mod balance;
mod counted;
mod counting;
mod going;
mod nearest;
mod ordered;
mod table_view;
mod walk;
mod way;

pub use balance::Settled;
pub use table_view::TableView;
pub use walk::{Ascend, Descend, Walk};
