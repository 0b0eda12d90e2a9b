//! The words of a table that need no other crate: stamps of rows, row numbers, the two sides of a row, the
//! fields of a row and where each stands in the table's list of words.
#![tactic(auto)]

mod laws;
mod layout;
mod row;
mod side;
mod stamp;

pub use laws::{fields_differ, rows_fit, stamps_have_parts};
pub use layout::{Field, word_at, words_of};
pub use row::RowNo;
pub use side::Side;
pub use stamp::Stamp;

/// A key of a map: any number of 64 bits.
pub type Key = u64;
