//! Row numbers. Rows are named by number, and not by address, so that a clone can share them and a word can hold one.
ghost use Rattle.std.specs.Prelude.{◌≡◌, ◌↔◌, ℕ, IsTrue};

use std::marker::Model;

/// The number of a row. Row 0 holds a tree's root as its right child and has no key; as a link, 0 names no row.
/// Contracts see it as its number.
#[derive(Clone, Copy, Debug, PartialEq, Eq)]
pub struct RowNo(u32);

impl Model for RowNo {
    ghost Value = { ℕ };

    ghost view = { λ r. r.0 };

    ghost inverse = { λ n. record { 0 = n } };
}

impl RowNo {
    /// The row that holds the root.
    pub const HOLDER: RowNo = RowNo(0);

    /// The row of this number.
    pub fn of(number: u32) -> RowNo
        ensures { result ≡ number }
    {
        RowNo(number)
    }

    /// Its number.
    pub fn number(self) -> u32
        ensures { result ≡ self }
    {
        self.0
    }

    /// Whether this is 0: the holder of the root or, as a link, no row.
    pub fn is_none(self) -> bool
        ensures { IsTrue result ↔ (self ≡ 0) }
    {
        self.0 == 0
    }
}
