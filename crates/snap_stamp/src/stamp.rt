//! Stamps, the versions of rows. A stamp only grows as a number, so one that is found unchanged tells a reader that
//! the row was not lowered or unlinked meanwhile.
ghost use Rattle.std.specs.Prelude.{◌≡◌, ◌<◌, ◌↔◌, ◌+◌, ℕ, IsTrue, true, false};
ghost use Rattle.snap_stamp.specs.Stamps.{IsUnmarked, IsShrinking, IsUnlinked, count_of, last_count, stamp_of};

use std::marker::Model;

const UNLINKED: u64 = 1;

const SHRINKING: u64 = 2;

const COUNT: u64 = 4;

const LAST: u64 = 4_611_686_018_427_387_903;

/// A row's stamp: how many rotations have lowered the row, whether one is lowering it now (the shrinking mark),
/// and whether the row was taken out of its tree (the unlinked mark). Contracts see it as its word.
#[derive(Clone, Copy, Debug, PartialEq, Eq)]
pub struct Stamp(u64);

impl Model for Stamp {
    ghost Value = { ℕ };

    ghost view = { λ s. s.0 };

    ghost inverse = { λ w. record { 0 = w } };
}

impl Stamp {
    /// The stamp that is stored as this word.
    pub fn of(word: u64) -> Stamp
        ensures { result ≡ word }
    {
        Stamp(word)
    }

    /// The word that the stamp is stored as.
    pub fn word(self) -> u64
        ensures { result ≡ self }
    {
        self.0
    }

    /// How many rotations have lowered the row.
    pub fn count(self) -> u64
        ensures { result ≡ count_of self }
    {
        self.0 / COUNT
    }

    /// Whether the stamp has neither mark.
    pub fn is_unmarked(self) -> bool
        ensures { IsTrue result ↔ IsUnmarked self }
    {
        self.0 % COUNT == 0
    }

    /// Whether a rotation is lowering the row.
    pub fn is_shrinking(self) -> bool
        ensures { IsTrue result ↔ IsShrinking self }
    {
        self.0 / SHRINKING % 2 == 1
    }

    /// Whether the row was taken out of its tree.
    pub fn is_unlinked(self) -> bool
        ensures { IsTrue result ↔ IsUnlinked self }
    {
        self.0 % 2 == UNLINKED
    }

    /// Whether the count is the greatest that there is, so that no further rotation may lower the row.
    pub fn is_last(self) -> bool
        ensures { IsTrue result ↔ (count_of self ≡ last_count) }
    {
        self.count() == LAST
    }

    /// The stamp with the shrinking mark.
    pub fn begin(self) -> Stamp
        requires unmarked { IsUnmarked self }
        requires has_count { count_of self < last_count }
        ensures marked { result ≡ stamp_of (count_of self) true false }
        ensures grows { self < result }
    {
        Stamp(self.0 + SHRINKING)
    }

    /// The stamp without its shrinking mark, and with the next count.
    pub fn finish(self) -> Stamp
        requires shrinking { IsShrinking self }
        requires not_unlinked { ¬ IsUnlinked self }
        requires has_count { count_of self < last_count }
        ensures cleared { result ≡ stamp_of (count_of self + 1) false false }
        ensures grows { self < result }
    {
        Stamp(self.0 - SHRINKING + COUNT)
    }

    /// The stamp with the unlinked mark.
    pub fn unlink(self) -> Stamp
        requires unmarked { IsUnmarked self }
        ensures marked { result ≡ stamp_of (count_of self) false true }
        ensures grows { self < result }
    {
        Stamp(self.0 + UNLINKED)
    }
}
