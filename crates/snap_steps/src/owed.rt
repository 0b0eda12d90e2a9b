//! What a pass keeps of its debt at run time: the to-do key, and which rows are listed, as long as these are few.
ghost use Rattle.std.specs.Prelude.{◌≡◌, ◌≢◌, ◌⊎◌, ◌↔◌, IsTrue};
ghost use Rattle.snap_steps.specs.Owed.{IsMore, IsWith, IsWithout, Names, nothing_owed, owed_at, owed_one};
ghost use Rattle.snap_steps.specs.declared.owed.Listed.TheVariants.{Empty, One};

use snap_stamp::{Key, RowNo};

/// The rows that are listed, each once. Four or more are `Many`, and which these are isn't told.
#[derive(Clone, Copy)]
pub enum Listed {
    Empty,
    One(RowNo),
    Two(RowNo, RowNo),
    Three(RowNo, RowNo, RowNo),
    Many,
}

// Whether the row is one of the two.
fn is_either(row: RowNo, a: RowNo, b: RowNo) -> bool
    ensures { IsTrue result ↔ (row ≡ a) ⊎ (row ≡ b) }
{
    row == a || row == b
}

impl Listed {
    // Whether the row is among them, or may be.
    fn names(&self, row: RowNo) -> bool
        ensures { IsTrue result ↔ Names self.now row }
    {
        match *self {
            Listed::Empty => false,
            Listed::One(a) => row == a,
            Listed::Two(a, b) => is_either(row, a, b),
            Listed::Three(a, b, c) => row == a || is_either(row, b, c),
            Listed::Many => true,
        }
    }

    /// With one more. Row 0 is never listed.
    pub fn with_row(self, row: RowNo) -> Listed
        ensures { IsWith self row result }
    {
        let named = self.names(row);
        if row.is_none() || named {
            return self;
        }
        self.one_more(row)
    }

    fn one_more(self, row: RowNo) -> Listed
        ensures { IsMore self row result }
    {
        match self {
            Listed::Empty => Listed::One(row),
            Listed::One(a) => Listed::Two(a, row),
            Listed::Two(a, b) => Listed::Three(a, b, row),
            Listed::Three(_, _, _) => Listed::Many,
            Listed::Many => Listed::Many,
        }
    }

    /// Without this one.
    pub fn without(self, row: RowNo) -> Listed
        ensures { IsWithout self row result }
    {
        let none = Listed::Empty;
        match self {
            Listed::Empty => none,
            Listed::One(a) => none.more_but(a, row),
            Listed::Two(a, b) => {
                let first = none.more_but(a, row);
                first.more_but(b, row)
            }
            Listed::Three(a, b, c) => {
                let first = none.more_but(a, row);
                let second = first.more_but(b, row);
                second.more_but(c, row)
            }
            Listed::Many => Listed::Many,
        }
    }

    // With one more, unless it is the row that goes.
    fn more_but(self, row: RowNo, gone: RowNo) -> Listed
        ensures gone { row ≡ gone → result ≡ self }
        ensures other { row ≢ gone → IsMore self row result }
    {
        if row == gone {
            return self;
        }
        self.one_more(row)
    }

    /// Whether it is surely no other than this one.
    pub fn is_only(self, row: RowNo) -> bool
        ensures { IsTrue result ↔ ((self ≡ Empty) ⊎ (self ≡ One row)) }
    {
        match self {
            Listed::Empty => true,
            Listed::One(a) => a == row,
            Listed::Two(_, _) => false,
            Listed::Three(_, _, _) => false,
            Listed::Many => false,
        }
    }
}

/// The to-do key, on whose way a pass has repairs to do, and the rows that are listed. Without a key it owes nothing.
#[derive(Clone, Copy)]
pub(crate) struct Tally {
    pub(crate) to_do: Option<Key>,
    pub(crate) listed: Listed,
}

impl Tally {
    pub(crate) fn none() -> Tally
        ensures { result ≡ nothing_owed }
    {
        Tally {
            to_do: None,
            listed: Listed::Empty,
        }
    }

    // Where a write begins to owe: this row alone, and none where it is row 0.
    pub(crate) fn one(key: Key, row: RowNo) -> Tally
        ensures { result ≡ owed_one key row }
    {
        let listed = if row.is_none() {
            Listed::Empty
        } else {
            Listed::One(row)
        };
        Tally {
            to_do: Some(key),
            listed,
        }
    }

    // The to-do key comes to be that of a row: at row 0 nothing is owed.
    pub(crate) fn at(row: RowNo, key: Key, listed: Listed) -> Tally
        ensures { result ≡ owed_at row key listed }
    {
        if row.is_none() {
            return Tally::none();
        }
        Tally {
            to_do: Some(key),
            listed,
        }
    }
}
