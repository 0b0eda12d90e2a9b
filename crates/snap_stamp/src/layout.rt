//! Where each word of a table stands: a header, then the fields of row after row.
ghost use Rattle.std.specs.Prelude.{◌≡◌};
ghost use Rattle.snap_stamp.specs.Layout.{place_of, word_at, words_of};

use crate::RowNo;

/// The words of a header, and those of a row.
const HEADER: u64 = 8;

const ROW: u64 = 8;

/// A field of a row: one word.
#[derive(Clone, Copy, Debug, PartialEq, Eq)]
pub enum Field {
    /// The key, which never changes once the row is linked.
    Key,
    /// The epoch in which the row was linked.
    Birth,
    /// The stamp.
    Stamp,
    /// 0, or one more than the number of the pass that holds the row.
    Lock,
    /// The stored height.
    Height,
    /// The left child, 0 for none.
    Left,
    /// The right child, 0 for none.
    Right,
    /// One more than the value, 0 for none.
    Value,
}

/// How many words a table has whose rows go from 0 to this number.
pub fn words_of(rows: u32) -> u64
    ensures { result ≡ words_of rows }
{
    HEADER + ROW * (rows as u64 + 1)
}

/// Where the word of a row's field stands among a table's words.
pub fn word_at(row: RowNo, field: Field) -> u64
    ensures { result ≡ word_at row field }
{
    HEADER + ROW * row.number() as u64 + place_of(field)
}

fn place_of(field: Field) -> u64
    ensures { result ≡ place_of field }
{
    match field {
        Field::Key => 0,
        Field::Birth => 1,
        Field::Stamp => 2,
        Field::Lock => 3,
        Field::Height => 4,
        Field::Left => 5,
        Field::Right => 6,
        Field::Value => 7,
    }
}
