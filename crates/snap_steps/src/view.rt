//! What a seat knows of its table: plain data for clauses and proofs, of which no value is made.
use snap_model::Entry;
use snap_rule::{Debt, Doing, Reading, Trying};
use snap_stamp::{Field, RowNo, Side};
use std::collections::LinkedList;

/// A word as a pass loaded it: one of the header, or the birth of a row to which all checks had led it on the way of a
/// key, with that key; or that a load told it of a write in progress.
pub enum WordNote {
    Next(u32),
    Gate(u64),
    Left(u64),
    Done(u64),
    Epoch(u64),
    Birth(u64, u64),
    Trouble,
}

/// What is kept of a number that was admitted.
pub struct Admitted {
    pub who: u32,
    pub mine: LinkedList<Entry>,
    pub cuts: LinkedList<u64>,
    pub uses: u64,
    pub drawn: LinkedList<u32>,
}

/// What a seat is.
pub enum Role {
    /// It hands out the passes, and is none itself. Its `who` is the number of the next one.
    Opening,
    /// A pass, or the receipt of one.
    Passing,
    /// A note, or the seat of a clone: it makes no step that others may notice.
    Noting,
    /// It was joined to another seat, and is tied to the table no longer.
    Spent,
}

/// What a pass is doing at the gate.
pub enum Stage {
    Idle,
    /// Whether the entry of this write is made, and whether it is counted.
    Writing { made: bool, counted: bool },
    /// The gate as it was closed, whether no write was in progress since, and whether this closing has cut.
    Closing { gate: u64, quiet: bool, cut: bool },
}

/// A word of a row as a pass found or stored it.
pub struct Fact {
    pub row: u32,
    pub field: Field,
    pub word: u64,
}

/// The stored height of the child on a side of a held row.
pub struct ChildHeight {
    pub row: RowNo,
    pub side: Side,
    pub height: u64,
}

/// A part of a tree that is written down from its leaves up: each node comes after its left and its right subtree.
pub enum Part {
    Nothing,
    Top {
        row: u32,
        key: u64,
        value: Option<u64>,
        height: u64,
    },
}

/// Whether the tree of a clone is settled, and else why it isn't.
pub enum Balance {
    Settled,
    /// Every row was handed out.
    RowsOut,
    /// The stamp of this row was at its greatest count.
    StampOut { row: u32 },
}

/// The clone that a seat reads, or that a closing pass has cut.
pub struct Base {
    /// The history and the tree at the cut.
    pub history: LinkedList<Entry>,
    pub parts: LinkedList<Part>,
    /// How many notes the pass had then.
    pub noted: u64,
    /// How many rows were handed out then.
    pub drawn: u32,
    /// Whether the tree is settled.
    pub balance: Balance,
}

/// What loads and notes taught a seat of the header's words and of stamps at their end.
pub struct Noted {
    /// The words that it noted, in their order.
    pub notes: LinkedList<WordNote>,
    /// The greatest `Next` and the greatest `Epoch` that it, or a seat that was joined to it, noted.
    pub handed: u32,
    pub epochs: u64,
    /// Whether one of these noted a stamp at its greatest count.
    pub worn: bool,
}

/// Where a seat is on the way to a key.
pub struct Route {
    pub reads: Reading,
    /// The row to which all checks led it there, as long as it hasn't noted its birth.
    pub confirmed: LinkedList<u32>,
    /// The row from which it last went on there, with its stamp and the side: the place where the way ended.
    pub place: Reading,
}

/// What a seat has behind it.
pub struct Trail {
    /// Rows that were linked, to which it came.
    pub reached: LinkedList<u32>,
    /// How many steps it made that may leave nothing else behind.
    pub steps: u64,
}

/// What a seat knows of words of rows, and of the epoch.
pub struct Words {
    /// Those of rows whose locks it holds.
    pub knows: LinkedList<Fact>,
    /// The words for which it was refused a row: of a lock that was taken, and of a stamp at its greatest count.
    pub refused: LinkedList<Fact>,
    /// Words that change no more: births of rows that were linked, and words of rows of an earlier epoch.
    pub lasting: LinkedList<Fact>,
    /// What it loaded as the epoch in this write.
    pub present: LinkedList<u64>,
}

/// The rows that a seat drew and that aren't linked, and its copies.
pub struct Fresh {
    pub own: LinkedList<u32>,
    /// What it stored in them.
    pub wrote: LinkedList<Fact>,
    /// The key for which it made copies of rows in this write.
    pub copies: LinkedList<u64>,
}

/// What a seat knows.
pub struct View {
    /// The size of the table, and how many passes it has.
    pub rows: u32,
    pub passes: u32,
    pub who: u32,
    pub role: Role,
    pub stage: Stage,
    /// What it has seen of the history, and its own entries in it.
    pub seen: LinkedList<Entry>,
    pub mine: LinkedList<Entry>,
    pub noted: Noted,
    /// The rows that it drew.
    pub drawn: LinkedList<u32>,
    /// The lengths of the history at which it made clones.
    pub cuts: LinkedList<u64>,
    /// How many writes it entered and closings it made.
    pub uses: u64,
    pub admitted: LinkedList<Admitted>,
    /// The clone that it reads, or that it cut last.
    pub base: Base,
    /// The rows whose stamps the seat of a clone found at their greatest count.
    pub outworn: LinkedList<u32>,
    /// The rows whose locks it holds.
    pub holds: LinkedList<u32>,
    pub words: Words,
    pub trail: Trail,
    pub fresh: Fresh,
    pub way: Route,
    /// The call that never waits, where it is in one.
    pub tries: Trying,
    /// The change that it is in.
    pub doing: Doing,
    /// What it knows of the heights below the rows that it holds.
    pub heights: LinkedList<ChildHeight>,
    /// What it owes to the balance of the tree.
    pub debt: Debt,
    /// The two histories that its last join put together.
    pub joined: LinkedList<LinkedList<Entry>>,
}
