//! The commands of a script and the replies to them, as values: texts are read into these, and sessions run them.
mod debug;

use crate::{Key, Name};

/// A command of a script. A `slot` is the place of a live clone in its session, from 0 to 63.
#[derive(Drop)]
pub enum Command {
    /// Goes on with the table of this name.
    Table {
        name: Name,
    },
    /// Sets a key of the table in use.
    Put {
        key: Key,
        value: u64,
    },
    /// Takes a key out of the table in use.
    Remove {
        key: Key,
    },
    /// Asks the table in use for a key.
    Get {
        key: Key,
    },
    /// Clones the table in use into a free slot.
    Snap {
        slot: u8,
        name: Name,
    },
    /// Gives a clone up.
    Forget {
        slot: u8,
        name: Name,
    },
    /// Asks a clone for a key.
    See {
        slot: u8,
        key: Key,
    },
    /// The pair with the least key.
    First {
        slot: u8,
    },
    /// The pair with the greatest key.
    Last {
        slot: u8,
    },
    /// The pair with the greatest key that is at most this one.
    Floor {
        slot: u8,
        key: Key,
    },
    /// The pair with the greatest key below this one.
    Lower {
        slot: u8,
        key: Key,
    },
    /// The pair with the least key that is at least this one.
    Ceiling {
        slot: u8,
        key: Key,
    },
    /// The pair with the least key above this one.
    Higher {
        slot: u8,
        key: Key,
    },
    /// How many keys stand from `lo` to `hi`, both counted in.
    Count {
        slot: u8,
        lo: Key,
        hi: Key,
    },
    /// How deep a clone's tree is, and whether it is settled.
    Depth {
        slot: u8,
    },
    /// Writes the pairs from `lo` to `hi` to a file.
    Export {
        slot: u8,
        lo: Key,
        hi: Key,
        file: Name,
    },
    /// Puts the pairs of a file, in their order.
    Load {
        file: Name,
    },
}

/// The reply to a command.
#[derive(Clone, Copy, Debug)]
pub enum Reply {
    /// A put set a key that was absent.
    New,
    /// A put or removal replaced this value.
    Old {
        value: u64,
    },
    /// No such key or pair is there.
    Absent,
    /// The value at the key.
    Value {
        value: u64,
    },
    /// The pair that was asked for.
    Pair {
        key: Key,
        value: u64,
    },
    /// The number of pairs in a range.
    Count {
        n: u64,
    },
    /// Rows on the longest way down, pairs, and whether the clone is settled.
    Depth {
        depth: u32,
        pairs: u64,
        settled: bool,
    },
    /// The number of pairs that were exported.
    Exported {
        n: u64,
    },
    /// The number of pairs that were loaded.
    Loaded {
        n: u64,
    },
    /// No row is left for a write.
    Full,
    /// No row is left for a load's next put, after so many.
    FullAfter {
        n: u64,
    },
    /// A clone was made.
    Snapped,
    /// A clone was given up.
    Forgotten,
    /// The table in use was changed.
    Using,
}
