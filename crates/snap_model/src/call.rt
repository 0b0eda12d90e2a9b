//! Keys, the calls that change a map, and the entries of its history. Every contract on a table speaks of these.

/// A key of a map: any number of 64 bits.
pub type Key = u64;

/// A call that changes a map.
#[derive(Clone, Copy)]
pub enum Call {
    /// Sets the key to the value.
    Put { key: Key, value: u64 },
    /// Takes the key out.
    Remove { key: Key },
}

/// A call in a table's history: who made it, and the value that stood at its key before.
#[derive(Clone, Copy)]
pub struct Entry {
    pub who: u32,
    pub call: Call,
    pub reply: Option<u64>,
}
