//! The limits of the formats, and those of a run that several crates have to keep.

/// The most bytes of a script.
pub const MOST_SCRIPT_BYTES: usize = 4_194_304;

/// The most lines of a script.
pub const MOST_LINES: usize = 100_000;

/// The most bytes of a load file.
pub const MOST_LOAD_BYTES: usize = 16_777_216;

/// The most bytes of the name of a table or a clone.
pub const MOST_NAME_BYTES: usize = 32;

/// The most bytes of a file name.
pub const MOST_FILE_BYTES: usize = 200;

/// The most clones of a script that live at once.
pub const MOST_CLONES: usize = 64;

/// The most tables of a run.
pub const MOST_TABLES: usize = 8;

/// The most load files of a run.
pub const MOST_LOADS: usize = 8;

/// The most rows of a table.
pub const MOST_ROWS: u32 = 1_048_576;
