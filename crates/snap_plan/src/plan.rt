//! The plan of a run: all that carrying it out needs, so that no input is read after it.
use crate::ScriptList;
use snap_model::Name;
use snap_text::Loads;
use snap_words::NameList;

/// What a run carries out.
#[derive(Debug, Drop)]
pub struct Plan {
    /// The script of each worker, in the order of the words.
    pub scripts: ScriptList,
    /// The file for the replies of each script; none where the scripts are made.
    pub replies: Option<NameList>,
    /// The names of the tables, the one on which each session begins first.
    pub tables: NameList,
    /// The load files that the scripts name.
    pub loads: Loads,
    /// The rows of each table.
    pub rows: u32,
    /// The file for the last state of the first table, if one is wanted.
    pub last: Option<Name>,
}
