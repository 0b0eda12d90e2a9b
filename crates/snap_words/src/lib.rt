//! The words of the command line: what they ask for, or the first thing that is wrong with them.
//!
//! The words are read as one simple command by `clap`. Which words it takes, what they give, and what is refused of
//! that, is in `specs/`; the first fault of words that the command takes is found without memory.
#![tactic(auto)]

mod checking;
mod command_line;
mod names;
mod words;

pub use names::NameList;
pub use words::{
    DEFAULT_ROWS, Job, MOST_SCRIPTS, MOST_WORKERS, WordsFault, WordsRefusal, Work, read_words,
};
