//! The job that words ask for, with its limits, or why they make none.
ghost use Rattle.std.specs.Prelude.{◌≡◌, map, IfOk, IfErr};
ghost use Rattle.std.specs.String.{string_bytes};
ghost use Rattle.snap_words.specs.Checks.{numbers_in};
ghost use Rattle.snap_words.specs.Givens.{given_by};
ghost use Rattle.snap_words.specs.Words.{IsRefusedAs, IsWithinLimits, job_in, job_of};

use crate::NameList;
use crate::checking::{Numbers, check};
use crate::command_line::{Given, match_words};
use snap_model::{Name, OutOfMemory};
use std::alloc::{AllocError, Global};
use thiserror::Error;

/// The rows of a table where the words give none.
pub const DEFAULT_ROWS: u32 = 65_536;

/// The most scripts of a run.
pub const MOST_SCRIPTS: usize = 32;

/// The most workers for which scripts are made.
pub const MOST_WORKERS: u32 = 32;

/// What is wrong with the words.
#[derive(Clone, Copy, Debug, PartialEq, Eq, Error)]
pub enum WordsRefusal {
    /// The command doesn't take the words: an option is unknown, has no value or is given twice, or help is asked for.
    #[error("usage")]
    Usage,
    /// The value of an option is no number in its range.
    #[error("number")]
    Number,
    /// A script or the final file has a name that is no file name.
    #[error("name")]
    Name,
    /// There are neither scripts nor commands to be made, or both, or too many scripts.
    #[error("choice")]
    Choice,
    /// Two of the files that are to be written have one name.
    #[error("output")]
    Output,
}

/// Why words make no job.
#[derive(Clone, Copy, Debug, PartialEq, Eq, Error)]
pub enum WordsFault {
    /// They are refused.
    #[error("{why}")]
    Refused { why: WordsRefusal },
    /// Want of memory.
    #[error("out of memory")]
    Memory,
}

impl From<WordsRefusal> for WordsFault {
    ghost use Rattle.snap_words.specs.declared.words.WordsFault.TheVariants as faults;

    ghost from_gives = { λ why fault. fault ≡ faults.Refused why };

    fn from(why: WordsRefusal) -> Self {
        WordsFault::Refused { why }
    }
}

impl From<OutOfMemory> for WordsFault {
    ghost use Rattle.snap_words.specs.declared.words.WordsFault.TheVariants as faults;

    ghost from_gives = { λ _ fault. fault ≡ faults.Memory };

    fn from(_: OutOfMemory) -> Self {
        WordsFault::Memory
    }
}

impl From<AllocError> for WordsFault {
    ghost use Rattle.snap_words.specs.declared.words.WordsFault.TheVariants as faults;

    ghost from_gives = { λ _ fault. fault ≡ faults.Memory };

    fn from(_: AllocError) -> Self {
        WordsFault::Memory
    }
}

/// What is to be run.
#[derive(Debug, Drop)]
pub enum Work {
    /// The scripts of these names.
    Scripts {
        names: NameList,
    },
    /// Scripts that are made: so many commands in all, from this seed, for so many workers.
    Made {
        commands: u32,
        seed: u32,
        workers: u32,
    },
}

/// What the words ask for.
#[derive(Debug, Drop)]
pub struct Job {
    /// The rows of each table.
    pub rows: u32,
    /// The file for the last state of the first table, if one is wanted.
    pub last: Option<Name>,
    pub work: Work,
}

/// Reads the words of the command line, without the program's own name.
///
/// The command is read by `clap`, which takes memory; whatever else the words are refused for is found without memory.
pub fn read_words(alloc: Global, words: &[String]) -> Result<Job, WordsFault>
    ensures ok { IfOk result (λ job. job_of (map string_bytes words.now) ≡ Ok job) }
    ensures refused { IfErr result (IsRefusedAs (job_of (map string_bytes words.now))) }
    ensures within { IfOk result IsWithinLimits }
{
    let matches = match_words(alloc, words)?;
    let given = Given::of(&matches);
    let numbers = check(&given)?;
    Ok(job_for(alloc, &given, numbers)?)
}

// What the words ask for, where they have no fault.
fn job_for(alloc: Global, given: &Given<'_, '_>, numbers: Numbers) -> Result<Job, OutOfMemory>
    requires { numbers ≡ numbers_in (given_by given.now) }
    ensures { IfOk result (λ job. job ≡ job_in (given_by given.now)) }
{
    let last = match given.last {
        None => None,
        Some(name) => Some(Name::new(alloc, name)?),
    };
    let work = match numbers.commands {
        None => Work::Scripts {
            names: names_of(alloc, given.scripts)?,
        },
        Some(commands) => Work::Made {
            commands,
            seed: numbers.seed,
            workers: numbers.workers,
        },
    };
    Ok(Job {
        rows: numbers.rows,
        last,
        work,
    })
}

fn names_of(alloc: Global, scripts: &[&str]) -> Result<NameList, OutOfMemory>
    ensures { IfOk result (λ names. names ≡ map (λ script. script.now) scripts.now) }
{
    let mut names = NameList::new(alloc);
    for script in scripts {
        names.add(Name::new(alloc, script)?)?;
    }
    Ok(names)
}
