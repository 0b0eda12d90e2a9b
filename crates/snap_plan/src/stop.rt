//! Why a run is stopped before it has a plan, with the status that the program then ends with.
ghost use Rattle.std.specs.Prelude.{◌≡◌};
ghost use Rattle.snap_plan.specs.Stops.{status_of, stop_of_words};

use crate::needs::Limit;
use snap_model::{Name, OutOfMemory};
use snap_text::LineKind;
use snap_words::{WordsFault, WordsRefusal};
use std::alloc::AllocError;

/// Why a run is stopped before it has a plan.
#[derive(Debug, Drop)]
pub enum Stop {
    /// The words are refused.
    Words {
        why: WordsRefusal,
    },
    /// A script or a load file could not be read.
    Read {
        file: Name,
    },
    /// A line of a script is refused.
    Line {
        script: Name,
        line: u32,
        kind: LineKind,
    },
    /// A script has too many bytes or lines.
    LongScript {
        script: Name,
    },
    /// A line of a script passes a limit of the run.
    Limit {
        script: Name,
        line: u32,
        limit: Limit,
    },
    /// A record of a load file is refused.
    Record {
        file: Name,
        number: u64,
    },
    /// A load file has too many bytes.
    LongLoad {
        file: Name,
    },
    /// Want of memory.
    Memory,
}

impl Stop {
    /// The program's status after this stop.
    pub fn status(&self) -> u8
        ensures { result ≡ status_of self.now }
    {
        match self {
            Stop::Words { .. } => 2,
            Stop::Line { .. }
            | Stop::LongScript { .. }
            | Stop::Limit { .. }
            | Stop::Record { .. }
            | Stop::LongLoad { .. } => 3,
            Stop::Read { .. } => 4,
            Stop::Memory => 6,
        }
    }
}

impl From<WordsFault> for Stop {
    ghost from_gives = { λ fault stop. stop ≡ stop_of_words fault };

    fn from(fault: WordsFault) -> Self {
        match fault {
            WordsFault::Refused { why } => Stop::Words { why },
            WordsFault::Memory => Stop::Memory,
        }
    }
}

impl From<OutOfMemory> for Stop {
    ghost use Rattle.snap_plan.specs.declared.stop.Stop.TheVariants as stops;

    ghost from_gives = { λ _ stop. stop ≡ stops.Memory };

    fn from(_: OutOfMemory) -> Self {
        Stop::Memory
    }
}

impl From<AllocError> for Stop {
    ghost use Rattle.snap_plan.specs.declared.stop.Stop.TheVariants as stops;

    ghost from_gives = { λ _ stop. stop ≡ stops.Memory };

    fn from(_: AllocError) -> Self {
        Stop::Memory
    }
}
