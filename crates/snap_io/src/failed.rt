//! The one error of shelves and sinks. It carries no reason: the counts of faults say whether it came from outside.
ghost use Rattle.std.specs.Prelude.{◌≡◌, ◌≤◌};
ghost use Rattle.snap_io.specs.Causes.{raised};

use std::error::Error;
use std::fmt;

/// A call of a shelf or a sink failed. Why, the counts of faults tell.
#[derive(Clone, Copy, Debug, PartialEq, Eq)]
pub struct Failed;

impl Failed {
    /// Counts a fault; a count stands still at its type's end.
    pub(crate) fn counted(count: &mut u64) -> Failed
        ensures later { count.old ≤ count.new }
        ensures raised { count.new ≡ raised count.old }
    {
        *count = count.saturating_add(1);
        Failed
    }
}

impl fmt::Display for Failed {
    fn fmt<W: fmt::Write>(&self, f: &mut fmt::Formatter<W>) -> fmt::Result {
        f.write_str("a file or an output failed")
    }
}

impl Error for Failed {}
