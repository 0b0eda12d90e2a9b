//! A stream of bytes to the outside, as a trait: what a run prints.
ghost use Rattle.std.specs.Prelude.{ℕ, List, Option};
ghost use Rattle.snap_io.specs.Causes.{HasCause};
ghost use Rattle.snap_io.specs.Sinks.{Puts};

use crate::Failed;

/// A stream of bytes to the outside.
pub trait Sink {
    /// The bytes written so far, where the sink tells them.
    ghost written: { Self → Option (List ℕ) };

    /// How often a `put` has failed.
    ghost faults: { Self → ℕ };

    /// Adds the bytes. After a failure a prefix of them was added, which may be none or all.
    fn put(&mut self, bytes: &[u8]) -> Result<(), Failed>
        ensures bytes { Puts (written self.old) (written self.new) bytes.now result }
        ensures cause { HasCause (faults self.old) (faults self.new) result };
}
