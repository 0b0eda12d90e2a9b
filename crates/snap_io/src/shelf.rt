//! Files by name, as a trait: what a run may ask of the outside, and what each call does to files where they are told.
ghost use Rattle.std.specs.Prelude.{◌≡◌, ◌≤◌, ℕ, Option, IfOk, length};
ghost use Rattle.snap_io.specs.Causes.{HasCause, HasCauseOr};
ghost use Rattle.snap_io.specs.Shelves.{Appends, Changes, Creates, Files, IsAbsent, OnlyReads, ReadsFrom, Sizes};

use crate::Failed;

/// Files by name. Names with different bytes are different files.
///
/// A shelf may tell its files to contracts; whether it does is the same after every call. Of told files, each call
/// says what becomes of the named one, and all others stay as they are.
pub trait Shelf {
    /// The files, where the shelf tells them.
    ghost files: { Self → Option Files };

    /// How often a `size` or a `read` has failed.
    ghost read_faults: { Self → ℕ };

    /// How often a `create` or an `append` has failed.
    ghost write_faults: { Self → ℕ };

    /// The length of a file in bytes. An absent file is refused.
    fn size(&mut self, name: &str) -> Result<u64, Failed>
        ensures length { Sizes (files self.old) name.now result }
        ensures cause { HasCauseOr (IsAbsent (files self.old) name.now) (read_faults self.old)
            (read_faults self.new) result }
        ensures only_reads { OnlyReads files read_faults write_faults self.old self.new };

    /// Copies bytes of a file, from `at` on, to the front of `into`, and answers how many: 0 only at the file's end
    /// or where `into` is empty. An absent file is refused.
    fn read(&mut self, name: &str, at: u64, into: &mut [u8]) -> Result<usize, Failed>
        ensures bound { IfOk result (λ n. n ≤ length into.new) }
        ensures bytes { ReadsFrom (files self.old) name.now at result into.new }
        ensures cause { HasCauseOr (IsAbsent (files self.old) name.now) (read_faults self.old)
            (read_faults self.new) result }
        ensures only_reads { OnlyReads files read_faults write_faults self.old self.new };

    /// Makes the file, or empties the one that is there. After a failure it is as before, or empty.
    fn create(&mut self, name: &str) -> Result<(), Failed>
        ensures files { Changes (files self.old) (files self.new) (Creates name.now result) }
        ensures cause { HasCause (write_faults self.old) (write_faults self.new) result }
        ensures other { read_faults self.new ≡ read_faults self.old };

    /// Adds the bytes to a file, or after a failure a prefix of them. An absent file is refused, and stays absent.
    fn append(&mut self, name: &str, bytes: &[u8]) -> Result<(), Failed>
        ensures files { Changes (files self.old) (files self.new)
            (Appends name.now bytes.now result) }
        ensures cause { HasCauseOr (IsAbsent (files self.old) name.now) (write_faults self.old)
            (write_faults self.new) result }
        ensures other { read_faults self.new ≡ read_faults self.old };
}
