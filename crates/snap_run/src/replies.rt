//! The files of a run that its workers don't write: reply files are made before they begin, and the final file is written
//! once they have ended.
ghost use Rattle.std.specs.Prelude.{◌≡◌, ◌≢◌, ◌≤◌, [], None, AllPairs, IfErr, IsOk, OnErr, OnOk, unwrap_or};
ghost use Rattle.snap_crew.specs.Prelude.{IsAfter, names_in};
ghost use Rattle.snap_io.specs.Prelude.{Changes, Rose};
ghost use Rattle.snap_run.specs.Files.{last_in};
ghost use Rattle.snap_write.specs.Outputs.{HasBegun, HasWritten, IsUnwritten, blank, names_of};

use snap_io::Shelf;
use snap_model::Name;
use snap_words::NameList;
use snap_write::{Unwritten, create_all, write};
use std::alloc::Global;

/// The names of the reply files, where there are such.
pub fn reply_names(replies: &Option<NameList>) -> Option<&[Name]>
    ensures { names_in result ≡ replies.now }
{
    match replies {
        Some(names) => Some(names.list()),
        None => None,
    }
}

/// Makes the reply files of a plan, in their order.
pub fn create_replies<S: Shelf>(
    alloc: Global,
    shelf: &mut S,
    replies: &Option<NameList>,
) -> Result<(), Unwritten>
    requires { AllPairs (λ a b. a ≢ b) (unwrap_or replies.now []) }
    ensures written { OnOk result
        (Changes (S.files shelf.old) (S.files shelf.new)
        (HasWritten (blank (unwrap_or replies.now [])))) }
    ensures begun { OnErr result
        (Changes (S.files shelf.old) (S.files shelf.new)
        (HasBegun (blank (unwrap_or replies.now [])))) }
    ensures stops { IfErr result
        (IsUnwritten (unwrap_or replies.now [])
        (Rose (S.write_faults shelf.old) (S.write_faults shelf.new))) }
    ensures later { S.write_faults shelf.old ≤ S.write_faults shelf.new }
    ensures reads { S.read_faults shelf.new ≡ S.read_faults shelf.old }
    ensures none { replies.now ≡ None → (shelf.new ≡ shelf.old) × IsOk result }
{
    match replies {
        Some(names) => create_all(alloc, shelf, names.list()),
        None => Ok(()),
    }
}

/// Writes the final file, if there is one, where all files before it were written; else none.
pub fn write_last_after<S: Shelf>(
    alloc: Global,
    shelf: &mut S,
    last: &Option<Name>,
    text: &Option<Vec<u8>>,
    written: Result<(), Unwritten>,
) -> Result<(), Unwritten>
    ensures after { IsAfter written result (last_in last.now text.now)
        (S.files shelf.old) (S.files shelf.new)
        (Rose (S.write_faults shelf.old) (S.write_faults shelf.new)) }
    ensures later { S.write_faults shelf.old ≤ S.write_faults shelf.new }
    ensures reads { S.read_faults shelf.new ≡ S.read_faults shelf.old }
    ensures none { last.now ≡ None → shelf.new ≡ shelf.old }
{
    match written {
        Ok(()) => write_last(alloc, shelf, last, text),
        Err(why) => Err(why),
    }
}

// Writes the final file, if there is one.
fn write_last<S: Shelf>(
    alloc: Global,
    shelf: &mut S,
    last: &Option<Name>,
    text: &Option<Vec<u8>>,
) -> Result<(), Unwritten>
    ensures written { OnOk result
        (Changes (S.files shelf.old) (S.files shelf.new) (HasWritten (last_in last.now text.now))) }
    ensures begun { OnErr result
        (Changes (S.files shelf.old) (S.files shelf.new) (HasBegun (last_in last.now text.now))) }
    ensures stops { IfErr result
        (IsUnwritten (names_of (last_in last.now text.now))
        (Rose (S.write_faults shelf.old) (S.write_faults shelf.new))) }
    ensures later { S.write_faults shelf.old ≤ S.write_faults shelf.new }
    ensures reads { S.read_faults shelf.new ≡ S.read_faults shelf.old }
    ensures none { last.now ≡ None → shelf.new ≡ shelf.old }
{
    match (last, text) {
        (Some(file), Some(text)) => write(alloc, shelf, file, text),
        _ => Ok(()),
    }
}
