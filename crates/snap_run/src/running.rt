//! The top call: from the command line to the status.
ghost use Rattle.std.specs.Prelude.{◌≡◌, ◌≢◌, ◌⊎◌, [], map, IsErr};
ghost use Rattle.std.specs.String.{string_bytes};
ghost use Rattle.snap_io.specs.Prelude.{Changes, IfTold, Rose};
ghost use Rattle.snap_plan.specs.{Endings.ending_of, Endings.OfMade, Stops.status_of, Texts.stop_text};
ghost use Rattle.snap_run.specs.{Files.KeepsOthers, Files.names_given, Printed.memory_text, Worlds.Tells, Worlds.world};
ghost use Rattle.snap_run.specs.Outcomes.{HasStatus, IsGood, IsStatus, IsUnneeded};
ghost use Rattle.snap_words.specs.Words.{job_of};

use crate::carrying::carry_out;
use crate::outcome::Outcome;
use snap_io::{Shelf, Sink, Turn};
use snap_plan::{Stop, accept};
use snap_service::Fronts;
use std::alloc::Global;
use std::sync::Wait;
use std::thread::Threads;

/// Runs the scripts that the words name, or those that they ask to have made, each by a worker of its own; writes their
/// replies and exports and the final file, and tells the summary. A refusal and a fault are told, too.
///
/// The words are those of the command line without the program's own name. All scripts and load files are read before
/// any file is written. With scripts that are made the count of failed reads stays (`reads`); by the code, the shelf is
/// used for the final file alone.
pub fn run<R: Threads + Wait + Sync, S: Shelf, K: Sink, T: Turn + Sync>(
    rt: &R,
    alloc: Global,
    words: &[String],
    shelf: &mut S,
    sink: &mut K,
    turn: &T,
) -> Outcome
    // The words are refused exactly at 2, unless memory is wanting.
    ensures statuses { IsStatus result.status }
    ensures words { result.status ≡ 2 → IsErr (job_of (map string_bytes words.now)) }
    ensures words_refused { IsErr (job_of (map string_bytes words.now))
        → (result.status ≡ 2) ⊎ (result.status ≡ 6) }

    // Where the shelf tells its files, words and files decide the status, but for want of memory and faults.
    ensures status { IfTold (S.files shelf.old)
        (λ files. HasStatus (ending_of (map string_bytes words.now) files) result.status
        (world (S.files shelf.old) (K.written sink.old)
        (S.read_faults shelf.old) (S.write_faults shelf.old) (K.faults sink.old))
        (world (S.files shelf.new) (K.written sink.new)
        (S.read_faults shelf.new) (S.write_faults shelf.new) (K.faults sink.new))) }

    // Unless memory was wanting, the run was stopped for the first reason and touched no file, or the plan was carried out.
    ensures good { result.status ≢ 6 → IsGood (map string_bytes words.now)
        (world (S.files shelf.old) (K.written sink.old)
        (S.read_faults shelf.old) (S.write_faults shelf.old) (K.faults sink.old))
        (world (S.files shelf.new) (K.written sink.new)
        (S.read_faults shelf.new) (S.write_faults shelf.new) (K.faults sink.new)) result }
    ensures no_fronts { result.status ≡ 6 → result.fronts ≡ [] }
    ensures memory { result.status ≡ 6
        → Tells (K.written sink.old) (K.written sink.new)
        (Rose (K.faults sink.old) (K.faults sink.new)) memory_text }

    // Whatever the status, no file has changed but those that the plan of words and files may write.
    ensures kept { Changes (S.files shelf.old) (S.files shelf.new)
        (λ old. KeepsOthers (names_given (ending_of (map string_bytes words.now) old)) old) }

    // With made scripts the count of failed reads stays. Without a final file they leave the shelf as it was.
    ensures reads { OfMade (job_of (map string_bytes words.now))
        (λ _. S.read_faults shelf.new ≡ S.read_faults shelf.old) }
    ensures blind { IsUnneeded (job_of (map string_bytes words.now)) → shelf.new ≡ shelf.old }
{
    match accept(alloc, words, shelf) {
        Ok(plan) => carry_out(rt, alloc, &plan, shelf, sink, turn),
        Err(stop) => Outcome {
            status: tell(alloc, &stop, sink),
            fronts: Fronts::none(alloc),
        },
    }
}

/// Tells a stop to the sink, and answers the status of the run. Where the text finds no memory, that is told instead;
/// where the sink fails, the status stays.
pub fn tell<K: Sink>(alloc: Global, stop: &Stop, sink: &mut K) -> u8
    ensures status { (result ≡ 6) ⊎ (result ≡ status_of stop.now) }
    ensures told { result ≢ 6
        → Tells (K.written sink.old) (K.written sink.new)
        (Rose (K.faults sink.old) (K.faults sink.new)) (stop_text stop.now) }
    ensures memory { result ≡ 6
        → Tells (K.written sink.old) (K.written sink.new)
        (Rose (K.faults sink.old) (K.faults sink.new)) memory_text }
{
    let Ok(text) = stop.text(alloc) else {
        let _ = sink.put(b"out of memory\n");
        return 6;
    };
    let _ = sink.put(text.as_bytes());
    stop.status()
}
