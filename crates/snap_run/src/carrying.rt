//! A plan is carried out: reply files are made, the scripts run while what they come to is written, the final file
//! follows, and what the run came to is told.
ghost use Rattle.std.specs.Prelude.{◌≡◌, ◌≢◌, None, [], IfOk, IfSome, OnErr, length};
ghost use Rattle.snap_io.specs.Prelude.{Changes, Rose};
ghost use Rattle.snap_plan.specs.Runnable.{IsRunnable};
ghost use Rattle.snap_run.specs.{Files.KeepsOthers, Files.names_written, Outcomes.HasEnded, Outcomes.IsCarried};
ghost use Rattle.snap_run.specs.{Printed.memory_text, Worlds.Tells, Worlds.world};

use crate::outcome::Outcome;
use crate::replies::{create_replies, reply_names, write_last_after};
use crate::reporting::report;
use snap_crew::{Finished, Task, run_scripts};
use snap_io::{Shelf, Sink, Turn};
use snap_model::OutOfMemory;
use snap_plan::Plan;
use snap_service::Fronts;
use std::alloc::Global;
use std::sync::Wait;
use std::thread::Threads;

/// Carries a plan out. Where memory is wanting the status is 6, and that is told.
pub fn carry_out<R: Threads + Wait + Sync, S: Shelf, K: Sink, T: Turn + Sync>(
    rt: &R,
    alloc: Global,
    plan: &Plan,
    shelf: &mut S,
    sink: &mut K,
    turn: &T,
) -> Outcome
    requires runnable { IsRunnable plan.now }
    requires a_worker_each { IfSome plan.now.replies
        (λ names. length names ≡ length plan.now.scripts) }
    ensures statuses { HasEnded result.status }
    ensures carried { result.status ≢ 6
        → IsCarried plan.now
        (world (S.files shelf.old) (K.written sink.old) (S.read_faults shelf.old)
        (S.write_faults shelf.old) (K.faults sink.old))
        (world (S.files shelf.new) (K.written sink.new)
        (S.read_faults shelf.new) (S.write_faults shelf.new) (K.faults sink.new)) result }
    ensures no_fronts { result.status ≡ 6 → result.fronts ≡ [] }
    ensures memory { result.status ≡ 6
        → Tells (K.written sink.old) (K.written sink.new)
        (Rose (K.faults sink.old) (K.faults sink.new)) memory_text }

    // Whatever the status, no file but those of the plan has changed, and the count of failed reads stays.
    ensures kept { Changes (S.files shelf.old) (S.files shelf.new)
        (KeepsOthers (names_written plan.now)) }
    ensures reads { S.read_faults shelf.new ≡ S.read_faults shelf.old }
    ensures blind { plan.now.replies ≡ None → plan.now.last ≡ None → shelf.new ≡ shelf.old }
{
    match complete(rt, alloc, plan, shelf, sink, turn) {
        Ok(outcome) => outcome,
        Err(_) => {
            let _ = sink.put(b"out of memory\n");
            Outcome {
                status: 6,
                fronts: Fronts::none(alloc),
            }
        }
    }
}

// The same, unless memory is wanting, which isn't told yet.
fn complete<R: Threads + Wait + Sync, S: Shelf, K: Sink, T: Turn + Sync>(
    rt: &R,
    alloc: Global,
    plan: &Plan,
    shelf: &mut S,
    sink: &mut K,
    turn: &T,
) -> Result<Outcome, OutOfMemory>
    requires runnable { IsRunnable plan.now }
    requires a_worker_each { IfSome plan.now.replies
        (λ names. length names ≡ length plan.now.scripts) }
    ensures carried { IfOk result
        (IsCarried plan.now
        (world (S.files shelf.old) (K.written sink.old) (S.read_faults shelf.old)
        (S.write_faults shelf.old) (K.faults sink.old))
        (world (S.files shelf.new) (K.written sink.new)
        (S.read_faults shelf.new) (S.write_faults shelf.new) (K.faults sink.new))) }
    ensures statuses { IfOk result (λ outcome. HasEnded outcome.status × (outcome.status ≢ 6)) }
    ensures silent { OnErr result (sink.new ≡ sink.old) }
    ensures kept { Changes (S.files shelf.old) (S.files shelf.new)
        (KeepsOthers (names_written plan.now)) }
    ensures reads { S.read_faults shelf.new ≡ S.read_faults shelf.old }
    ensures blind { plan.now.replies ≡ None → plan.now.last ≡ None → shelf.new ≡ shelf.old }
{
    let made = create_replies(alloc, shelf, &plan.replies);
    let task = Task {
        scripts: plan.scripts.list(),
        tables: plan.tables.list(),
        loads: &plan.loads,
        replies: reply_names(&plan.replies),
        rows: plan.rows,
        last: plan.last.is_some(),
    };
    let finished = run_scripts(rt, alloc, &task, turn, shelf, made)?;
    let Finished {
        fulls,
        written,
        fronts,
        last,
    } = finished;
    let written = write_last_after(alloc, shelf, &plan.last, &last, written);
    report(alloc, plan, &fulls, fronts, written, sink)
}
