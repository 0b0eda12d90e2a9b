//! What a run that was carried out tells: its summary, or the file that could not be written.
ghost use Rattle.std.specs.Prelude.{◌≡◌, ◌≢◌, ◌⊎◌, ◌<◌, ◌++◌, ◌^◌, IfOk, OnErr, length};
ghost use Rattle.snap_io.specs.Prelude.{Rose};
ghost use Rattle.snap_run.specs.{Printed.fault_text, Printed.first_line, Printed.table_lines, Worlds.Tells};
ghost use Rattle.snap_run.specs.Reports.{IsReported, IsSummed, fulls_in, lines_in, summary_in};

use crate::outcome::Outcome;
use crate::summary::{Counts, fault_text, summary_text};
use snap_io::Sink;
use snap_model::{Name, OutOfMemory};
use snap_plan::Plan;
use snap_service::Fronts;
use snap_text::Script;
use snap_write::Unwritten;
use std::alloc::Global;

/// Tells what a plan came to, and answers its outcome.
pub fn report<K: Sink>(
    alloc: Global,
    plan: &Plan,
    fulls: &[u64],
    fronts: Fronts,
    written: Result<(), Unwritten>,
    sink: &mut K,
) -> Result<Outcome, OutOfMemory>
    requires a_front_each { length fronts ≡ length plan.now.tables }
    requires few_commands { lines_in plan.now.scripts < 2 ^ 63 }
    requires few_full { fulls_in fulls.now < 2 ^ 63 }
    ensures fronts { IfOk result (λ outcome. outcome.fronts ≡ fronts) }
    ensures told { IfOk result
        (λ outcome. IsReported (K.written sink.old) (K.written sink.new)
        (Rose (K.faults sink.old) (K.faults sink.new))
        (summary_in plan.now.scripts fulls.now plan.now.tables fronts)
        (fulls_in fulls.now) written outcome.status) }
    ensures silent { OnErr result (sink.new ≡ sink.old) }
{
    match written {
        Ok(()) => {
            let counts = counts_of(plan.scripts.list(), fulls);
            sum_up(alloc, &counts, plan.tables.list(), fronts, sink)
        }
        Err(Unwritten::File { file }) => tell_fault(alloc, &file, fronts, sink),
        Err(Unwritten::Memory) => Err(OutOfMemory),
    }
}

// Prints the summary.
fn sum_up<K: Sink>(
    alloc: Global,
    counts: &Counts,
    tables: &[Name],
    fronts: Fronts,
    sink: &mut K,
) -> Result<Outcome, OutOfMemory>
    requires { length fronts ≡ length tables.now }
    ensures fronts { IfOk result (λ outcome. outcome.fronts ≡ fronts) }
    ensures told { IfOk result
        (λ outcome. IsSummed (K.written sink.old) (K.written sink.new)
        (Rose (K.faults sink.old) (K.faults sink.new))
        (first_line counts.now.scripts counts.now.commands counts.now.full
        ++ table_lines tables.now fronts)
        counts.now.full outcome.status) }
    ensures silent { OnErr result (sink.new ≡ sink.old) }
{
    let text = summary_text(alloc, counts, tables, &fronts)?;
    match sink.put(text.as_bytes()) {
        Ok(()) => Ok(Outcome {
            status: status_by(counts.full),
            fronts,
        }),
        Err(_) => Ok(Outcome { status: 5, fronts }),
    }
}

// The status where all was done.
fn status_by(full: u64) -> u8
    ensures { ((result ≡ 0) × (full ≡ 0)) ⊎ ((result ≡ 1) × (full ≢ 0)) }
{
    if full == 0 { 0 } else { 1 }
}

// Tells the file that could not be written.
fn tell_fault<K: Sink>(
    alloc: Global,
    file: &Name,
    fronts: Fronts,
    sink: &mut K,
) -> Result<Outcome, OutOfMemory>
    ensures fronts { IfOk result (λ outcome. outcome.fronts ≡ fronts) }
    ensures status { IfOk result (λ outcome. outcome.status ≡ 5) }
    ensures told { IfOk result
        (λ outcome. Tells (K.written sink.old) (K.written sink.new)
        (Rose (K.faults sink.old) (K.faults sink.new)) (fault_text file.now)) }
    ensures silent { OnErr result (sink.new ≡ sink.old) }
{
    let text = fault_text(alloc, file)?;
    let _ = sink.put(text.as_bytes());
    Ok(Outcome { status: 5, fronts })
}

// How many scripts and commands were run, and how many of the replies are full.
fn counts_of(scripts: &[Script], fulls: &[u64]) -> Counts
    requires few_commands { lines_in scripts.now < 2 ^ 63 }
    requires few_full { fulls_in fulls.now < 2 ^ 63 }
    ensures scripts { result.scripts ≡ length scripts.now }
    ensures commands { result.commands ≡ lines_in scripts.now }
    ensures full { result.full ≡ fulls_in fulls.now }
{
    Counts {
        scripts: scripts.len() as u64,
        commands: commands_in(scripts),
        full: full_in(fulls),
    }
}

fn commands_in(scripts: &[Script]) -> u64
    requires { lines_in scripts.now < 2 ^ 63 }
    ensures { result ≡ lines_in scripts.now }
{
    let mut commands = 0;
    for script in scripts {
        commands += script.lines().len() as u64;
    }
    commands
}

fn full_in(fulls: &[u64]) -> u64
    requires { fulls_in fulls.now < 2 ^ 63 }
    ensures { result ≡ fulls_in fulls.now }
{
    let mut full = 0;
    for one in fulls {
        full += *one;
    }
    full
}
