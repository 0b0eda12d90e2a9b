//! The top of the crate: words lead to a plan, or to the first thing by which the run is stopped.
ghost use Rattle.std.specs.Prelude.{◌≡◌, ◌≤◌, ◌++◌, [], None, false, Ok, IfOk, IfErr, IsErr, MatchResult, OnOk, length, map};
ghost use Rattle.std.specs.String.{string_bytes};
ghost use Rattle.snap_io.specs.Prelude.{IfTold, OnlyReads, Rose};
ghost use Rattle.snap_words.specs.Outputs.{has_twice, outputs, reply_name};
ghost use Rattle.snap_words.specs.Words.{IsWithinLimits, job_of, most_rows, most_scripts};
ghost use Rattle.snap_plan.specs.Endings.{IsFor, IsForJob, OfMade, OfMadeWork, ending_of, inputs_for, inputs_of, made_plan, plan_for, plan_of_scripts};
ghost use Rattle.snap_plan.specs.Needs.{all_commands, loads_named, passed_in, tables_named, unless_passed};
ghost use Rattle.snap_plan.specs.Runnable.{IsRunnable};
ghost use Rattle.snap_plan.specs.Stops.{IsOfWords, IsPastReading, IsPastWords, IsRefusedBy, IsStopBy, StopsBy};

use crate::loading::{read_loads, read_scripts};
use crate::making::make_plan;
use crate::needs::{Needs, needs_of};
use crate::{Plan, Stop};
use snap_io::Shelf;
use snap_model::{Name, OutOfMemory};
use snap_text::Script;
use snap_words::{Job, NameList, Work, read_words};
use std::alloc::Global;

/// Reads the words, and then the scripts that they name and the load files that these name; or makes the scripts that
/// they ask for, without a look at the shelf. No file is written.
pub fn accept<S: Shelf>(alloc: Global, words: &[String], shelf: &mut S) -> Result<Plan, Stop>
    ensures plan { IfOk result
        (λ plan. IfTold (S.files shelf.old)
        (λ f. ending_of (map string_bytes words.now) f ≡ Ok plan)) }
    ensures asked { IfOk result (IsFor (job_of (map string_bytes words.now))) }
    ensures runnable { IfOk result IsRunnable }

    ensures words { IfErr result (IsRefusedBy (job_of (map string_bytes words.now))) }
    ensures words_refused { IsErr (job_of (map string_bytes words.now)) → IsOfWords result }
    ensures stops { IfErr result
        (StopsBy (S.files shelf.old) (ending_of (map string_bytes words.now))
        (inputs_of (map string_bytes words.now))
        (Rose (S.read_faults shelf.old) (S.read_faults shelf.new))) }
    ensures made { OfMade (job_of (map string_bytes words.now))
        (λ made. (shelf.new ≡ shelf.old)
        × MatchResult result (λ plan. plan ≡ made) (λ stop. stop ≡ Stop.Memory)) }

    ensures only_reads { OnlyReads S.files S.read_faults S.write_faults shelf.old shelf.new }
{
    let job = read_words(alloc, words)?;
    accept_job(alloc, job, shelf)
}

// The plan of a job.
fn accept_job<S: Shelf>(alloc: Global, job: Job, shelf: &mut S) -> Result<Plan, Stop>
    requires { IsWithinLimits job }
    ensures plan { IfOk result
        (λ plan. IfTold (S.files shelf.old)
        (λ f. plan_for job.rows job.last job.work f ≡ Ok plan)) }
    ensures asked { IfOk result (IsForJob job) }
    ensures runnable { IfOk result IsRunnable }

    ensures past_words { IfErr result IsPastWords }
    ensures stops { IfErr result
        (StopsBy (S.files shelf.old) (plan_for job.rows job.last job.work)
        (inputs_for job.last job.work) (Rose (S.read_faults shelf.old) (S.read_faults shelf.new))) }
    ensures made { OfMadeWork job.rows job.last job.work
        (λ made. (shelf.new ≡ shelf.old)
        × MatchResult result (λ plan. plan ≡ made) (λ stop. stop ≡ Stop.Memory)) }

    ensures only_reads { OnlyReads S.files S.read_faults S.write_faults shelf.old shelf.new }
{
    let Job { rows, last, work } = job;
    match work {
        Work::Scripts { names } => accept_scripts(alloc, &names, rows, last, shelf),
        Work::Made {
            commands,
            seed,
            workers,
        } => Ok(make_plan(alloc, commands, seed, workers, rows, last)?),
    }
}

// The plan of scripts that are read.
fn accept_scripts<S: Shelf>(
    alloc: Global,
    names: &NameList,
    rows: u32,
    last: Option<Name>,
    shelf: &mut S,
) -> Result<Plan, Stop>
    requires some_scripts { 1 ≤ length names.now }
    requires few_scripts { length names.now ≤ most_scripts }
    requires some_rows { 1 ≤ rows }
    requires few_rows { rows ≤ most_rows }
    requires outputs { has_twice (outputs names.now last) ≡ false }
    ensures plan { IfOk result
        (λ plan. IfTold (S.files shelf.old)
        (λ f. plan_of_scripts rows last names.now f ≡ Ok plan)) }
    ensures asked { IfOk result
        (λ plan. IsForJob
        (record { rows = rows; last = last; work = Work.Scripts names.now }) plan) }
    ensures runnable { IfOk result IsRunnable }

    ensures past_words { IfErr result IsPastWords }
    ensures stops { IfErr result
        (StopsBy (S.files shelf.old) (plan_of_scripts rows last names.now)
        (inputs_for last (Work.Scripts names.now))
        (Rose (S.read_faults shelf.old) (S.read_faults shelf.new))) }

    ensures only_reads { OnlyReads S.files S.read_faults S.write_faults shelf.old shelf.new }
{
    let names = names.list();
    let scripts = read_scripts(alloc, shelf, names)?;
    let Needs { tables, loads } = needs_within(alloc, names, &last, scripts.list())?;
    let loads = read_loads(alloc, shelf, loads.list())?;
    let replies = reply_names(alloc, names)?;
    Ok(Plan {
        scripts,
        replies: Some(replies),
        tables,
        loads,
        rows,
        last,
    })
}

// What scripts need, which are refused for the first line that passes a limit.
fn needs_within(
    alloc: Global,
    names: &[Name],
    last: &Option<Name>,
    scripts: &[Script],
) -> Result<Needs, Stop>
    requires { length names.now ≡ length scripts.now }
    ensures tables { IfOk result (λ needs. needs.tables ≡ tables_named (all_commands scripts.now)) }
    ensures loads { IfOk result (λ needs. needs.loads ≡ loads_named (all_commands scripts.now)) }
    ensures within { OnOk result
        (passed_in (outputs names.now last.now) names.now scripts.now ≡ None) }
    ensures past_reading { IfErr result IsPastReading }
    ensures stops { IfErr result
        (IsStopBy
        (unless_passed scripts.now
        (passed_in (outputs names.now last.now) names.now scripts.now))) }
{
    let taken = output_names(alloc, names, last)?;
    needs_of(alloc, names, taken.list(), scripts)
}

// The files that are written beside the exports.
fn output_names(
    alloc: Global,
    scripts: &[Name],
    last: &Option<Name>,
) -> Result<NameList, OutOfMemory>
    ensures { IfOk result (λ names. names ≡ outputs scripts.now last.now) }
{
    let mut names = reply_names(alloc, scripts)?;
    if let Some(last) = last {
        names.add(Name::new(alloc, last.text())?)?;
    }
    Ok(names)
}

// The names of the scripts' reply files.
fn reply_names(alloc: Global, scripts: &[Name]) -> Result<NameList, OutOfMemory>
    ensures { IfOk result (λ names. names ≡ map reply_name scripts.now) }
{
    let mut names = NameList::new(alloc);
    for script in scripts {
        names.add(reply_name(alloc, script)?)?;
    }
    Ok(names)
}

fn reply_name(alloc: Global, script: &Name) -> Result<Name, OutOfMemory>
    ensures { IfOk result (λ name. name ≡ reply_name script.now) }
{
    let script = script.text();
    let text = format!(in alloc; "{script}.out")?;
    Name::new(alloc, text.as_str())
}
