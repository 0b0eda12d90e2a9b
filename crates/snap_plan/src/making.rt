//! The plan of scripts that are made up, which needs no file.
ghost use Rattle.std.specs.Prelude.{◌≡◌, ◌≤◌, All, IfOk};
ghost use Rattle.snap_made.specs.Generator.{made_scripts, most_made};
ghost use Rattle.snap_words.specs.Words.{most_rows, most_workers};
ghost use Rattle.snap_plan.specs.Endings.{made_plan};
ghost use Rattle.snap_plan.specs.Runnable.{IsRunnable, IsScript};

use crate::needs::first_tables;
use crate::{Plan, ScriptList};
use snap_made::make_script;
use snap_model::{Name, OutOfMemory};
use snap_text::Loads;
use std::alloc::Global;

/// The plan of scripts that are made, one for each worker. They name no table and no file.
pub fn make_plan(
    alloc: Global,
    commands: u32,
    seed: u32,
    workers: u32,
    rows: u32,
    last: Option<Name>,
) -> Result<Plan, OutOfMemory>
    requires commands { commands ≤ most_made }
    requires some_workers { 1 ≤ workers }
    requires few_workers { workers ≤ most_workers }
    requires some_rows { 1 ≤ rows }
    requires few_rows { rows ≤ most_rows }
    ensures plan { IfOk result (λ plan. plan ≡ made_plan rows last commands seed workers) }
    ensures runnable { IfOk result IsRunnable }
{
    let scripts = make_scripts(alloc, commands, seed, workers)?;
    let tables = first_tables(alloc)?;
    Ok(Plan {
        scripts,
        replies: None,
        tables,
        loads: Loads::new(alloc),
        rows,
        last,
    })
}

fn make_scripts(
    alloc: Global,
    commands: u32,
    seed: u32,
    workers: u32,
) -> Result<ScriptList, OutOfMemory>
    requires { commands ≤ most_made }
    ensures scripts { IfOk result
        (λ scripts. scripts ≡ made_scripts commands seed workers workers) }
    ensures fit { IfOk result (All IsScript) }
{
    let mut scripts = ScriptList::new(alloc);
    for worker in 0..workers {
        scripts.add(make_script(alloc, commands, seed, workers, worker)?)?;
    }
    Ok(scripts)
}
