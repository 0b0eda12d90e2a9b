//! What all scripts need together, tables and load files, and the first line that passes a limit of the run.
ghost use Rattle.std.specs.Prelude.{◌≡◌, ◌⊎◌, ◌||◌, ◌++◌, ℕ, List, [], ◌∷◌, None, false, IfOk, IfErr, OnOk, bytes_eq, length, not};
ghost use Rattle.std.specs.BTreeSet.{contains_text};
ghost use Rattle.snap_model.specs.declared.command.Command.{Command};
ghost use Rattle.snap_plan.specs.Needs.{all_commands, among, limit_of, loads_named, main_table, passed_in, tables_named, unless_passed, with_name};
ghost use Rattle.snap_plan.specs.Stops.{IsPastReading, IsStopBy};
ghost use Rattle.snap_plan.specs.Walks.{AddsNeeds, HasNeeds, PassesAt};

use crate::Stop;
use snap_model::{Command, Name, OutOfMemory};
use snap_text::{Line, MOST_LOADS, MOST_TABLES, Script};
use snap_words::NameList;
use std::alloc::Global;
use std::collections::BTreeSet;

/// A limit of a run.
#[derive(Clone, Copy, Debug, PartialEq, Eq)]
pub enum Limit {
    /// A file that is exported to is a reply file, the final file, or one that is exported to before.
    OutputTaken,
    /// More tables are named than a run may have.
    TooManyTables,
    /// More load files are named than a run may have.
    TooManyLoads,
}

/// A line of a script that passes a limit.
#[derive(Clone, Copy)]
pub struct Passed {
    pub line: u32,
    pub limit: Limit,
}

/// The tables and the load files of scripts, each in the order in which it is first named.
#[derive(Drop)]
pub struct Needs {
    pub tables: NameList,
    pub loads: NameList,
}

/// Walks the lines of scripts one after another, where the files `taken` are written too. They are refused for the
/// first line that passes a limit. No walk of a line depends on how many stand before it, but by the search in a sorted
/// set.
pub fn needs_of(
    alloc: Global,
    names: &[Name],
    taken: &[Name],
    scripts: &[Script],
) -> Result<Needs, Stop>
    requires { length names.now ≡ length scripts.now }
    ensures tables { IfOk result (λ needs. needs.tables ≡ tables_named (all_commands scripts.now)) }
    ensures loads { IfOk result (λ needs. needs.loads ≡ loads_named (all_commands scripts.now)) }
    ensures within { OnOk result (passed_in taken.now names.now scripts.now ≡ None) }
    ensures past_reading { IfErr result IsPastReading }
    ensures stops { IfErr result
        (IsStopBy (unless_passed scripts.now (passed_in taken.now names.now scripts.now))) }
{
    let mut walk = Walk::begin(alloc, taken)?;
    for (place, script) in scripts.iter().enumerate() {
        if let Some(passed) = walk.take_script(alloc, script.lines())? {
            return Err(limit_stop(alloc, &names[place], passed));
        }
    }
    let Walk { tables, loads, .. } = walk;
    Ok(Needs { tables, loads })
}

/// The tables of scripts that name none: the one on which each session begins.
pub fn first_tables(alloc: Global) -> Result<NameList, OutOfMemory>
    ensures { IfOk result (λ tables. tables ≡ main_table ∷ []) }
{
    let mut tables = NameList::new(alloc);
    tables.add(Name::new(alloc, "main")?)?;
    Ok(tables)
}

// The stop at a line of this script.
fn limit_stop(alloc: Global, script: &Name, passed: Passed) -> Stop
    ensures { (result ≡ Stop.Memory) ⊎ (result ≡ Stop.Limit script.now passed.line passed.limit) }
{
    match Name::new(alloc, script.text()) {
        Ok(script) => Stop::Limit {
            script,
            line: passed.line,
            limit: passed.limit,
        },
        Err(_) => Stop::Memory,
    }
}

// What the lines so far need, and the files that no later line may export to.
#[derive(Drop)]
struct Walk {
    tables: NameList,
    loads: NameList,
    taken: Taken,
}

impl Walk {
    fn begin(alloc: Global, taken: &[Name]) -> Result<Walk, OutOfMemory>
        ensures { IfOk result (HasNeeds taken.now []) }
    {
        let tables = first_tables(alloc)?;
        let loads = NameList::new(alloc);
        let taken = Taken::of(alloc, taken)?;
        Ok(Walk {
            tables,
            loads,
            taken,
        })
    }

    // Takes the lines of a script in, unless one of them passes a limit: the first is answered.
    fn take_script(&mut self, alloc: Global, lines: &[Line]) -> Result<Option<Passed>, OutOfMemory>
        ensures passed { IfOk result
            (λ passed. (taken : List (List ℕ)) (before : List Command)
            → HasNeeds taken before self.old → PassesAt taken before lines.now passed) }
        ensures needs { IfOk result
            (λ passed. (taken : List (List ℕ)) (before : List Command)
            → HasNeeds taken before self.old → AddsNeeds taken before lines.now self.new passed) }
    {
        for line in lines {
            if let Some(limit) = self.take_command(alloc, &line.command)? {
                return Ok(Some(Passed {
                    line: line.line,
                    limit,
                }));
            }
        }
        Ok(None)
    }

    // Takes a command in, and answers the limit that it passes.
    fn take_command(
        &mut self,
        alloc: Global,
        command: &Command,
    ) -> Result<Option<Limit>, OutOfMemory>
        ensures limit { IfOk result
            (λ limit. (taken : List (List ℕ)) (before : List Command)
            → HasNeeds taken before self.old → limit ≡ limit_of taken before command.now) }
        ensures needs { OnOk result
            ((taken : List (List ℕ)) (before : List Command) → HasNeeds taken before self.old
            → HasNeeds taken (before ++ command.now ∷ []) self.new) }
    {
        match command {
            Command::Table { name } => {
                add_new(alloc, &mut self.tables, name)?;
                Ok((self.tables.list().len() > MOST_TABLES).then_some(Limit::TooManyTables))
            }
            Command::Load { file } => {
                add_new(alloc, &mut self.loads, file)?;
                Ok((self.loads.list().len() > MOST_LOADS).then_some(Limit::TooManyLoads))
            }
            Command::Export { file, .. } => {
                let is_new = self.taken.add(alloc, file)?;
                Ok((!is_new).then_some(Limit::OutputTaken))
            }
            _ => Ok(None),
        }
    }
}

// Adds a name behind the others, unless it is one of them. There are few.
fn add_new(alloc: Global, names: &mut NameList, name: &Name) -> Result<(), OutOfMemory>
    ensures { OnOk result (names.new ≡ with_name names.old name.now) }
{
    if !has(names.list(), name) {
        names.add(Name::new(alloc, name.text())?)?;
    }
    Ok(())
}

fn has(names: &[Name], name: &Name) -> bool
    ensures { result ≡ among names.now name.now }
{
    let wanted = name.text();
    names.iter().any(|known| known.text() == wanted)
}

// The files that are written to, of which there may be many.
#[derive(Drop)]
struct Taken {
    names: BTreeSet<String>,
}

impl Taken {
    fn of(alloc: Global, files: &[Name]) -> Result<Taken, OutOfMemory>
        ensures { IfOk result
            (λ taken. (name : List ℕ) → contains_text taken.names name ≡ among files.now name) }
    {
        let mut taken = Taken {
            names: BTreeSet::new(alloc),
        };
        for file in files {
            taken.add(alloc, file)?;
        }
        Ok(taken)
    }

    // Adds a file, and answers whether it is new.
    fn add(&mut self, alloc: Global, file: &Name) -> Result<bool, OutOfMemory>
        ensures is_new { IfOk result
            (λ is_new. is_new ≡ not (contains_text self.old.names file.now)) }
        ensures names { OnOk result
            ((name : List ℕ)
            → contains_text self.new.names name
            ≡ (contains_text self.old.names name || bytes_eq file.now name)) }
    {
        let file = String::from_str(alloc, file.text())?;
        Ok(self.names.insert(file)?)
    }
}
