//! The texts that are told once the scripts have run.
ghost use Rattle.std.specs.{Prelude.◌++◌, Prelude.◌≡◌, Prelude.IfOk, Prelude.length, String.string_bytes};
ghost use Rattle.snap_run.specs.Printed.{fault_text, first_line, table_line, table_lines};

use snap_model::{Name, OutOfMemory};
use snap_service::Fronts;
use std::alloc::Global;

/// How many scripts and commands were run, and how many replies are full.
#[derive(Drop)]
pub struct Counts {
    pub scripts: u64,
    pub commands: u64,
    pub full: u64,
}

/// The summary of a run on tables of these names.
pub fn summary_text(
    alloc: Global,
    counts: &Counts,
    tables: &[Name],
    fronts: &Fronts,
) -> Result<String, OutOfMemory>
    requires { length fronts.now ≡ length tables.now }
    ensures { IfOk result
        (λ text. string_bytes text
        ≡ first_line counts.now.scripts counts.now.commands counts.now.full
        ++ table_lines tables.now fronts.now) }
{
    let mut text = first_line(alloc, counts)?;
    let fronts = fronts.list();
    for (place, table) in tables.iter().enumerate() {
        let front = &fronts[place];
        let line = table_line(alloc, table.text(), front.writes, front.pairs)?;
        text.push_str(line.as_str())?;
    }
    Ok(text)
}

fn first_line(alloc: Global, counts: &Counts) -> Result<String, OutOfMemory>
    ensures { IfOk result
        (λ line. string_bytes line
        ≡ first_line counts.now.scripts counts.now.commands counts.now.full) }
{
    let Counts {
        scripts,
        commands,
        full,
    } = counts;
    Ok(format!(in alloc; "scripts {scripts} commands {commands} full {full}\n")?)
}

fn table_line(alloc: Global, name: &str, writes: u64, pairs: u64) -> Result<String, OutOfMemory>
    ensures { IfOk result (λ line. string_bytes line ≡ table_line name.now writes pairs) }
{
    Ok(format!(in alloc; "table {name} writes {writes} pairs {pairs}\n")?)
}

/// The text on a file that could not be written.
pub fn fault_text(alloc: Global, file: &Name) -> Result<String, OutOfMemory>
    ensures { IfOk result (λ text. string_bytes text ≡ fault_text file.now) }
{
    let file = file.text();
    Ok(format!(in alloc; "write fault: {file}\n")?)
}
