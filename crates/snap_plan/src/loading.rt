//! Scripts and load files, from the shelf to what they mean: all are read first, and then taken one after another.
ghost use Rattle.std.specs.Prelude.{◌≡◌, ◌≢◌, Ok, All, AllPairs, IfOk, IfErr, length, map};
ghost use Rattle.snap_io.specs.Prelude.{IfTold, OnlyReads, Rose};
ghost use Rattle.snap_plan.specs.Inputs.{loads_in, scripts_in};
ghost use Rattle.snap_plan.specs.Runnable.{AllInRange, IsScript};
ghost use Rattle.snap_plan.specs.Stops.{IsPastWords, StopsBy};

use crate::parsing::{parse_loads, parse_scripts};
use crate::reading::read_all;
use crate::{ScriptList, Stop};
use snap_io::Shelf;
use snap_model::Name;
use snap_text::{Loads, MOST_LOAD_BYTES, MOST_SCRIPT_BYTES};
use std::alloc::Global;

/// Reads scripts in their order, and then parses them.
pub fn read_scripts<S: Shelf>(
    alloc: Global,
    shelf: &mut S,
    names: &[Name],
) -> Result<ScriptList, Stop>
    ensures scripts { IfOk result
        (λ scripts. IfTold (S.files shelf.old) (λ f. scripts_in f names.now ≡ Ok scripts)) }
    ensures each { IfOk result (λ scripts. length scripts ≡ length names.now) }
    ensures fit { IfOk result (All IsScript) }
    ensures past_words { IfErr result IsPastWords }
    ensures stops { IfErr result
        (StopsBy (S.files shelf.old) (λ f. scripts_in f names.now) (λ f. names.now)
        (Rose (S.read_faults shelf.old) (S.read_faults shelf.new))) }
    ensures only_reads { OnlyReads S.files S.read_faults S.write_faults shelf.old shelf.new }
{
    let inputs = read_all(alloc, shelf, names, MOST_SCRIPT_BYTES as u64)?;
    parse_scripts(alloc, &inputs)
}

/// Reads load files in their order, each once, and then parses them.
pub fn read_loads<S: Shelf>(alloc: Global, shelf: &mut S, names: &[Name]) -> Result<Loads, Stop>
    requires { AllPairs (λ a b. a ≢ b) names.now }
    ensures loads { IfOk result
        (λ loads. IfTold (S.files shelf.old) (λ f. loads_in f names.now ≡ Ok loads)) }
    ensures names { IfOk result (λ loads. map (λ file. file.0) loads ≡ names.now) }
    ensures in_range { IfOk result AllInRange }
    ensures past_words { IfErr result IsPastWords }
    ensures stops { IfErr result
        (StopsBy (S.files shelf.old) (λ f. loads_in f names.now) (λ f. names.now)
        (Rose (S.read_faults shelf.old) (S.read_faults shelf.new))) }
    ensures only_reads { OnlyReads S.files S.read_faults S.write_faults shelf.old shelf.new }
{
    let inputs = read_all(alloc, shelf, names, MOST_LOAD_BYTES as u64)?;
    parse_loads(alloc, &inputs)
}
