//! From the bytes of files to scripts and pairs, or to the stop at the first that is refused.
ghost use Rattle.std.specs.Prelude.{◌≡◌, ◌≢◌, ◌≤◌, Ok, All, AllPairs, IfOk, IfErr, length, map};
ghost use Rattle.snap_text.specs.LoadFiles.{HasFile};
ghost use Rattle.snap_text.specs.Loads.{most_pairs};
ghost use Rattle.snap_text.specs.Numbers.{FitsValue};
ghost use Rattle.snap_plan.specs.Inputs.{as_load, as_script, meanings};
ghost use Rattle.snap_plan.specs.Runnable.{AllInRange, IsScript};
ghost use Rattle.snap_plan.specs.Stops.{IsPastReading, IsStopBy};

use crate::reading::Input;
use crate::{ScriptList, Stop};
use snap_model::Name;
use snap_text::{Loads, Pairs, PairsFault, Script, ScriptFault, read_pairs, read_script};
use std::alloc::Global;

/// The scripts of these texts, or the stop at the first that is refused.
pub fn parse_scripts(alloc: Global, inputs: &[Input]) -> Result<ScriptList, Stop>
    ensures scripts { IfOk result (λ scripts. meanings as_script inputs.now ≡ Ok scripts) }
    ensures fit { IfOk result (All IsScript) }
    ensures each { IfOk result (λ scripts. length scripts ≡ length inputs.now) }
    ensures past_reading { IfErr result IsPastReading }
    ensures stops { IfErr result (IsStopBy (meanings as_script inputs.now)) }
{
    let mut scripts = ScriptList::new(alloc);
    for input in inputs {
        let script = parse_script(alloc, input)?;
        scripts.add(script)?;
    }
    Ok(scripts)
}

fn parse_script(alloc: Global, input: &Input) -> Result<Script, Stop>
    ensures script { IfOk result (λ script. as_script input.now ≡ Ok script) }
    ensures fits { IfOk result IsScript }
    ensures past_reading { IfErr result IsPastReading }
    ensures stops { IfErr result (IsStopBy (as_script input.now)) }
{
    let script = Name::new(alloc, input.name.text())?;
    let Some(bytes) = &input.bytes else {
        return Err(Stop::LongScript { script });
    };
    match read_script(alloc, bytes) {
        Ok(lines) => Ok(lines),
        Err(ScriptFault::Line { line, kind }) => Err(Stop::Line { script, line, kind }),
        Err(ScriptFault::TooLong) => Err(Stop::LongScript { script }),
        Err(ScriptFault::Memory) => Err(Stop::Memory),
    }
}

/// The pairs of these load files, or the stop at the first that is refused.
pub fn parse_loads(alloc: Global, inputs: &[Input]) -> Result<Loads, Stop>
    requires { AllPairs (λ a b. a ≢ b) (map (λ input. input.0) inputs.now) }
    ensures loads { IfOk result (λ loads. meanings as_load inputs.now ≡ Ok loads) }
    ensures names { IfOk result
        (λ loads. map (λ file. file.0) loads ≡ map (λ input. input.0) inputs.now) }
    ensures in_range { IfOk result AllInRange }
    ensures past_reading { IfErr result IsPastReading }
    ensures stops { IfErr result (IsStopBy (meanings as_load inputs.now)) }
{
    let mut loads = Loads::new(alloc);
    for input in inputs {
        let pairs = parse_load(alloc, input)?;
        let file = Name::new(alloc, input.name.text())?;
        loads.add(file, pairs)?;
    }
    Ok(loads)
}

fn parse_load(alloc: Global, input: &Input) -> Result<Pairs, Stop>
    ensures pairs { IfOk result (λ pairs. as_load input.now ≡ Ok (input.now.0, pairs)) }
    ensures few { IfOk result (λ pairs. length pairs ≤ most_pairs) }
    ensures in_range { IfOk result (All (λ pair. FitsValue pair.1)) }
    ensures past_reading { IfErr result IsPastReading }
    ensures stops { IfErr result (IsStopBy (as_load input.now)) }
{
    let file = Name::new(alloc, input.name.text())?;
    let Some(bytes) = &input.bytes else {
        return Err(Stop::LongLoad { file });
    };
    match read_pairs(alloc, bytes) {
        Ok(pairs) => Ok(pairs),
        Err(PairsFault::Record { number }) => Err(Stop::Record { file, number }),
        Err(PairsFault::TooLong) => Err(Stop::LongLoad { file }),
        Err(PairsFault::Memory) => Err(Stop::Memory),
    }
}
