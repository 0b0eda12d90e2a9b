//! The generator: a sequence of numbers for each worker, and the command that each two of them draw.
ghost use Rattle.std.specs.Prelude.{◌≡◌, ◌+◌, ◌*◌, ◌^◌, ◌<◌, ◌≤◌, All, [], ◌∷◌, ◌++◌, length, IfOk, OnOk};
ghost use Rattle.snap_text.specs.Clones.{all_free};
ghost use Rattle.snap_text.specs.Grammar.{HasValueInRange};
ghost use Rattle.snap_text.specs.Uses.{AllUseSlots};
ghost use Rattle.snap_made.specs.Generator.{census, census_after, command_of, first_number, key_of, lines_from, made_script, most_made, most_made_lines, number_after, share_of};

use snap_model::{Command, Key, Name, OutOfMemory};
use snap_text::{Line, Script};
use std::alloc::Global;

/// After so many drawn commands each worker counts all keys.
const CENSUS_EVERY: u32 = 10_000;

/// The keys of a worker are so many.
const KEYS: u32 = 10_000;

const MODULUS: u64 = 2_147_483_648;

const MULTIPLIER: u64 = 1_103_515_245;

const INCREMENT: u64 = 12_345;

/// The script of a worker, one of several, where they draw so many commands in all. It is the same at each call. Keys
/// of different workers differ.
pub fn make_script(
    alloc: Global,
    commands: u32,
    seed: u32,
    workers: u32,
    worker: u32,
) -> Result<Script, OutOfMemory>
    requires worker { worker < workers }
    requires few { commands ≤ most_made }
    ensures script { IfOk result (λ script. script ≡ made_script commands seed workers worker) }
    // No command of it lacks a slot or a clone, and it has few lines.
    ensures uses { IfOk result (AllUseSlots all_free) }
    ensures in_range { IfOk result (All (λ line. HasValueInRange line.command)) }
    ensures few { IfOk result (λ script. length script ≤ most_made_lines) }
{
    let mut script = Script::new(alloc);
    let mut number = first_number(seed, worker);
    for drawn in 0..share_of(commands, workers, worker) {
        let a = number_after(number);
        number = number_after(a);
        add(&mut script, command_of(workers, worker, a, number))?;
        add_census(alloc, &mut script, drawn + 1)?;
    }
    Ok(script)
}

// Counts all keys after every 10,000th command.
fn add_census(alloc: Global, script: &mut Script, drawn: u32) -> Result<(), OutOfMemory>
    requires { length script.old < 4_294_967_290 }
    ensures { OnOk result
        (script.new ≡ script.old ++ lines_from (length script.old + 1) (census_after drawn)) }
{
    if !drawn.is_multiple_of(CENSUS_EVERY) {
        return Ok(());
    }
    let name = Name::new(alloc, "g")?;
    add(script, Command::Snap { slot: 0, name })?;
    add(
        script,
        Command::Count {
            slot: 0,
            lo: 0,
            hi: Key::MAX,
        },
    )?;
    let name = Name::new(alloc, "g")?;
    add(script, Command::Forget { slot: 0, name })
}

// Adds a command in a line of its own.
fn add(script: &mut Script, command: Command) -> Result<(), OutOfMemory>
    requires { length script.old < 4_294_967_295 }
    ensures { OnOk result
        (script.new
        ≡ script.old ++ record { line = length script.old + 1; command = command } ∷ []) }
{
    let line = script.lines().len() as u32 + 1;
    script.add(Line { line, command })
}

// How many of the commands the worker draws.
fn share_of(commands: u32, workers: u32, worker: u32) -> u32
    requires worker { worker < workers }
    requires few { commands ≤ most_made }
    ensures share { result ≡ share_of commands workers worker }
    ensures few { result ≤ 1_000_001 }
{
    let more = u32::from(worker < commands % workers);
    commands / workers + more
}

fn command_of(workers: u32, worker: u32, a: u32, b: u32) -> Command
    requires { worker < workers }
    ensures { result ≡ command_of workers worker a b }
{
    let key = key_of(workers, worker, b);
    match a / 65_536 % 16 {
        0..=8 => Command::Put {
            key,
            value: u64::from(b),
        },
        9..=11 => Command::Remove { key },
        _ => Command::Get { key },
    }
}

fn key_of(workers: u32, worker: u32, number: u32) -> Key
    requires { worker < workers }
    ensures { result ≡ key_of workers worker number }
{
    let place = u64::from(number / 65_536 % KEYS);
    place * u64::from(workers) + u64::from(worker)
}

// The number that a worker begins with, and the one that follows another.
fn first_number(seed: u32, worker: u32) -> u32
    ensures { result ≡ first_number seed worker }
{
    ((u64::from(seed) + 4096 * u64::from(worker)) % MODULUS) as u32
}

fn number_after(number: u32) -> u32
    ensures { result ≡ number_after number }
{
    ((MULTIPLIER * u64::from(number) + INCREMENT) % MODULUS) as u32
}
