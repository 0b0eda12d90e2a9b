//! The first fault of what the words give, or their numbers, found without taking memory.
ghost use Rattle.std.specs.Prelude.{◌≡◌, Some, None, bytes_eq, map, option_map, if◌then◌else◌};
ghost use Rattle.std.specs.List.{list_all, list_any};
ghost use Rattle.std.specs.Str.Parse.{digits_value};
ghost use Rattle.snap_text.specs.Names.{is_file};
ghost use Rattle.snap_words.specs.Givens.{given_by};
ghost use Rattle.snap_words.specs.Outputs.{has_twice, outputs, reply_name};
ghost use Rattle.snap_words.specs.Words.{has_choice, has_names, has_numbers, is_number_from, number_or, passes};
ghost use Rattle.snap_words.specs.Checks.{checked, numbers_in};

use crate::command_line::Given;
use crate::words::{DEFAULT_ROWS, MOST_SCRIPTS, MOST_WORKERS, WordsRefusal};
use snap_text::{MOST_ROWS, is_file, read_number};

/// The most commands that are made.
const MOST_COMMANDS: u32 = 1_000_000;

/// The greatest seed of made scripts.
const MOST_SEED: u32 = 2_147_483_647;

/// The numbers that the words give, or the usual ones.
#[derive(Clone, Copy)]
pub struct Numbers {
    pub rows: u32,
    /// The commands that are to be made, where any are.
    pub commands: Option<u32>,
    pub seed: u32,
    pub workers: u32,
}

/// Tells the first fault of what the words give, or their numbers. It takes no memory.
pub fn check(given: &Given<'_, '_>) -> Result<Numbers, WordsRefusal>
    ensures { result ≡ checked (given_by given.now) }
{
    let Some(numbers) = read_numbers(given) else {
        return Err(WordsRefusal::Number);
    };
    if !has_names(given) {
        return Err(WordsRefusal::Name);
    }
    if !has_choice(given) {
        return Err(WordsRefusal::Choice);
    }
    if outputs_meet(given.scripts, given.last) {
        return Err(WordsRefusal::Output);
    }
    Ok(numbers)
}

fn read_numbers(given: &Given<'_, '_>) -> Option<Numbers>
    ensures { result
        ≡ (if has_numbers (given_by given.now) then Some (numbers_in (given_by given.now))
        else None) }
{
    let rows = number_or(given.rows, 1, MOST_ROWS, DEFAULT_ROWS)?;
    let commands = match given.generate {
        None => None,
        Some(text) => Some(number_from(text, 1, MOST_COMMANDS)?),
    };
    Some(Numbers {
        rows,
        commands,
        seed: number_or(given.seed, 0, MOST_SEED, 1)?,
        workers: number_or(given.workers, 1, MOST_WORKERS, 1)?,
    })
}

// The number that is given, if it is one in the range, or the usual one.
fn number_or(text: Option<&str>, least: u32, most: u32, usual: u32) -> Option<u32>
    ensures { result
        ≡ (if passes (is_number_from least most) (option_map (λ t. t.now) text.entry)
        then Some (number_or usual (option_map (λ t. t.now) text.entry))
        else None) }
{
    match text {
        None => Some(usual),
        Some(text) => number_from(text, least, most),
    }
}

fn number_from(text: &str, least: u32, most: u32) -> Option<u32>
    ensures { result
        ≡ (if is_number_from least most text.now then Some (digits_value 10 text.now) else None) }
{
    let number = read_number(text.as_bytes())?;
    if number < u64::from(least) || number > u64::from(most) {
        return None;
    }
    Some(number as u32)
}

fn has_names(given: &Given<'_, '_>) -> bool
    ensures { result ≡ has_names (given_by given.now) }
{
    given.last.is_none_or(|name| is_file(name.as_bytes())) && are_files(given.scripts)
}

fn are_files(names: &[&str]) -> bool
    ensures { result ≡ list_all (λ name. is_file name.now) names.now }
{
    names.iter().all(|name| is_file(name.as_bytes()))
}

// Either scripts are named, or scripts are to be made.
fn has_choice(given: &Given<'_, '_>) -> bool
    ensures { result ≡ has_choice (given_by given.now) }
{
    if given.generate.is_some() {
        return given.scripts.is_empty();
    }
    !given.scripts.is_empty()
        && given.scripts.len() <= MOST_SCRIPTS
        && given.seed.is_none()
        && given.workers.is_none()
}

// Whether two of the files that are to be written are one.
#[tactic(auto, using(crate::proofs::Outputs::outputs_with, crate::proofs::Outputs::outputs_without))]
fn outputs_meet(scripts: &[&str], last: Option<&str>) -> bool
    ensures { result
        ≡ has_twice
        (outputs (map (λ name. name.now) scripts.now) (option_map (λ name. name.now) last.entry)) }
{
    match last {
        None => has_twice(scripts),
        Some(last) => has_twice(scripts) || is_reply_name(scripts, last),
    }
}

fn has_twice(scripts: &[&str]) -> bool
    ensures { result ≡ has_twice (map (λ name. name.now) scripts.now) }
{
    for (place, script) in scripts.iter().enumerate() {
        if is_among(&scripts[..place], script.as_bytes()) {
            return true;
        }
    }
    false
}

fn is_among(scripts: &[&str], name: &[u8]) -> bool
    ensures { result ≡ list_any (λ script. bytes_eq script.now name.now) scripts.now }
{
    scripts.iter().any(|script| script.as_bytes() == name)
}

// Whether the name is that of the reply file of one of the scripts.
fn is_reply_name(scripts: &[&str], name: &str) -> bool
    ensures { result
        ≡ list_any (bytes_eq name.now) (map reply_name (map (λ script. script.now) scripts.now)) }
{
    match name.as_bytes().strip_suffix(b".out") {
        None => false,
        Some(script) => is_among(scripts, script),
    }
}
