//! The command as `clap` knows it, and what the words give for each of its parts.
ghost use Rattle.std.specs.Prelude.{◌≡◌, ◌≢◌, [], IfErr, IfOk, codes, false, map, option_map, unwrap_or};
ghost use Rattle.std.specs.String.{string_bytes};
ghost use Rattle.clap.specs.Words.{all_of, app_of, first_of, found_of, rows_of, rule_of};
ghost use Rattle.snap_words.specs.CommandLine.{arguments_in, arguments_of, command, misuse, option_rule, scripts_rule};
ghost use Rattle.snap_words.specs.Givens.{given_by};

use crate::words::{WordsFault, WordsRefusal};
use clap::error::ErrorKind;
use clap::{Arg, ArgAction, ArgMatches, Command};
use std::alloc::{AllocError, Global};

/// What the words give for each part of the command.
#[derive(Clone, Copy)]
pub struct Given<'m, 'a> {
    pub rows: Option<&'a str>,
    pub last: Option<&'a str>,
    pub generate: Option<&'a str>,
    pub seed: Option<&'a str>,
    pub workers: Option<&'a str>,
    pub scripts: &'m [&'a str],
}

impl<'m, 'a> Given<'m, 'a> {
    /// What was found in words that the command takes.
    pub fn of(matches: &'m ArgMatches<'a>) -> Given<'m, 'a>
        ensures { given_by result ≡ arguments_in (rows_of (found_of matches.entry.now)) }
    {
        Given {
            rows: option_value(matches, "rows"),
            last: option_value(matches, "final"),
            generate: option_value(matches, "generate"),
            seed: option_value(matches, "seed"),
            workers: option_value(matches, "workers"),
            scripts: scripts_of(matches),
        }
    }
}

/// Reads words without the program's own name. They are misused where the command doesn't take them.
pub fn match_words<'a>(alloc: Global, words: &'a [String]) -> Result<ArgMatches<'a>, WordsFault>
    ensures taken { IfOk result (λ _. misuse (map string_bytes words.entry.now) ≡ []) }
    ensures arguments { IfOk result
        (λ matches. arguments_in (rows_of (found_of matches))
        ≡ arguments_of (map string_bytes words.entry.now)) }
    ensures refused { IfErr result
        (λ fault. fault ≢ WordsFault.Memory
        → (fault ≡ WordsFault.Refused WordsRefusal.Usage)
        × (misuse (map string_bytes words.entry.now) ≢ [])) }
{
    let command = new_command(alloc)?;
    match command.try_get_matches_from(words) {
        Ok(matches) => Ok(matches),
        Err(error) => Err(fault_by(error.kind())),
    }
}

// The command's own want of memory; every other kind is a misuse.
fn fault_by(kind: ErrorKind) -> WordsFault
    ensures memory { kind ≡ ErrorKind.OutOfMemory → result ≡ WordsFault.Memory }
    ensures misuse { kind ≢ ErrorKind.OutOfMemory → result ≡ WordsFault.Refused WordsRefusal.Usage }
{
    match kind {
        ErrorKind::OutOfMemory => WordsFault::Memory,
        _ => WordsFault::Refused {
            why: WordsRefusal::Usage,
        },
    }
}

fn new_command<'a>(alloc: Global) -> Result<Command<'a>, AllocError>
    ensures { IfOk result (λ made. app_of made ≡ command) }
{
    Command::new(alloc, "snaptable")
        .no_binary_name(true)
        .arg(option(alloc, "rows"))?
        .arg(option(alloc, "final"))?
        .arg(option(alloc, "generate"))?
        .arg(option(alloc, "seed"))?
        .arg(option(alloc, "workers"))?
        .arg(scripts(alloc, "SCRIPT"))
}

// An option with one value.
fn option<'a>(alloc: Global, name: &'a str) -> Arg<'a>
    ensures rule { rule_of result ≡ option_rule name.entry.now }
    ensures local { result.global ≡ false }
{
    Arg::new(alloc, name).long(name).action(ArgAction::Set)
}

// The words that belong to no option. Each use adds, so that options may stand between them.
fn scripts<'a>(alloc: Global, name: &'a str) -> Arg<'a>
    ensures rule { rule_of result ≡ scripts_rule name.entry.now }
    ensures local { result.global ≡ false }
{
    Arg::new(alloc, name)
        .action(ArgAction::Append)
        .num_args(1..)
}

fn option_value<'a>(matches: &ArgMatches<'a>, name: &str) -> Option<&'a str>
    ensures { option_map (λ text. text.now) result
        ≡ first_of name.now (rows_of (found_of matches.now)) }
{
    matches.get_str(name)
}

fn scripts_of<'m, 'a>(matches: &'m ArgMatches<'a>) -> &'m [&'a str]
    ensures { map (λ text. text.now) result.now
        ≡ unwrap_or (all_of (codes "SCRIPT") (rows_of (found_of matches.entry.now))) [] }
{
    matches.get_strs("SCRIPT").unwrap_or_default()
}
