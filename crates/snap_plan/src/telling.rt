//! The text of a stop, as it is printed.
ghost use Rattle.std.specs.Prelude.{◌≡◌, ◌++◌, IfOk};
ghost use Rattle.std.specs.String.{string_bytes};
ghost use Rattle.snap_plan.specs.Texts.{kind_name, limit_name, line_text, record_text, stop_text, words_name};

use crate::needs::Limit;
use crate::stop::Stop;
use snap_model::OutOfMemory;
use snap_text::LineKind;
use snap_words::WordsRefusal;
use std::alloc::Global;

impl Stop {
    /// What is told of this stop.
    pub fn text(&self, alloc: Global) -> Result<String, OutOfMemory>
        ensures { IfOk result (λ text. string_bytes text ≡ stop_text self.now) }
    {
        match self {
            Stop::Words { why } => words_text(alloc, *why),
            Stop::Read { file } => named_text(alloc, "read fault: ", file.text(), "\n"),
            Stop::Line { script, line, kind } => {
                line_text(alloc, script.text(), *line, kind_name(*kind))
            }
            Stop::LongScript { script } => named_text(
                alloc,
                "script ",
                script.text(),
                ": too long\n",
            ),
            Stop::Limit {
                script,
                line,
                limit,
            } => line_text(alloc, script.text(), *line, limit_name(*limit)),
            Stop::Record { file, number } => record_text(alloc, file.text(), *number),
            Stop::LongLoad { file } => named_text(alloc, "load ", file.text(), ": too long\n"),
            Stop::Memory => Ok(String::from_str(alloc, "out of memory\n")?),
        }
    }
}

fn words_text(alloc: Global, why: WordsRefusal) -> Result<String, OutOfMemory>
    ensures { IfOk result (λ text. string_bytes text ≡ stop_text (Stop.Words why)) }
{
    let name = words_name(why);
    Ok(format!(in alloc; "words refused: {name}\n")?)
}

// A name between two texts.
fn named_text(alloc: Global, before: &str, name: &str, behind: &str) -> Result<String, OutOfMemory>
    ensures { IfOk result (λ text. string_bytes text ≡ before.now ++ name.now ++ behind.now) }
{
    Ok(format!(in alloc; "{before}{name}{behind}")?)
}

fn line_text(alloc: Global, name: &str, line: u32, what: &str) -> Result<String, OutOfMemory>
    ensures { IfOk result (λ text. string_bytes text ≡ line_text name.now line what.now) }
{
    Ok(format!(in alloc; "script {name} line {line}: {what}\n")?)
}

fn record_text(alloc: Global, name: &str, number: u64) -> Result<String, OutOfMemory>
    ensures { IfOk result (λ text. string_bytes text ≡ record_text name.now number) }
{
    Ok(format!(in alloc; "load {name} record {number}: BadPair\n")?)
}

fn words_name(why: WordsRefusal) -> &'static str
    ensures { result.now ≡ words_name why }
{
    match why {
        WordsRefusal::Usage => "usage",
        WordsRefusal::Number => "number",
        WordsRefusal::Name => "name",
        WordsRefusal::Choice => "choice",
        WordsRefusal::Output => "output",
    }
}

fn kind_name(kind: LineKind) -> &'static str
    ensures { result.now ≡ kind_name kind }
{
    match kind {
        LineKind::UnknownWord => "UnknownWord",
        LineKind::WordCount => "WordCount",
        LineKind::BadNumber => "BadNumber",
        LineKind::BadName => "BadName",
        LineKind::NoSuchClone => "NoSuchClone",
        LineKind::CloneTaken => "CloneTaken",
        LineKind::TooManyClones => "TooManyClones",
    }
}

fn limit_name(limit: Limit) -> &'static str
    ensures { result.now ≡ limit_name limit }
{
    match limit {
        Limit::OutputTaken => "OutputTaken",
        Limit::TooManyTables => "TooManyTables",
        Limit::TooManyLoads => "TooManyLoads",
    }
}
