ghost use Rattle.std.specs.Prelude.{◌<◌, ◌≤◌};
ghost use Rattle.snap_made.specs.Generator.{most_made};

use crate::asserts::is_text_at;
use snap_made::make_script;
use snap_model::Command;
use std::alloc::{AllocError, Global};
use std::process::Abort;

// The first commands of a worker's script, and how many lines it has.
fn shown(alloc: Global, commands: u32, workers: u32, worker: u32) -> Result<String, AllocError>
    requires worker { worker < workers }
    requires few { commands ≤ most_made }
{
    let mut text = String::new(alloc);
    let Ok(script) = make_script(alloc, commands, 7, workers, worker) else {
        return Err(AllocError);
    };
    for line in script.lines().iter().take(4) {
        let shown = shown_command(alloc, &line.command)?;
        text.push_str(shown.as_str())?;
    }
    let count = script.lines().len();
    let end = format!(in alloc; "{count}")?;
    text.push_str(end.as_str())?;
    Ok(text)
}

fn shown_command(alloc: Global, command: &Command) -> Result<String, AllocError> {
    match command {
        Command::Put { key, value } => format!(in alloc; "put {key} {value}, "),
        Command::Remove { key } => format!(in alloc; "remove {key}, "),
        Command::Get { key } => format!(in alloc; "get {key}, "),
        _ => String::from_str(alloc, "other, "),
    }
}

fn shows<R: Abort>(rt: &R, alloc: Global, commands: u32, workers: u32, worker: u32, want: &str)
    requires worker { worker < workers }
    requires few { commands ≤ most_made }
{
    let found = shown(alloc, commands, workers, worker).expect(rt, "no memory");
    is_text_at(rt, found.as_str(), want, "a made script");
}

#[test]
fn made_scripts(rt: HostRuntime) {
    shows(
        &rt,
        rt.alloc(),
        4,
        1,
        0,
        "get 9806, put 2674 1486001571, put 3365 220562521, put 1790 2083449087, 4",
    );
    // The second of two workers has odd keys.
    shows(&rt, rt.alloc(), 5, 2, 1, "put 937 1341448029, get 13031, 2");
    shows(&rt, rt.alloc(), 2, 32, 2, "0");
}
