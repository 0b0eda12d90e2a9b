//! A command as a derived `Debug` shows it: its word, and then those fields that it has. Each field
//! is found by a function of its own, since the proof of one function over all commands with their
//! fields takes ten times as long.
use crate::{Command, Key, Name};
use std::fmt;
use std::fmt::{Debug, DebugStruct, Formatter, Write};

impl fmt::Debug for Command {
    fn fmt<W: Write>(&self, f: &mut Formatter<W>) -> fmt::Result {
        let mut shown = f.debug_struct(word_of(self));
        show_numbers(&mut shown, self);
        show(&mut shown, "name", name_in(self));
        show(&mut shown, "file", file_in(self));
        shown.finish()
    }
}

fn show_numbers<W: Write>(shown: &mut DebugStruct<'_, W>, command: &Command) {
    show(shown, "slot", slot_in(command));
    show(shown, "key", key_in(command));
    show(shown, "value", value_in(command));
    show(shown, "lo", lo_in(command));
    show(shown, "hi", hi_in(command));
}

/// Shows a field, if the command has it.
fn show<W: Write, T: Debug + Drop>(shown: &mut DebugStruct<'_, W>, field: &str, found: Option<T>) {
    if let Some(value) = found {
        shown.field(field, &value);
    }
}

fn word_of(command: &Command) -> &'static str {
    match command {
        Command::Table { .. } => "Table",
        Command::Put { .. } => "Put",
        Command::Remove { .. } => "Remove",
        Command::Get { .. } => "Get",
        Command::Snap { .. } => "Snap",
        Command::Forget { .. } => "Forget",
        Command::See { .. } => "See",
        Command::First { .. } => "First",
        Command::Last { .. } => "Last",
        Command::Floor { .. } => "Floor",
        Command::Lower { .. } => "Lower",
        Command::Ceiling { .. } => "Ceiling",
        Command::Higher { .. } => "Higher",
        Command::Count { .. } => "Count",
        Command::Depth { .. } => "Depth",
        Command::Export { .. } => "Export",
        Command::Load { .. } => "Load",
    }
}

fn slot_in(command: &Command) -> Option<u8> {
    match command {
        Command::Snap { slot, .. }
        | Command::Forget { slot, .. }
        | Command::See { slot, .. }
        | Command::First { slot }
        | Command::Last { slot }
        | Command::Floor { slot, .. }
        | Command::Lower { slot, .. }
        | Command::Ceiling { slot, .. }
        | Command::Higher { slot, .. }
        | Command::Count { slot, .. }
        | Command::Depth { slot }
        | Command::Export { slot, .. } => Some(*slot),
        _ => None,
    }
}

fn key_in(command: &Command) -> Option<Key> {
    match command {
        Command::Put { key, .. }
        | Command::Remove { key }
        | Command::Get { key }
        | Command::See { key, .. }
        | Command::Floor { key, .. }
        | Command::Lower { key, .. }
        | Command::Ceiling { key, .. }
        | Command::Higher { key, .. } => Some(*key),
        _ => None,
    }
}

fn value_in(command: &Command) -> Option<u64> {
    match command {
        Command::Put { value, .. } => Some(*value),
        _ => None,
    }
}

fn lo_in(command: &Command) -> Option<Key> {
    match command {
        Command::Count { lo, .. } | Command::Export { lo, .. } => Some(*lo),
        _ => None,
    }
}

fn hi_in(command: &Command) -> Option<Key> {
    match command {
        Command::Count { hi, .. } | Command::Export { hi, .. } => Some(*hi),
        _ => None,
    }
}

fn name_in(command: &Command) -> Option<&Name> {
    match command {
        Command::Table { name } | Command::Snap { name, .. } | Command::Forget { name, .. } => Some(
            name,
        ),
        _ => None,
    }
}

fn file_in(command: &Command) -> Option<&Name> {
    match command {
        Command::Load { file } | Command::Export { file, .. } => Some(file),
        _ => None,
    }
}
