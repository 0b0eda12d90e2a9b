use crate::asserts::{holds, is};
use snap_model::Command;
use snap_text::{Line, Script};
use std::process::Abort;

fn add<R: Abort>(rt: &R, script: &mut Script, line: u32, command: Command) {
    script.add(Line { line, command }).expect(rt, "no memory");
}

#[test]
fn keeps_lines_in_order(rt: HostRuntime) {
    let mut script = Script::new(rt.alloc());
    holds(&rt, script.lines().is_empty());
    add(&rt, &mut script, 2, Command::Get { key: 1 });
    add(&rt, &mut script, 9, Command::Remove { key: 3 });
    let lines = script.lines();
    is(&rt, lines.len(), 2);
    is(&rt, lines.first().map(|line| line.line), Some(2));
    holds(
        &rt,
        lines
            .get(1)
            .is_some_and(|line| matches!(line.command, Command::Remove { key: 3 })),
    );
}
