//! Cases as one text: each is what is read, `~`, and what is shown of it; `|` stands between them. One loop checks them
//! all, so that a further case costs the proof nothing.
use crate::asserts::is_text_at;
use snap_text::{is_file, is_name, read_number, read_pairs, read_script};
use std::alloc::{AllocError, Global};
use std::process::Abort;

/// What reads the cases.
#[derive(Clone, Copy, Drop)]
pub(crate) enum Reads {
    Script,
    Pairs,
    Names,
    Files,
    Numbers,
}

/// Checks each case, and answers how many there are.
pub(crate) fn hold<R: Abort>(rt: &R, alloc: Global, reads: Reads, cases: &[u8]) -> usize {
    let mut count = 0usize;
    for case in cases.split(|byte| *byte == b'|') {
        holds(rt, alloc, reads, case);
        count = count.saturating_add(1);
    }
    count
}

fn holds<R: Abort>(rt: &R, alloc: Global, reads: Reads, case: &[u8]) {
    let end = case.iter().position(|byte| *byte == b'~');
    let (bytes, rest) = case.split_at(end.unwrap_or(case.len()));
    let want = rest.get(1..).unwrap_or(b"no want");
    let found = shown(alloc, reads, bytes).expect(rt, "no memory");
    is_text_at(rt, &bytes, found.as_bytes(), want);
}

/// What is read of the bytes: the commands with their lines or the pairs, each ended by `;`, or the fault, or the
/// answer.
pub(crate) fn shown(alloc: Global, reads: Reads, bytes: &[u8]) -> Result<String, AllocError> {
    match reads {
        Reads::Script => shown_script(alloc, bytes),
        Reads::Pairs => shown_pairs(alloc, bytes),
        Reads::Names => format!(in alloc; "{}", is_name(bytes)),
        Reads::Files => format!(in alloc; "{}", is_file(bytes)),
        Reads::Numbers => format!(in alloc; "{:?}", read_number(bytes)),
    }
}

fn shown_script(alloc: Global, bytes: &[u8]) -> Result<String, AllocError> {
    let mut text = String::new(alloc);
    match read_script(alloc, bytes) {
        Ok(script) => {
            for line in script.lines() {
                let number = line.line;
                let shown = format!(in alloc; "{number} {:?};", line.command)?;
                text.push_str(shown.as_str())?;
            }
            Ok(text)
        }
        Err(fault) => format!(in alloc; "{fault}"),
    }
}

fn shown_pairs(alloc: Global, bytes: &[u8]) -> Result<String, AllocError> {
    let mut text = String::new(alloc);
    match read_pairs(alloc, bytes) {
        Ok(pairs) => {
            for (key, value) in pairs.list() {
                let shown = format!(in alloc; "{key},{value};")?;
                text.push_str(shown.as_str())?;
            }
            Ok(text)
        }
        Err(fault) => format!(in alloc; "{fault}"),
    }
}
