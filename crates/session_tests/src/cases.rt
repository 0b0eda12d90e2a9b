//! Cases as one text: each is a script, `~`, and what is shown of its replies and exports; `|` stands between them. One
//! loop checks them all, so that a further case costs the proof nothing.
ghost use Rattle.std.specs.Prelude.{◌≢◌, ◌≤◌, AllPairs, IfOk};
ghost use Rattle.snap_service.specs.Prelude.{AreSeated};

use snap_model::{Command, Name, OutOfMemory, Reply};
use snap_service::{Kit, Loads, Service, Session};
use snap_text::{MOST_ROWS, read_pairs, read_script};
use std::alloc::Global;
use std::fmt;
use std::process::Abort;
use std::sync::Wait;

// Where a session has so many uses, it takes no command more.
const MOST_USES: u64 = 140_737_488_355_328;

/// Checks each case, each on two tables of its own, `main` and `t`, with so many rows, and answers how many there are.
pub(crate) fn hold<R: Wait + Abort>(rt: &R, alloc: Global, rows: u32, cases: &[u8]) -> usize
    requires a_row { 1 ≤ rows }
    requires few_rows { rows ≤ MOST_ROWS }
{
    let mut count = 0usize;
    for case in cases.split(|byte| *byte == b'|') {
        holds_case(rt, alloc, rows, case);
        count = count.saturating_add(1);
    }
    count
}

fn holds_case<R: Wait + Abort>(rt: &R, alloc: Global, rows: u32, case: &[u8])
    requires a_row { 1 ≤ rows }
    requires few_rows { rows ≤ MOST_ROWS }
{
    let end = case.iter().position(|byte| *byte == b'~');
    let (script, rest) = case.split_at(end.unwrap_or(case.len()));
    let want = rest.get(1..).unwrap_or(b"no want");
    let found = shown(rt, alloc, rows, script).expect(rt, "no memory");
    assert_eq!(rt; found.as_slice(), want, "at {script:?}");
}

// What a session of its own replies, each reply ended by `;`, and then what it exports.
fn shown<R: Wait + Abort>(
    rt: &R,
    alloc: Global,
    rows: u32,
    script: &[u8],
) -> Result<Vec<u8>, OutOfMemory>
    requires a_row { 1 ≤ rows }
    requires few_rows { rows ≤ MOST_ROWS }
{
    let (service, kit) = opened(rt, alloc, rows)?;
    let Ok(mut session) = Session::open(alloc, &service, kit) else {
        return Err(OutOfMemory);
    };
    told(rt, alloc, &mut session, script)
}

/// A service of two tables with so many rows, and its one kit.
pub(crate) fn opened<R: Abort>(
    rt: &R,
    alloc: Global,
    rows: u32,
) -> Result<(Service, Kit), OutOfMemory>
    requires a_row { 1 ≤ rows }
    requires few_rows { rows ≤ MOST_ROWS }
    ensures { IfOk result (λ opened. AreSeated opened.0 opened.1) }
{
    let names = two_names(rt, alloc)?;
    let (service, mut kits) = Service::open(alloc, &names, rows, 1)?;
    match kits.pop() {
        Some(kit) => Ok((service, kit)),
        None => unreachable!(),
    }
}

// Two different names.
pub(crate) fn two_names<R: Abort>(rt: &R, alloc: Global) -> Result<[Name; 2], OutOfMemory>
    ensures { IfOk result (λ names. AllPairs (λ a b. a ≢ b) names) }
{
    let main = Name::new(alloc, "main")?;
    let other = Name::new(alloc, "t")?;
    assert!(rt; !main.same(&other));
    Ok([main, other])
}

/// Runs a script in a session, and shows its replies, each ended by `;`, and then what it exports. The load file
/// `pairs` has three pairs.
pub(crate) fn told<R: Wait + Abort>(
    rt: &R,
    alloc: Global,
    session: &mut Session<'_>,
    script: &[u8],
) -> Result<Vec<u8>, OutOfMemory> {
    let loads = load_files(rt, alloc)?;
    let Ok(script) = read_script(alloc, script) else {
        return Ok(Vec::new(alloc));
    };
    let mut text = Vec::new(alloc);
    let mut out = Vec::new(alloc);
    for line in script.lines() {
        let reply = tell(rt, alloc, session, &line.command, &loads, &mut out)?;
        show(alloc, reply, &mut text)?;
    }
    text.extend_from_slice(&out)?;
    Ok(text)
}

fn show(alloc: Global, reply: Reply, text: &mut Vec<u8>) -> Result<(), OutOfMemory> {
    let shown = format!(in alloc; "{reply:?};")?;
    text.extend_from_slice(shown.as_bytes())?;
    Ok(())
}

// Runs a command whose conditions hold.
fn tell<R: Wait + Abort>(
    rt: &R,
    alloc: Global,
    session: &mut Session<'_>,
    command: &Command,
    loads: &Loads,
    out: &mut Vec<u8>,
) -> Result<Reply, OutOfMemory> {
    assert!(rt; session.can_run(command, loads));
    assert!(rt; session.uses() < MOST_USES);
    session.run(rt, alloc, command, loads, out)
}

/// The load file `pairs`.
pub(crate) fn load_files<R: Abort>(rt: &R, alloc: Global) -> Result<Loads, OutOfMemory> {
    let mut loads = Loads::new(alloc);
    let file = Name::new(alloc, "pairs")?;
    let pairs = read_pairs(alloc, b"key,value\n3,30\n1,10\n3,31\n").expect(rt, "no pairs");
    loads.add(file, pairs)?;
    Ok(loads)
}

/// Asserts that what was found is what is wanted: in a helper, since each `assert_eq!` makes the function that it stands
/// in longer to prove, by more the longer it is.
pub(crate) fn is<R: Abort, T: PartialEq + fmt::Debug + Drop>(rt: &R, found: T, want: T) {
    assert_eq!(rt; found, want);
}

pub(crate) fn holds<R: Abort>(rt: &R, said: bool) {
    assert!(rt; said);
}
