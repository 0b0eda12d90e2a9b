//! `snap_bench cell KIND NUMBERS..`: one figure of the comparison with other maps, which bench/peers/run asks for.
ghost use Rattle.std.specs.Prelude.{◌≤◌, IfOk};

use crate::clones::clone_again;
use crate::fault::Fault;
use crate::keys::Order;
use crate::mixes::{Mix, tell_mix};
use crate::scans::{Scan, Told, tell_scan};
use crate::watch::{Watch, resident_bytes};
use crate::workers::{OfTable, Worker, fill, on_table};
use std::alloc::Global;
use std::env::Args;
use std::io::Print;
use std::rt::Files;
use std::sync::Wait;
use std::thread::Threads;
use std::time::{Clock, CpuClock};

/// Which cell the words ask for.
#[derive(Drop)]
struct Asked {
    kind: String,
    numbers: Vec<u32>,
    /// All of the words.
    cell: String,
}

/// The most pairs of a table that has more rows than pairs.
const MOST_PAIRS: u32 = 1_000_000;

/// Times the cell that the words name, and prints `SnapTable CELL CALLS NANOSECONDS PROCESSOR-NANOSECONDS`.
pub fn tell_cell<R: Files + AllocGlobal + Print + Threads + Wait + Clock + CpuClock + Sync>(
    rt: &R,
    alloc: Global,
    words: Args,
) -> Result<(), Fault> {
    let asked = read_words(alloc, words)?;
    time_cell(
        rt,
        alloc,
        asked.kind.as_str(),
        asked.numbers.as_slice(),
        asked.cell.as_str(),
    )
}

fn time_cell<R: Files + AllocGlobal + Print + Threads + Wait + Clock + CpuClock + Sync>(
    rt: &R,
    alloc: Global,
    kind: &str,
    numbers: &[u32],
    cell: &str,
) -> Result<(), Fault> {
    match kind {
        "mix" => time_mix(rt, alloc, numbers, cell),
        "rising" => time_rising(rt, alloc, numbers, cell),
        "scan" => time_scan(rt, alloc, numbers, cell),
        "copy" => time_clones(rt, alloc, numbers, cell),
        "memory" => tell_memory(rt, alloc, numbers, cell),
        _ => Err(Fault::Usage),
    }
}

fn read_words(alloc: Global, mut words: Args) -> Result<Asked, Fault> {
    let Some(kind) = words.next() else {
        return Err(Fault::Usage);
    };
    let mut asked = Asked {
        cell: kind.clone()?,
        kind,
        numbers: Vec::new(alloc),
    };
    for word in words {
        asked.add(word.as_str())?;
    }
    Ok(asked)
}

impl Asked {
    // Takes in a word behind the kind.
    fn add(&mut self, word: &str) -> Result<(), Fault> {
        let Ok(number) = word.parse::<u32>() else {
            return Err(Fault::Usage);
        };
        self.cell.push('/')?;
        self.cell.push_str(word)?;
        if self.numbers.push(number).is_err() {
            return Err(Fault::Memory);
        }
        Ok(())
    }
}

// A mix of more threads is refused, as is below what is larger than a table can be.
fn time_mix<R: Threads + Wait + Clock + CpuClock + Print + Sync>(
    rt: &R,
    alloc: Global,
    numbers: &[u32],
    cell: &str,
) -> Result<(), Fault> {
    match numbers {
        &[gets, keys, threads, warm, millis, most] if threads <= 16 => {
            let mix = Mix {
                gets,
                keys,
                threads,
                warm,
                millis,
                most,
            };
            tell_mix(rt, alloc, &mix, cell)
        }
        _ => Err(Fault::Usage),
    }
}

fn time_scan<R: Threads + Wait + Clock + CpuClock + Print + Sync>(
    rt: &R,
    alloc: Global,
    numbers: &[u32],
    name: &str,
) -> Result<(), Fault> {
    match numbers {
        &[pairs, writers, millis] if writers <= 16 => {
            let told = Told::Cell { millis, name };
            let scan = Scan {
                pairs,
                writers,
                told,
            };
            tell_scan(rt, alloc, scan)
        }
        _ => Err(Fault::Usage),
    }
}

// Puts of so many keys in rising order.
fn time_rising<R: Wait + Clock + CpuClock + Print>(
    rt: &R,
    alloc: Global,
    numbers: &[u32],
    cell: &str,
) -> Result<(), Fault> {
    match numbers {
        &[keys] if keys <= MOST_PAIRS => {
            on_table(
                alloc,
                keys + 48,
                0,
                |worker, _| fill_by(rt, worker, keys, cell),
            )
        }
        _ => Err(Fault::Usage),
    }
}

fn fill_by<R: Wait + Clock + CpuClock + Print, W: Worker<R>>(
    rt: &R,
    worker: &mut W,
    keys: u32,
    cell: &str,
) -> Result<(), Fault> {
    let watch = Watch::start(rt)?;
    fill(rt, worker, keys, Order::Rising)?;
    watch.tell(rt, "", cell, keys as u64)
}

// Clones of a table of so many pairs, which are made and given up one after another for so many milliseconds.
fn time_clones<R: Wait + Clock + CpuClock + Print>(
    rt: &R,
    alloc: Global,
    numbers: &[u32],
    cell: &str,
) -> Result<(), Fault> {
    match numbers {
        &[pairs, millis] if pairs <= MOST_PAIRS => {
            on_table(
                alloc,
                pairs + 48,
                0,
                |worker, _| clone_by(rt, worker, pairs, millis, cell),
            )
        }
        _ => Err(Fault::Usage),
    }
}

fn clone_by<R: Wait + Clock + CpuClock + Print>(
    rt: &R,
    worker: &mut OfTable<'_>,
    pairs: u32,
    millis: u32,
    cell: &str,
) -> Result<(), Fault> {
    fill(rt, worker, pairs, Order::Scattered)?;
    let watch = Watch::start(rt)?;
    let made = clone_until(rt, worker, millis, &watch)?;
    watch.tell(rt, "", cell, made)
}

/// How many clones stand between two looks at the clock.
const CLONES: u32 = 64;

// How many clones were made.
fn clone_until<R: Wait + Clock>(
    rt: &R,
    worker: &mut OfTable<'_>,
    millis: u32,
    watch: &Watch,
) -> Result<u64, Fault> {
    let mut made = 0u64;
    for _ in 0..u32::MAX {
        clone_again(rt, worker, CLONES)?;
        made = made.saturating_add(CLONES as u64);
        if watch.is_past(rt, millis)? {
            break;
        }
    }
    Ok(made)
}

// How much larger the process is with a table of so many pairs, and of as many rows.
fn tell_memory<R: Files + AllocGlobal + Wait + Print>(
    rt: &R,
    alloc: Global,
    numbers: &[u32],
    cell: &str,
) -> Result<(), Fault> {
    let before = resident_bytes(rt)?;
    match numbers {
        &[pairs] if pairs <= MOST_PAIRS => {
            on_table(
                alloc,
                pairs + 48,
                0,
                |worker, _| tell_bytes(rt, worker, pairs, before, cell),
            )
        }
        _ => Err(Fault::Usage),
    }
}

fn tell_bytes<R: Files + AllocGlobal + Wait + Print>(
    rt: &R,
    worker: &mut OfTable<'_>,
    pairs: u32,
    before: u64,
    cell: &str,
) -> Result<(), Fault> {
    fill(rt, worker, pairs, Order::Scattered)?;
    tell_grown(rt, pairs, before, cell)
}

fn tell_grown<R: Files + AllocGlobal + Print>(
    rt: &R,
    pairs: u32,
    before: u64,
    cell: &str,
) -> Result<(), Fault> {
    let bytes = resident_bytes(rt)?.saturating_sub(before);
    println!(rt; "SnapTable {cell} {pairs} {bytes} 0")?;
    Ok(())
}
