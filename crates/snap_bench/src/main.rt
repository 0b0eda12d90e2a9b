//! How fast threads put, get and remove on one map: a table beside the standard sorted map under a lock. And what
//! clones cost, and balance.
#![tactic(auto)]

mod balance;
mod cells;
mod clones;
mod contest;
mod draws;
mod fault;
mod growth;
mod keys;
mod kinds;
mod mixes;
mod rows;
mod scans;
mod tables;
mod threads;
mod watch;
mod workers;

use cells::tell_cell;
use contest::tell_maps;
use fault::Fault;
use rows::tell_rows;
use scans::tell_rates;
use std::alloc::Global;
use std::env;
use std::env::Args;
use std::io::Print;
use std::rt::Files;
use std::sync::Wait;
use std::thread::Threads;
use std::time::{Clock, CpuClock};
use tables::{CALLS, COUNTS, CUTS, HISTORY, LIVING, PUTS, WAYS};

fn main(rt: HostRuntime) -> Result<(), Fault> {
    let mut words = env::args(&rt)?;
    words.next();
    match words.next() {
        Some(word) => time_section(&rt, rt.alloc(), word.as_str(), words),
        None => tell_sections(&rt),
    }
}

fn tell_sections<R: Print>(rt: &R) -> Result<(), Fault> {
    println!(rt; "snap_bench maps: puts, gets and removals of several threads")?;
    println!(rt; "snap_bench clones: what clones cost")?;
    println!(rt; "snap_bench balance: what puts take, and how deep they leave a table")?;
    Ok(())
}

// The words behind the first are those of a cell.
fn time_section<R: Files + AllocGlobal + Print + Threads + Wait + Clock + CpuClock + Sync>(
    rt: &R,
    alloc: Global,
    section: &str,
    words: Args,
) -> Result<(), Fault> {
    match section {
        "maps" => tell_maps(rt, alloc),
        "clones" => time_clones(rt, alloc),
        "balance" => time_balance(rt, alloc),
        "growth" => time_growth(rt, alloc),
        "cell" => tell_cell(rt, alloc, words),
        _ => Err(Fault::Usage),
    }
}

fn time_clones<R: Print + Threads + Wait + Clock + CpuClock + Sync>(
    rt: &R,
    alloc: Global,
) -> Result<(), Fault> {
    let cut =
        "pairs, nanoseconds of a clone, rows of the first write behind it, nanoseconds of a copy";
    tell_rows(rt, alloc, cut, &CUTS)?;
    let count = "pairs counted of a clone of 1000000, nanoseconds";
    tell_rows(rt, alloc, count, &COUNTS)?;
    let ways = "pairs, rows on a way down a clone to one of its keys: the most, the mean";
    tell_rows(rt, alloc, ways, &WAYS)?;
    tell_rates(rt, alloc)
}

fn time_balance<R: Print + Wait + Clock>(rt: &R, alloc: Global) -> Result<(), Fault> {
    let puts = "keys, order, nanoseconds of a put, rows drawn, depth, settled";
    tell_rows(rt, alloc, puts, &PUTS)
}

fn time_growth<R: Print + Wait + Clock>(rt: &R, alloc: Global) -> Result<(), Fault> {
    let calls =
        "keys, nanoseconds of a get, of a put at a key that is there, of a removal and a put";
    tell_rows(rt, alloc, calls, &CALLS)?;
    let living =
        "clones that live, nanoseconds of each of 100000 puts behind them at 100000 keys, of as many more, rows drawn";
    tell_rows(rt, alloc, living, &LIVING)?;
    let history = "writes before on a table of 100000 keys, nanoseconds of each of 1000000 puts";
    tell_rows(rt, alloc, history, &HISTORY)
}
