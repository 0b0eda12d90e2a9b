//! What grows with what: the time of a call with the keys, with the clones that live, and with the writes before it.
use crate::draws::{Draws, key_of};
use crate::fault::Fault;
use crate::keys::{Order, spread};
use crate::kinds::Kind;
use crate::watch::{nanos_each, tell_figures};
use crate::workers::{OfTable, Worker, fill};
use snap_view::TableView;
use std::alloc::Global;
use std::io::Print;
use std::sync::Wait;
use std::time::{Clock, Instant};

/// How many calls are timed together.
const CALLS: u32 = 100_000;

/// How often a key is taken out and put back: each time may draw a row.
const RENEWALS: u32 = 48_000;

/// How large the table is whose clones and writes grow.
pub const KEYS: u32 = 100_000;

/// Prints what a get, a put, and a removal with a put behind it cost at so many keys.
pub fn tell_calls<R: Wait + Clock + Print, W: Worker<R>>(
    rt: &R,
    worker: &mut W,
    size: u32,
) -> Result<(), Fault> {
    fill(rt, worker, size, Order::AsIfByLot)?;
    let get = time_calls(rt, worker, size, Kind::Get, CALLS)?;
    let put = time_calls(rt, worker, size, Kind::Put, CALLS)?;
    let renewal = time_calls(rt, worker, size, Kind::Renew, RENEWALS)?;
    tell_figures(rt, &[size as u64, get, put, renewal])
}

// Nanoseconds of each of so many calls, at keys that are there. Each kind has draws of its own.
fn time_calls<R: Wait + Clock, W: Worker<R>>(
    rt: &R,
    worker: &mut W,
    size: u32,
    kind: Kind,
    calls: u32,
) -> Result<u64, Fault> {
    let mut draws = Draws::new(kind as u64, 0);
    let start = Instant::now(rt)?;
    for turn in 0..calls {
        kind.call(rt, worker, drawn_key(&mut draws, size), turn as u64)?;
    }
    nanos_each(rt, start, calls)
}

// One of the keys of a filled table.
fn drawn_key(draws: &mut Draws, size: u32) -> u64 {
    let place = key_of(draws.draw(), size);
    spread(u32::try_from(place).unwrap_or(0))
}

/// Prints what puts cost behind so many clones, which are cut one after another with a put between, and all live until
/// the puts are timed. The rows that puts copy behind the last of them are copied once.
pub fn tell_living<R: Wait + Clock + Print>(
    rt: &R,
    alloc: Global,
    worker: &mut OfTable<'_>,
    clones: u32,
) -> Result<(), Fault> {
    fill(rt, worker, KEYS, Order::AsIfByLot)?;
    let living = cut_clones(rt, alloc, worker, clones)?;
    tell_behind(rt, worker, living.len())
}

fn cut_clones<'t, R: Wait>(
    rt: &R,
    alloc: Global,
    worker: &mut OfTable<'t>,
    clones: u32,
) -> Result<Vec<TableView<'t>>, Fault> {
    let mut living = Vec::new(alloc);
    for turn in 0..clones {
        if living.push(cut_behind(rt, worker, turn)?).is_err() {
            return Err(Fault::Memory);
        }
    }
    Ok(living)
}

// A clone behind one put more.
fn cut_behind<'t, R: Wait>(
    rt: &R,
    worker: &mut OfTable<'t>,
    turn: u32,
) -> Result<TableView<'t>, Fault> {
    worker.put(rt, spread(turn), 0)?;
    worker.clone_view(rt)
}

// Times puts behind so many clones.
fn tell_behind<R: Wait + Clock + Print>(
    rt: &R,
    worker: &mut OfTable<'_>,
    clones: usize,
) -> Result<(), Fault> {
    let before = worker.drawn_rows();
    let first = time_calls(rt, worker, KEYS, Kind::Put, CALLS)?;
    let more = time_calls(rt, worker, KEYS, Kind::Put, CALLS)?;
    let rows = worker.drawn_rows().saturating_sub(before);
    tell_figures(rt, &[clones as u64, first, more, rows as u64])
}

/// Prints what each put of so many times a million costs. They are at keys that are there, so they draw no row.
pub fn tell_millions<R: Wait + Clock + Print, W: Worker<R>>(
    rt: &R,
    worker: &mut W,
    millions: u32,
) -> Result<(), Fault> {
    fill(rt, worker, KEYS, Order::AsIfByLot)?;
    for million in 0..millions {
        let put = time_calls(rt, worker, KEYS, Kind::Put, 1_000_000)?;
        tell_figures(rt, &[KEYS as u64 + million as u64 * 1_000_000, put])?;
    }
    Ok(())
}
