//! What a clone costs.
use crate::fault::Fault;
use crate::keys::{Order, spread};
use crate::watch::{nanos_each, tell_figures};
use crate::workers::{OfTable, Sorted, Worker, fill};
use snap_view::TableView;
use std::alloc::Global;
use std::io::Print;
use std::sync::Wait;
use std::time::{Clock, Instant};

/// How large the clone is whose pairs are counted.
pub const COUNTED: u32 = 1_000_000;

/// How many clones are made to time one.
const CLONES: u32 = 1_000;

/// Prints what a clone of a table of so many pairs costs, and a copy of a standard sorted map with the same keys.
pub fn tell_cut<R: Wait + Clock + Print>(
    rt: &R,
    alloc: Global,
    worker: &mut OfTable<'_>,
    size: u32,
) -> Result<(), Fault> {
    fill(rt, worker, size, Order::AsIfByLot)?;
    let clone = time_clones(rt, worker)?;
    let drawn = first_write(rt, worker, size)?;
    let copy = time_copy(rt, alloc, size)?;
    tell_figures(rt, &[size as u64, clone, drawn as u64, copy])
}

// Nanoseconds of one clone.
fn time_clones<R: Wait + Clock>(rt: &R, worker: &mut OfTable<'_>) -> Result<u64, Fault> {
    let start = Instant::now(rt)?;
    clone_again(rt, worker, CLONES)?;
    nanos_each(rt, start, CLONES)
}

/// Makes so many clones, and gives each up before the next.
pub fn clone_again<R: Wait>(rt: &R, worker: &mut OfTable<'_>, clones: u32) -> Result<(), Fault> {
    for _ in 0..clones {
        worker.clone_view(rt)?.release();
    }
    Ok(())
}

// How many rows the first put behind a clone draws.
fn first_write<R: Wait>(rt: &R, worker: &mut OfTable<'_>, size: u32) -> Result<u32, Fault> {
    let before = worker.drawn_rows();
    worker.put(rt, spread(size / 2), 0)?;
    Ok(worker.drawn_rows().saturating_sub(before))
}

// Nanoseconds of one copy of a standard sorted map.
fn time_copy<R: Clock>(rt: &R, alloc: Global, size: u32) -> Result<u64, Fault> {
    let map = sorted(alloc, size)?;
    let start = Instant::now(rt)?;
    let copy = map.clone()?;
    let nanos = nanos_each(rt, start, 1)?;
    if copy.len() != map.len() {
        return Err(Fault::Memory);
    }
    Ok(nanos)
}

// A standard sorted map with the keys of a filled table.
fn sorted(alloc: Global, size: u32) -> Result<Sorted, Fault> {
    let mut map = Sorted::new(alloc);
    for number in 0..size {
        if map.insert(spread(number), number as u64).is_err() {
            return Err(Fault::Memory);
        }
    }
    Ok(map)
}

/// Counts about so many neighbouring pairs of a clone, and prints what that costs.
pub fn tell_count<R: Wait + Clock + Print>(
    rt: &R,
    worker: &mut OfTable<'_>,
    wanted: u32,
) -> Result<(), Fault> {
    let mut view = filled_clone(rt, worker, COUNTED)?;
    count_in(rt, &mut view, wanted)
}

fn count_in<R: Clock + Print>(rt: &R, view: &mut TableView<'_>, wanted: u32) -> Result<(), Fault> {
    let start = Instant::now(rt)?;
    let pairs = view.count(0, (u64::MAX / COUNTED as u64).saturating_mul(wanted as u64));
    let nanos = nanos_each(rt, start, 1)?;
    tell_figures(rt, &[pairs, nanos])
}

// A clone of the worker's table behind puts of so many keys.
fn filled_clone<'t, R: Wait>(
    rt: &R,
    worker: &mut OfTable<'t>,
    size: u32,
) -> Result<TableView<'t>, Fault> {
    fill(rt, worker, size, Order::AsIfByLot)?;
    worker.clone_view(rt)
}

/// Prints how many rows a reader of a clone passes on its ways down to the table's keys: the most, and the mean.
pub fn tell_ways<R: Wait + Print>(
    rt: &R,
    worker: &mut OfTable<'_>,
    size: u32,
) -> Result<(), Fault> {
    let (greatest, tenths) = ways_of(rt, worker, size)?;
    println!(rt; "{size}, {greatest}, {}.{}", tenths / 10, tenths % 10)?;
    Ok(())
}

// The rows on the longest way, and tenths of those on the mean one.
fn ways_of<R: Wait>(rt: &R, worker: &mut OfTable<'_>, size: u32) -> Result<(u32, u64), Fault> {
    let mut view = filled_clone(rt, worker, size)?;
    let (greatest, sum) = ways_down(&mut view, size);
    Ok((greatest, sum.saturating_mul(10) / size.max(1) as u64))
}

// The rows on the longest way, and those on all ways.
fn ways_down(view: &mut TableView<'_>, size: u32) -> (u32, u64) {
    let mut greatest: u32 = 0;
    let mut sum: u64 = 0;
    for number in 0..size {
        let levels = view.levels_to(spread(number));
        greatest = greatest.max(levels);
        sum = sum.saturating_add(levels as u64);
    }
    (greatest, sum)
}
