//! Gets, puts and removals of several threads at once, as the comparison with other maps asks for them.
ghost use Rattle.std.specs.Prelude.{◌≤◌};

use crate::draws::{Draws, key_of, share_of};
use crate::fault::Fault;
use crate::threads::{Task, at_once};
use crate::watch::Watch;
use crate::workers::{MOST_ROWS, Worker, on_table};
use std::alloc::Global;
use std::io::Print;
use std::sync::Wait;
use std::sync::atomic::{AtomicU64, Ordering};
use std::thread::Threads;
use std::time::{Clock, CpuClock};

/// So many gets in a hundred calls, the rest puts and removals in equal parts, on so many keys by so many threads.
#[derive(Drop)]
pub struct Mix {
    pub gets: u32,
    pub keys: u32,
    pub threads: u32,
    /// Milliseconds that aren't told.
    pub warm: u32,
    /// Milliseconds that are.
    pub millis: u32,
    /// How many calls a thread makes at most.
    pub most: u32,
}

/// One run of all threads.
#[derive(Drop)]
struct Phase<'m> {
    mix: &'m Mix,
    /// Which one: a thread draws other numbers in each.
    number: u64,
    millis: u32,
    /// How many pairs there are.
    pairs: &'m AtomicU64,
    watch: Watch,
}

/// How many calls stand between two looks at the clock.
const BATCH: u32 = 64;

/// Times the mix on a table that half of the keys are in at first, and tells it.
pub fn tell_mix<R: Threads + Wait + Clock + CpuClock + Print + Sync>(
    rt: &R,
    alloc: Global,
    mix: &Mix,
    cell: &str,
) -> Result<(), Fault>
    requires { mix.now.threads ≤ 16 }
{
    on_table(
        alloc,
        MOST_ROWS,
        mix.threads,
        |first, workers| run_mix(rt, first, workers, mix, cell),
    )
}

// The first worker fills the table and counts what is left, and each of the others is a thread's.
fn run_mix<R: Threads + Wait + Clock + CpuClock + Print + Sync, W: Worker<R> + Send>(
    rt: &R,
    first: &mut W,
    workers: &mut [W],
    mix: &Mix,
    cell: &str,
) -> Result<(), Fault> {
    let pairs = AtomicU64::new(half_fill(rt, first, mix.keys)?);
    run_phases(rt, workers, mix, &pairs, cell)?;
    if present(rt, first, mix.keys) != pairs.into_inner() {
        return Err(Fault::Lost);
    }
    Ok(())
}

// Both phases, of which the second is told.
fn run_phases<R: Threads + Wait + Clock + CpuClock + Print + Sync, W: Worker<R> + Send>(
    rt: &R,
    workers: &mut [W],
    mix: &Mix,
    pairs: &AtomicU64,
    cell: &str,
) -> Result<(), Fault> {
    run_phase(rt, workers, mix, 1, pairs)?;
    let watch = Watch::start(rt)?;
    let calls = run_phase(rt, workers, mix, 2, pairs)?;
    watch.tell(rt, "", cell, calls)
}

// All threads at once. It answers how many calls they made.
fn run_phase<R: Threads + Wait + Clock + CpuClock + Sync, W: Worker<R> + Send>(
    rt: &R,
    workers: &mut [W],
    mix: &Mix,
    number: u64,
    pairs: &AtomicU64,
) -> Result<u64, Fault> {
    let phase = Phase::start(rt, mix, number, pairs)?;
    at_once(rt, workers, &phase)
}

impl<'m> Phase<'m> {
    // The first phase warms up, and the second is told.
    fn start<R: Clock + CpuClock>(
        rt: &R,
        mix: &'m Mix,
        number: u64,
        pairs: &'m AtomicU64,
    ) -> Result<Phase<'m>, Fault> {
        let millis = if number > 1 { mix.millis } else { mix.warm };
        Ok(Phase {
            mix,
            number,
            millis,
            pairs,
            watch: Watch::start(rt)?,
        })
    }

    // How many pairs more there are behind some calls, by 64 bits that wrap.
    fn batch<R: Wait, W: Worker<R>>(
        &self,
        rt: &R,
        worker: &mut W,
        draws: &mut Draws,
    ) -> Result<u64, Fault> {
        let mut more = 0u64;
        for _ in 0..BATCH {
            let number = draws.draw();
            let key = key_of(number, self.mix.keys);
            let share = share_of(number, 200);
            if share < self.mix.gets as u64 * 2 {
                worker.get(rt, key);
            } else if share % 2 == 0 {
                if worker.put(rt, key, number >> 1)?.is_none() {
                    more = more.wrapping_add(1);
                }
            } else if worker.remove(rt, key)?.is_some() {
                more = more.wrapping_sub(1);
            }
        }
        Ok(more)
    }
}

impl<'m, R: Wait + Clock, W: Worker<R>> Task<R, W> for Phase<'m> {
    // Calls until the time is over, or so many. It answers how many.
    fn work(&self, rt: &R, worker: &mut W, thread: usize) -> Result<u64, Fault> {
        let mut draws = Draws::new(self.number, thread);
        let (mut calls, mut more) = (0u64, 0u64);
        for _ in 0..self.mix.most / BATCH {
            if self.watch.is_past(rt, self.millis)? {
                break;
            }
            more = more.wrapping_add(self.batch(rt, worker, &mut draws)?);
            calls = calls.wrapping_add(BATCH as u64);
        }
        self.pairs.fetch_add(more, Ordering::SeqCst);
        Ok(calls)
    }
}

// Puts keys until half of them are there, and answers how many are.
fn half_fill<R: Wait, W: Worker<R>>(rt: &R, worker: &mut W, keys: u32) -> Result<u64, Fault> {
    let mut draws = Draws::new(0, 0);
    let mut pairs = 0u64;
    for _ in 0..u64::MAX {
        if pairs >= keys as u64 / 2 {
            break;
        }
        if worker.put(rt, key_of(draws.draw(), keys), 0)?.is_none() {
            pairs = pairs.saturating_add(1);
        }
    }
    Ok(pairs)
}

fn present<R: Wait, W: Worker<R>>(rt: &R, worker: &mut W, keys: u32) -> u64 {
    let mut pairs = 0u64;
    for key in 0..keys {
        if worker.get(rt, key as u64).is_some() {
            pairs = pairs.saturating_add(1);
        }
    }
    pairs
}
