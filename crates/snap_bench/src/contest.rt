//! Several workers at once, by the clock: all put, then all get, then all remove.
ghost use Rattle.std.specs.Prelude.{◌≤◌, ◌<◌};

use crate::draws::{Draws, key_of};
use crate::fault::Fault;
use crate::kinds::Kind;
use crate::threads::{Task, at_once};
use crate::watch::{per_second, tell_figures};
use crate::workers::{OfMutex, OfRwLock, Sorted, Worker, on_table};
use std::alloc::Global;
use std::io::Print;
use std::sync::{Mutex, RwLock, Wait};
use std::thread::Threads;
use std::time::{Clock, Instant};

/// How many threads each round has.
const THREADS: [u32; 3] = [1, 2, 4];

/// How many calls of each kind each thread makes.
const CALLS: u32 = 1_000_000;

/// How many different keys there are, each as likely as any other.
const KEYS: u32 = 10_000;

/// Prints a round of each map for each number of threads.
pub fn tell_maps<R: Print + Threads + Wait + Clock + Sync>(
    rt: &R,
    alloc: Global,
) -> Result<(), Fault> {
    println!(rt; "map, threads, puts, gets, removals a second")?;
    for threads in THREADS {
        race_maps(rt, alloc, threads)?;
    }
    Ok(())
}

fn race_maps<R: Print + Threads + Wait + Clock + Sync>(
    rt: &R,
    alloc: Global,
    threads: u32,
) -> Result<(), Fault>
    requires { threads ≤ 16 }
{
    on_table(
        alloc,
        KEYS,
        threads,
        |_, workers| tell_round(rt, "SnapTable", workers),
    )?;
    race_mutex(rt, alloc, threads)?;
    race_rwlock(rt, alloc, threads)
}

fn race_mutex<R: Print + Threads + Wait + Clock + Sync>(
    rt: &R,
    alloc: Global,
    threads: u32,
) -> Result<(), Fault> {
    let map = Mutex::new(Sorted::new(alloc));
    let mut workers = vec![in alloc; OfMutex { map: &map }; threads as usize]?;
    tell_round(rt, "Mutex", workers.as_mut_slice())
}

fn race_rwlock<R: Print + Threads + Wait + Clock + Sync>(
    rt: &R,
    alloc: Global,
    threads: u32,
) -> Result<(), Fault> {
    let map = RwLock::new(Sorted::new(alloc));
    let mut workers = vec![in alloc; OfRwLock { map: &map }; threads as usize]?;
    tell_round(rt, "RwLock", workers.as_mut_slice())
}

// Prints a line: all puts, then all gets, then all removals, a second.
fn tell_round<R: Print + Threads + Wait + Clock + Sync, W: Worker<R> + Send>(
    rt: &R,
    map: &str,
    workers: &mut [W],
) -> Result<(), Fault> {
    let puts = race(rt, workers, Kind::Put)?;
    let gets = race(rt, workers, Kind::Get)?;
    let removals = race(rt, workers, Kind::Remove)?;
    print!(rt; "{map}, ")?;
    tell_figures(rt, &[workers.len() as u64, puts, gets, removals])
}

// Lets each worker make its calls in a thread of its own, and answers the calls a second of all together.
fn race<R: Threads + Wait + Clock + Sync, W: Worker<R> + Send>(
    rt: &R,
    workers: &mut [W],
    kind: Kind,
) -> Result<u64, Fault> {
    let start = Instant::now(rt)?;
    at_once(rt, workers, &Calls { kind })?;
    per_second(
        rt,
        start,
        (workers.len() as u64).saturating_mul(CALLS as u64),
    )
}

/// So many calls of one kind by each thread.
#[derive(Drop)]
struct Calls {
    kind: Kind,
}

impl<R, W: Worker<R>> Task<R, W> for Calls {
    // It answers how many calls found a value.
    fn work(&self, rt: &R, worker: &mut W, thread: usize) -> Result<u64, Fault> {
        let mut draws = Draws::new(0, thread);
        let mut found = 0u64;
        for value in 0..CALLS {
            let key = key_of(draws.draw(), KEYS);
            if self.kind.call(rt, worker, key, value as u64)?.is_some() {
                found = found.saturating_add(1);
            }
        }
        Ok(found)
    }
}
