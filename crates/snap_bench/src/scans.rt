//! How fast a reader goes through clones of a table, while others put at its keys.
ghost use Rattle.std.specs.Prelude.{◌≤◌};

use crate::draws::{Draws, key_of, scattered};
use crate::fault::Fault;
use crate::keys::Order;
use crate::threads::{Task, at_once};
use crate::watch::{Watch, per_second, tell_figures};
use crate::workers::{MOST_ROWS, OfTable, Worker, fill, on_table};
use snap_view::TableView;
use std::alloc::Global;
use std::io::Print;
use std::sync::Wait;
use std::sync::atomic::{AtomicU64, Ordering};
use std::thread::Threads;
use std::time::{Clock, CpuClock, Instant};

/// How many threads write while a clone is read once.
const WRITERS: [u32; 3] = [0, 1, 3];

/// Scans of a table of so many pairs, beside so many writers.
#[derive(Drop)]
pub struct Scan<'c> {
    pub pairs: u32,
    pub writers: u32,
    pub told: Told<'c>,
}

/// How often is scanned, and what is told of it.
#[derive(Drop)]
pub enum Told<'c> {
    /// Once, and the pairs a second.
    Rate,
    /// For so many milliseconds, and a line of this name.
    Cell { millis: u32, name: &'c str },
}

/// Prints how many pairs of a clone a reader gets in a second, beside some numbers of writers.
pub fn tell_rates<R: Print + Threads + Wait + Clock + CpuClock + Sync>(
    rt: &R,
    alloc: Global,
) -> Result<(), Fault> {
    println!(rt; "writers, pairs of a clone of 100000 a second")?;
    for writers in WRITERS {
        let scan = Scan {
            pairs: 100_000,
            writers,
            told: Told::Rate,
        };
        tell_scan(rt, alloc, scan)?;
    }
    Ok(())
}

/// Goes through all pairs of a clone in order, of one clone after another, while the writers put at keys that are there.
pub fn tell_scan<R: Print + Threads + Wait + Clock + CpuClock + Sync>(
    rt: &R,
    alloc: Global,
    scan: Scan<'_>,
) -> Result<(), Fault>
    requires { scan.writers ≤ 16 }
{
    on_table(alloc, MOST_ROWS, scan.writers + 1, |first, workers| {
        fill(rt, first, scan.pairs, Order::Scattered)?;
        scan_beside(rt, workers, scan)
    })
}

fn scan_beside<R: Print + Threads + Wait + Clock + CpuClock + Sync>(
    rt: &R,
    workers: &mut [OfTable<'_>],
    scan: Scan<'_>,
) -> Result<(), Fault> {
    let beside = Beside::start(rt, scan)?;
    let writes = at_once(rt, workers, &beside)?;
    beside.tell_writes(rt, writes)
}

/// What the threads share.
#[derive(Drop)]
struct Beside<'c> {
    scan: Scan<'c>,
    ended: AtomicU64,
    watch: Watch,
}

impl<'c> Beside<'c> {
    fn start<R: Clock + CpuClock>(rt: &R, scan: Scan<'c>) -> Result<Beside<'c>, Fault> {
        Ok(Beside {
            scan,
            ended: AtomicU64::new(0),
            watch: Watch::start(rt)?,
        })
    }

    // Scans, and then has the writers end. It has written nothing.
    fn read<R: Print + Wait + Clock + CpuClock>(
        &self,
        rt: &R,
        worker: &mut OfTable<'_>,
    ) -> Result<u64, Fault> {
        let told = self.tell_scans(rt, worker);
        self.ended.store(1, Ordering::SeqCst);
        told?;
        Ok(0)
    }

    fn tell_scans<R: Print + Wait + Clock + CpuClock>(
        &self,
        rt: &R,
        worker: &mut OfTable<'_>,
    ) -> Result<(), Fault> {
        match self.scan.told {
            Told::Rate => tell_rate(rt, worker, self.scan.writers),
            Told::Cell { millis, name } => {
                let met = self.scan_again(rt, worker, millis)?;
                self.watch.tell(rt, "", name, met)
            }
        }
    }

    // How many pairs were met. It ends early where the writers may use up the rows behind one clone more: each row of a
    // clone is copied once at most.
    fn scan_again<R: Wait + Clock>(
        &self,
        rt: &R,
        reader: &mut OfTable<'_>,
        millis: u32,
    ) -> Result<u64, Fault> {
        let mut met = 0u64;
        for _ in 0..u32::MAX {
            let seen = scan_once(rt, reader)?;
            if seen != self.scan.pairs as u64 {
                return Err(Fault::Lost);
            }
            met = met.saturating_add(seen);
            if self.watch.is_past(rt, millis)? || self.may_run_out(reader) {
                break;
            }
        }
        Ok(met)
    }

    fn may_run_out(&self, reader: &mut OfTable<'_>) -> bool {
        let drawn = reader.drawn_rows().saturating_add(self.scan.pairs);
        self.scan.writers > 0 && drawn >= MOST_ROWS
    }

    // Puts at keys that are there, and answers how many.
    fn write<R: Wait, W: Worker<R>>(&self, rt: &R, worker: &mut W, writer: usize) -> u64 {
        let mut draws = Draws::new(1, writer);
        let mut writes = 0u64;
        for turn in 0..u32::MAX {
            let key = scattered(key_of(draws.draw(), self.scan.pairs));
            if self.ended.load(Ordering::SeqCst) > 0 || worker.put(rt, key, turn as u64).is_err() {
                break;
            }
            writes = writes.saturating_add(1);
        }
        writes
    }

    // What was written beside the scans of a cell.
    fn tell_writes<R: Clock + CpuClock + Print>(&self, rt: &R, writes: u64) -> Result<(), Fault> {
        match self.scan.told {
            Told::Rate => Ok(()),
            Told::Cell { name, .. } => self.watch.tell(rt, "beside-", name, writes),
        }
    }
}

impl<'c, 't, R: Print + Wait + Clock + CpuClock> Task<R, OfTable<'t>> for Beside<'c> {
    // The first thread reads, and each of the others writes until that has ended.
    fn work(&self, rt: &R, worker: &mut OfTable<'t>, thread: usize) -> Result<u64, Fault> {
        match thread.checked_sub(1) {
            None => self.read(rt, worker),
            Some(writer) => Ok(self.write(rt, worker, writer)),
        }
    }
}

// The pairs of one clone that are met in a second. What it takes to make the clone isn't counted.
fn tell_rate<R: Print + Wait + Clock>(
    rt: &R,
    reader: &mut OfTable<'_>,
    writers: u32,
) -> Result<(), Fault> {
    let mut view = reader.clone_view(rt)?;
    tell_walk(rt, &mut view, writers)
}

fn tell_walk<R: Print + Clock>(
    rt: &R,
    view: &mut TableView<'_>,
    writers: u32,
) -> Result<(), Fault> {
    let start = Instant::now(rt)?;
    let pairs = pairs_of(view);
    tell_figures(rt, &[writers as u64, per_second(rt, start, pairs)?])
}

fn scan_once<R: Wait>(rt: &R, reader: &mut OfTable<'_>) -> Result<u64, Fault> {
    let mut view = reader.clone_view(rt)?;
    Ok(pairs_of(&mut view))
}

// Goes through a clone, and answers how many pairs it met.
fn pairs_of(view: &mut TableView<'_>) -> u64 {
    let mut pairs = 0u64;
    for (_, value) in view.pairs() {
        if value < u64::MAX {
            pairs = pairs.saturating_add(1);
        }
    }
    pairs
}
