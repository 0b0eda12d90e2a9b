//! What a thread works with: its own way into a map that it shares with the others.
ghost use Rattle.std.specs.Prelude.{All, IfOk, ◌<◌, ◌≤◌};
ghost use Rattle.snap_bench.specs.Passes.{IsAtRest};

use crate::fault::Fault;
use crate::keys::Order;
use snap_table::{Pass, SnapTable};
use snap_view::TableView;
use std::alloc::Global;
use std::collections::BTreeMap;
use std::sync::{Mutex, RwLock, Wait};

pub type Sorted = BTreeMap<u64, u64>;

pub trait Worker<R> {
    /// Sets the key to the value, and answers the value before.
    fn put(&mut self, rt: &R, key: u64, value: u64) -> Result<Option<u64>, Fault>;

    /// Takes the key out, and answers the value before.
    fn remove(&mut self, rt: &R, key: u64) -> Result<Option<u64>, Fault>;

    /// The value at the key.
    fn get(&mut self, rt: &R, key: u64) -> Option<u64>;
}

/// Puts so many different keys in this order.
pub fn fill<R, W: Worker<R>>(rt: &R, worker: &mut W, size: u32, order: Order) -> Result<(), Fault> {
    for place in 0..size {
        worker.put(rt, order.key(place), place as u64)?;
    }
    Ok(())
}

/// A pass of a table.
#[derive(Drop)]
pub struct OfTable<'t> {
    table: &'t SnapTable,
    pass: Pass,
    ghost at_rest: { IsAtRest table.now pass },
}

impl<'t> OfTable<'t> {
    pub fn new(table: &'t SnapTable, pass: Pass) -> OfTable<'t>
        requires { IsAtRest table.now pass }
    {
        OfTable { table, pass }
    }

    /// A clone of the table.
    pub fn clone_view<R: Wait>(&mut self, rt: &R) -> Result<TableView<'t>, Fault> {
        if self.pass.uses() >= MOST_USES {
            return Err(Fault::Out);
        }
        Ok(self.table.clone_view(rt, &mut self.pass))
    }

    /// How many rows were handed out.
    pub fn drawn_rows(&mut self) -> u32 {
        self.table.drawn_rows(&mut self.pass)
    }
}

/// The largest table.
pub const MOST_ROWS: u32 = 1_048_576;

/// Opens a table of so many rows for one worker and so many others, and lends them to the job.
pub fn on_table<F: for<'t> FnOnce(&mut OfTable<'t>, &mut [OfTable<'t>]) -> Result<(), Fault>>(
    alloc: Global,
    rows: u32,
    others: u32,
    job: F,
) -> Result<(), Fault>
    requires rows { (0 < rows) × (rows ≤ 1048576) }
    requires others { others < 64 }
    requires job { F.IsAlwaysCallable job }
{
    let (table, passes) = open_table(alloc, rows, others + 1)?;
    lend(alloc, &table, passes, job)
}

fn lend<F: for<'t> FnOnce(&mut OfTable<'t>, &mut [OfTable<'t>]) -> Result<(), Fault>>(
    alloc: Global,
    table: &SnapTable,
    passes: Vec<Pass>,
    job: F,
) -> Result<(), Fault>
    requires passes { All (IsAtRest table.now) passes.items }
    requires job { F.IsAlwaysCallable job }
{
    let mut workers = workers_of(alloc, table, passes)?;
    let Some(mut first) = workers.pop() else {
        return Err(Fault::Out);
    };
    job(&mut first, workers.as_mut_slice())
}

// A table of so many rows, and its passes, all at rest.
fn open_table(alloc: Global, rows: u32, passes: u32) -> Result<(SnapTable, Vec<Pass>), Fault>
    requires rows { (0 < rows) × (rows ≤ 1048576) }
    requires passes { (0 < passes) × (passes ≤ 64) }
    ensures { IfOk result (λ t. All (IsAtRest t.0) t.1.items) }
{
    Ok(SnapTable::open(alloc, rows, passes)?)
}

// A worker for each of the passes.
fn workers_of<'t>(
    alloc: Global,
    table: &'t SnapTable,
    passes: Vec<Pass>,
) -> Result<Vec<OfTable<'t>>, Fault>
    requires { All (IsAtRest table.now) passes.items }
{
    let mut workers = Vec::new(alloc);
    for pass in passes {
        if workers.push(OfTable::new(table, pass)).is_err() {
            return Err(Fault::Memory);
        }
    }
    Ok(workers)
}

/// How many uses a pass may have.
const MOST_USES: u64 = 1 << 48;

impl<'t, R: Wait> Worker<R> for OfTable<'t> {
    fn put(&mut self, rt: &R, key: u64, value: u64) -> Result<Option<u64>, Fault> {
        if self.pass.uses() >= MOST_USES || value == u64::MAX {
            return Err(Fault::Out);
        }
        Ok(self.table.put(rt, &mut self.pass, key, value)?)
    }

    fn remove(&mut self, rt: &R, key: u64) -> Result<Option<u64>, Fault> {
        if self.pass.uses() >= MOST_USES {
            return Err(Fault::Out);
        }
        Ok(self.table.remove(rt, &mut self.pass, key)?)
    }

    fn get(&mut self, rt: &R, key: u64) -> Option<u64> {
        self.table.get(rt, &mut self.pass, key)
    }
}

/// A sorted map under a lock for one at a time.
#[derive(Clone, Copy)]
pub struct OfMutex<'m> {
    pub map: &'m Mutex<Sorted>,
}

impl<'m, R: Wait> Worker<R> for OfMutex<'m> {
    fn put(&mut self, rt: &R, key: u64, value: u64) -> Result<Option<u64>, Fault> {
        match self.map.lock(rt).insert(key, value) {
            Ok(before) => Ok(before),
            Err(_) => Err(Fault::Memory),
        }
    }

    fn remove(&mut self, rt: &R, key: u64) -> Result<Option<u64>, Fault> {
        let mut map = self.map.lock(rt);
        Ok(Sorted::remove(&mut map, &key))
    }

    fn get(&mut self, rt: &R, key: u64) -> Option<u64> {
        let map = self.map.lock(rt);
        Sorted::get(&map, &key).copied()
    }
}

/// A sorted map under a lock that readers share.
#[derive(Clone, Copy)]
pub struct OfRwLock<'m> {
    pub map: &'m RwLock<Sorted>,
}

impl<'m, R: Wait> Worker<R> for OfRwLock<'m> {
    fn put(&mut self, rt: &R, key: u64, value: u64) -> Result<Option<u64>, Fault> {
        match self.map.write(rt).insert(key, value) {
            Ok(before) => Ok(before),
            Err(_) => Err(Fault::Memory),
        }
    }

    fn remove(&mut self, rt: &R, key: u64) -> Result<Option<u64>, Fault> {
        let mut map = self.map.write(rt);
        Ok(Sorted::remove(&mut map, &key))
    }

    fn get(&mut self, rt: &R, key: u64) -> Option<u64> {
        let map = self.map.read(rt);
        Sorted::get(&map, &key).copied()
    }
}
