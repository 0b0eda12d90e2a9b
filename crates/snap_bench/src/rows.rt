//! Lines of figures, each of a table of its own at which one thread works.
ghost use Rattle.std.specs.Prelude.{◌≤◌, ◌<◌};

use crate::balance::tell_puts;
use crate::clones::{COUNTED, tell_count, tell_cut, tell_ways};
use crate::fault::Fault;
use crate::growth::{KEYS, tell_calls, tell_living, tell_millions};
use crate::keys::Order;
use crate::workers::{MOST_ROWS, OfTable, on_table};
use std::alloc::Global;
use std::io::Print;
use std::sync::Wait;
use std::time::Clock;

/// What a line tells.
#[derive(Clone, Copy)]
pub enum Row {
    /// What a clone of so many pairs costs.
    Cut(u32),
    /// What a count of about so many pairs of a clone costs.
    Count(u32),
    /// How many rows stand on the ways down a clone of so many pairs.
    Ways(u32),
    /// What puts of so many keys in this order cost and leave.
    Puts(u32, Order),
    /// What calls at so many keys cost.
    Calls(u32),
    /// What puts cost while so many clones live.
    Living(u32),
    /// So many lines: what the next million puts cost.
    Millions(u32),
}

/// Prints a table of such lines.
pub fn tell_rows<R: Wait + Clock + Print>(
    rt: &R,
    alloc: Global,
    header: &str,
    rows: &[Row],
) -> Result<(), Fault> {
    println!(rt; "{header}")?;
    for row in rows {
        tell_row(rt, alloc, *row)?;
    }
    Ok(())
}

fn tell_row<R: Wait + Clock + Print>(rt: &R, alloc: Global, row: Row) -> Result<(), Fault> {
    on_table(
        alloc,
        row.rows(),
        0,
        |worker, _| row.tell(rt, alloc, worker),
    )
}

impl Row {
    // How large its table is.
    fn rows(self) -> u32
        ensures some { 0 < result }
        ensures few { result ≤ 1048576 }
    {
        match self {
            Row::Cut(keys) | Row::Ways(keys) | Row::Puts(keys, _) => keys.min(COUNTED) + 48,
            Row::Count(_) => COUNTED + 48,
            Row::Calls(keys) => keys.min(COUNTED) + 48_576,
            Row::Living(_) => MOST_ROWS,
            Row::Millions(_) => KEYS,
        }
    }

    fn tell<R: Wait + Clock + Print>(
        self,
        rt: &R,
        alloc: Global,
        worker: &mut OfTable<'_>,
    ) -> Result<(), Fault> {
        match self {
            Row::Cut(pairs) => tell_cut(rt, alloc, worker, pairs),
            Row::Count(wanted) => tell_count(rt, worker, wanted),
            Row::Ways(pairs) => tell_ways(rt, worker, pairs),
            Row::Puts(keys, order) => tell_puts(rt, worker, keys, order),
            Row::Calls(keys) => tell_calls(rt, worker, keys),
            Row::Living(clones) => tell_living(rt, alloc, worker, clones),
            Row::Millions(millions) => tell_millions(rt, worker, millions),
        }
    }
}
