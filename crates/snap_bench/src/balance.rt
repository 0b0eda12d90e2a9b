//! What balance costs and brings: how long puts take, and how deep the table stands after them.
use crate::fault::Fault;
use crate::keys::Order;
use crate::watch::nanos_each;
use crate::workers::{OfTable, Worker, fill};
use snap_view::Settled;
use std::io::Print;
use std::sync::Wait;
use std::time::{Clock, Instant};

/// Puts so many different keys in this order, and prints what that took and left.
pub fn tell_puts<R: Print + Wait + Clock>(
    rt: &R,
    worker: &mut OfTable<'_>,
    size: u32,
    order: Order,
) -> Result<(), Fault> {
    let put = time_fill(rt, worker, size, order)?;
    print!(rt; "{size}, {}, ", order.name())?;
    tell_shape(rt, worker, put)
}

// Nanoseconds of each put.
fn time_fill<R: Wait + Clock, W: Worker<R>>(
    rt: &R,
    worker: &mut W,
    size: u32,
    order: Order,
) -> Result<u64, Fault> {
    let start = Instant::now(rt)?;
    fill(rt, worker, size, order)?;
    nanos_each(rt, start, size)
}

fn tell_shape<R: Print + Wait>(rt: &R, worker: &mut OfTable<'_>, put: u64) -> Result<(), Fault> {
    let drawn = worker.drawn_rows();
    let (depth, settled) = shape_of(rt, worker)?;
    println!(rt; "{put}, {drawn}, {depth}, {settled}")?;
    Ok(())
}

// How deep the tree of a clone stands, and whether it is settled.
fn shape_of<R: Wait>(rt: &R, worker: &mut OfTable<'_>) -> Result<(u32, &'static str), Fault> {
    let mut view = worker.clone_view(rt)?;
    let settled = match view.settled() {
        Settled::Yes => "yes",
        Settled::RowsOut { .. } => "no, rows were out",
        Settled::StampOut { .. } => "no, a stamp was out",
    };
    Ok((view.depth(), settled))
}
