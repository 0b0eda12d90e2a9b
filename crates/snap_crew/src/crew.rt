//! Workers at their seats, each in a thread of its own where one can be made, and one who takes their pieces meanwhile.
ghost use Rattle.std.specs.Prelude.{◌<◌, ℕ, All, length, slice_index_or};
ghost use Rattle.std.specs.Thread.{IsSync};
ghost use Rattle.snap_crew.specs.Seats.{CanSit, HasSat};
ghost use Rattle.snap_desk.specs.Collecting.{CanDrain, Drains, GoesOnWriting};

use crate::seats::Seat;
use crate::worker::work;
use snap_desk::{Bell, Collector};
use snap_io::{Shelf, Turn};
use snap_outlet::{MOST_SENDERS, Outlet};
use snap_service::Session;
use snap_text::{Line, Loads};
use std::alloc::Global;
use std::sync::Wait;
use std::thread;
use std::thread::Threads;

/// The work of one worker: a session that has run nothing, the script, and the worker's number.
#[derive(Drop)]
pub struct Job<'t> {
    pub session: Session<'t>,
    pub script: &'t [Line],
    pub who: u32,
}

/// One worker's work.
pub fn do_job<R: Wait, T: Turn>(
    rt: &R,
    alloc: Global,
    loads: &Loads,
    turn: &T,
    outlet: &Outlet,
    seat: &mut Seat<'_>,
)
    requires { CanSit loads.now outlet.now seat.old }
    ensures { HasSat loads.now seat.old seat.new }
{
    seat.came = work(rt, alloc, loads, turn, outlet, seat);
}

/// Each job by a worker of its own, in a thread where one can be made; where none can, the caller does it.
pub fn do_all<R: Threads + Wait + Sync, T: Turn + Sync>(
    rt: &R,
    alloc: Global,
    loads: &Loads,
    turn: &T,
    outlet: &Outlet,
    seats: &mut [Seat<'_>],
)
    requires { All (CanSit loads.now outlet.now) seats.old }
    ensures { (i : ℕ) (d : _) → i < length seats.old
        → HasSat loads.now (slice_index_or seats.old i d) (slice_index_or seats.new i d) }
{
    thread::for_each_mut(
        rt,
        seats,
        MOST_SENDERS as usize,
        &|_, seat: &mut Seat<'_>|
            requires { CanSit loads.now outlet.now seat.now }
            ensures { HasSat loads.entry.now seat.entry.now seat.exit.now }
        { do_job(rt, alloc, loads, turn, outlet, seat) },
    );
}

/// All jobs, while the caller takes the pieces that come and writes them.
pub fn do_beside<R: Threads + Wait + Sync, S: Shelf, T: Turn + Sync>(
    rt: &R,
    alloc: Global,
    loads: &Loads,
    turn: &T,
    outlet: &Outlet,
    collector: &mut Collector<'_>,
    shelf: &mut S,
    seats: &mut [Seat<'_>],
)
    requires seats { All (CanSit loads.now outlet.now) seats.old }
    requires can { CanDrain collector.old outlet.now (S.files shelf.old) }
    ensures sat { (i : ℕ) (d : _) → i < length seats.old
        → HasSat loads.now (slice_index_or seats.old i d) (slice_index_or seats.new i d) }
    ensures drains { Drains collector.old collector.new (S.files shelf.old) (S.files shelf.new)
        (S.write_faults shelf.old) (S.write_faults shelf.new) }
    ensures goes_on { GoesOnWriting S.files S.read_faults collector.old collector.new
        shelf.old shelf.new }
{
    let bell = Bell::new();
    thread::join_mut(
        rt,
        &mut ||
            requires { IsSync R.row × IsSync T.row × All (CanSit loads.now outlet.now) seats.now }
            ensures { (i : ℕ) (d : _) → i < length seats.entry.now
                → HasSat loads.entry.now (slice_index_or seats.entry.now i d)
                (slice_index_or seats.exit.now i d) }
        {
            bell.begin();
            do_all(rt, alloc, loads, turn, outlet, seats);
            bell.end();
        },
        &mut || collector.take_beside(rt, alloc, outlet, shelf, &bell),
    );
}
