//! What is left when the workers have ended: it is gathered, and what was not taken yet is written.
ghost use Rattle.std.specs.Prelude.{◌≡◌, ◌≤◌, ◌<◌, ◌+◌, [], All, IfOk, map, vec_capacity, vec_len};
ghost use Rattle.snap_crew.specs.Leaving.{IsUnusedRoom, RunsAll, Settles, done_of};
ghost use Rattle.snap_crew.specs.Seats.{CanSit};
ghost use Rattle.snap_desk.specs.Collecting.{CanDrain, GoesOnWriting};
ghost use Rattle.snap_outlet.specs.Posts.{AreNumbered};
ghost use Rattle.snap_service.specs.Prelude.{AreSeated};

use crate::crew::{Job, do_beside};
use crate::seats::Seat;
use snap_desk::{Collector, Desk};
use snap_io::{Shelf, Turn};
use snap_model::OutOfMemory;
use snap_outlet::{Outlet, Piece, Post};
use snap_service::KitReceipt;
use snap_text::Loads;
use std::alloc::Global;
use std::collections::VecDeque;
use std::sync::Wait;
use std::thread::Threads;

/// What one worker left: the passes of its session, how many replies were full, and whether memory sufficed.
#[derive(Drop)]
pub struct Done {
    pub receipt: KitReceipt,
    pub full: u64,
    pub came: Result<(), OutOfMemory>,
}

/// Lists for what the workers leave. They have their memory before the workers begin.
#[derive(Drop)]
pub struct Room {
    pub posts: Vec<Post>,
    pub done: Vec<Done>,
    pub waiting: Vec<VecDeque<Piece>>,
}

impl Room {
    /// Room for so many workers.
    pub fn new(alloc: Global, workers: usize) -> Result<Room, OutOfMemory>
        ensures { IfOk result (IsUnusedRoom workers) }
    {
        Ok(Room {
            posts: Vec::with_capacity(alloc, workers)?,
            done: Vec::with_capacity(alloc, workers)?,
            waiting: Vec::with_capacity(alloc, workers)?,
        })
    }

    // Takes apart what the workers left.
    fn leave(&mut self, seats: Vec<Seat<'_>>)
        requires { IsUnusedRoom (vec_len seats) self.old }
        ensures posts { self.new.posts.items ≡ map (λ s. s.desk.post) seats.entry.items }
        ensures done { self.new.done.items ≡ map done_of seats.entry.items }
        ensures seated { All (λ s. AreSeated s.job.session.tables s.job.session.passes)
            seats.entry.items }
        ensures waiting { self.new.waiting ≡ self.old.waiting }
    {
        for seat in seats {
            let (done, post) = left_at(seat);
            self.done.push_reserved(done);
            self.posts.push_reserved(post);
        }
    }

    // Gathers the posts, takes what the outlet still holds, and writes it and what waits at them.
    fn settle<R: Wait, S: Shelf>(
        self,
        rt: &R,
        alloc: Global,
        outlet: &Outlet,
        collector: &mut Collector<'_>,
        shelf: &mut S,
    ) -> Vec<Done>
        requires can { CanDrain collector.old outlet.now (S.files shelf.old) }
        requires posts { All (λ p. p.outlet ≡ outlet.now) self.posts.items }
        requires numbered { AreNumbered 0 self.posts.items }
        requires ungathered { collector.old.taker.tally.finished ≡ [] }
        requires few { vec_len self.posts ≤ collector.old.taker.tally.senders }
        requires room { vec_len self.posts + vec_len self.waiting ≤ vec_capacity self.waiting }
        requires empty { self.waiting.items ≡ [] }
        ensures done { result.items ≡ self.done.items }
        ensures settles { Settles collector.old collector.new self.posts.items
            (S.files shelf.old) (S.files shelf.new)
            (S.write_faults shelf.old) (S.write_faults shelf.new) }
        ensures goes_on { GoesOnWriting S.files S.read_faults collector.old collector.new
            shelf.old shelf.new }
    {
        let Room {
            posts,
            done,
            waiting,
        } = self;
        let mut waiting = waiting;
        outlet.gather_posts(&mut collector.taker, posts, &mut waiting);
        collector.drain(rt, alloc, outlet, shelf);
        collector.collect_rests(alloc, shelf, waiting);
        done
    }
}

// What one worker left at its seat, and its post.
fn left_at(seat: Seat<'_>) -> (Done, Post)
    ensures done { result.0 ≡ done_of seat.entry }
    ensures post { result.1 ≡ seat.entry.desk.post }
    ensures seated { AreSeated seat.entry.job.session.tables seat.entry.job.session.passes }
{
    let Seat { job, desk, came } = seat;
    let Job { session, .. } = job;
    let Desk { post, full, .. } = desk;
    let done = Done {
        receipt: session.finish(),
        full,
        came,
    };
    (done, post)
}

/// Runs all workers at their seats, and writes all that they put out.
pub fn run_all<R: Threads + Wait + Sync, S: Shelf, T: Turn + Sync>(
    rt: &R,
    alloc: Global,
    loads: &Loads,
    turn: &T,
    outlet: &Outlet,
    collector: &mut Collector<'_>,
    shelf: &mut S,
    seats: Vec<Seat<'_>>,
    room: Room,
) -> Vec<Done>
    requires seats { All (CanSit loads.now outlet.now) seats.items }
    requires numbered { AreNumbered 0 (map (λ s. s.desk.post) seats.items) }
    requires can { CanDrain collector.old outlet.now (S.files shelf.old) }
    requires few { vec_len seats ≤ collector.old.taker.tally.senders }
    requires untaken { collector.old.taker.tally.taken ≡ [] }
    requires ungathered { collector.old.taker.tally.finished ≡ [] }
    requires room { IsUnusedRoom (vec_len seats) room }
    ensures runs { RunsAll loads.now seats.entry.items result.items collector.old collector.new
        (S.files shelf.old) (S.files shelf.new)
        (S.write_faults shelf.old) (S.write_faults shelf.new) }
    ensures goes_on { GoesOnWriting S.files S.read_faults collector.old collector.new
        shelf.old shelf.new }
{
    let mut seats = seats;
    let mut room = room;
    do_beside(
        rt,
        alloc,
        loads,
        turn,
        outlet,
        collector,
        shelf,
        seats.as_mut_slice(),
    );
    room.leave(seats);
    room.settle(rt, alloc, outlet, collector, shelf)
}
