//! The seats of a run's workers: each has its job, and the desk at which it leaves what its commands come to.
ghost use Rattle.std.specs.Prelude.{◌≡◌, ◌<◌, ◌≤◌, IfOk, IfSome, length, slice_index_or, ℕ};
ghost use Rattle.snap_crew.specs.Seats.{IsReplyAt, IsSeat};
ghost use Rattle.snap_outlet.specs.Outlets.{OutletId, new_sender, new_senders};

use crate::crew::Job;
use snap_desk::Desk;
use snap_model::{Name, OutOfMemory};
use snap_outlet::{OutSender, Outlet, Post};
use std::alloc::Global;

/// The seat of one worker.
#[derive(Drop)]
pub struct Seat<'t> {
    pub job: Job<'t>,
    pub desk: Desk,
    /// Whether memory sufficed.
    pub came: Result<(), OutOfMemory>,
}

/// A seat for each job, with the sender of its number, and the reply file of its place where there are such.
pub fn open_seats<'t>(
    alloc: Global,
    outlet: &Outlet,
    jobs: Vec<Job<'t>>,
    senders: Vec<OutSender>,
    names: Option<&[Name]>,
) -> Result<Vec<Seat<'t>>, OutOfMemory>
    requires senders { senders.items ≡ new_senders outlet.now (length jobs.items) }
    requires names { IfSome names (λ names. length jobs.items ≤ length names.now) }
    ensures many { IfOk result (λ seats. length seats.items ≡ length jobs.entry.items) }
    ensures each { IfOk result
        (λ seats. (i : ℕ) (d : _) (e : _) → i < length jobs.entry.items
        → IsSeat outlet.now names.entry i (slice_index_or jobs.entry.items i d)
        (slice_index_or seats.items i e)) }
{
    let mut seats = Vec::new(alloc);
    let mut left = jobs;
    let mut others = senders;
    while let Some(job) = left.pop() {
        let Some(sender) = others.pop() else {
            unreachable!()
        };
        let seat = seat_of(alloc, job, sender, names, left.len())?;
        seats.push(seat)?;
    }
    seats.reverse();
    Ok(seats)
}

// The seat of a job, with this sender, and the reply file of this place where there are such.
fn seat_of<'t>(
    alloc: Global,
    job: Job<'t>,
    sender: OutSender,
    names: Option<&[Name]>,
    place: usize,
) -> Result<Seat<'t>, OutOfMemory>
    requires { IfSome names (λ names. place < length names.now) }
    ensures { IfOk result
        (λ seat. (outlet : OutletId) → sender ≡ new_sender outlet place
        → IsSeat outlet names.entry place job.entry seat) }
{
    let reply = reply_at(alloc, names, place)?;
    let who = job.who;
    let desk = Desk::new(alloc, Post::new(alloc, sender), reply, who);
    Ok(Seat {
        job,
        desk,
        came: Ok(()),
    })
}

// The reply file of a place, where there are reply files.
fn reply_at(
    alloc: Global,
    names: Option<&[Name]>,
    place: usize,
) -> Result<Option<Name>, OutOfMemory>
    requires { IfSome names (λ names. place < length names.now) }
    ensures { IfOk result (IsReplyAt names.entry place) }
{
    match names {
        None => Ok(None),
        Some(names) => {
            let name = Name::new(alloc, names[place].text())?;
            Ok(Some(name))
        }
    }
}
