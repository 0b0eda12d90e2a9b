//! Several threads at once.
use crate::fault::Fault;
use std::sync::atomic::{AtomicU64, Ordering};
use std::sync::{Mutex, Wait};
use std::thread;
use std::thread::Threads;

/// What each of several threads does with a worker of its own.
pub trait Task<R, W> {
    /// The part of the thread of this number. Its answer is added to those of the others.
    fn work(&self, rt: &R, worker: &mut W, thread: usize) -> Result<u64, Fault>;
}

/// Lets each worker do its part in a thread of its own, and answers the sum of what they answer.
pub fn at_once<R: Threads + Wait + Sync, W: Send, T: Task<R, W> + Sync>(
    rt: &R,
    workers: &mut [W],
    task: &T,
) -> Result<u64, Fault> {
    let tally = Tally::new();
    let threads = workers.len().max(1);
    thread::for_each_mut(
        rt,
        workers,
        threads,
        &|thread, worker| { tally.add(rt, task.work(rt, worker, thread)) },
    );
    tally.sum()
}

// The sum of what all threads tell, or why one of them gave up.
#[derive(Drop)]
struct Tally {
    sum: AtomicU64,
    fault: Mutex<Option<Fault>>,
}

impl Tally {
    fn new() -> Tally {
        Tally {
            sum: AtomicU64::new(0),
            fault: Mutex::new(None),
        }
    }

    fn add<R: Wait>(&self, rt: &R, told: Result<u64, Fault>) {
        match told {
            Ok(number) => {
                self.sum.fetch_add(number, Ordering::SeqCst);
            }
            Err(fault) => *self.fault.lock(rt) = Some(fault),
        }
    }

    fn sum(self) -> Result<u64, Fault> {
        match self.fault.into_inner() {
            Some(fault) => Err(fault),
            None => Ok(self.sum.into_inner()),
        }
    }
}
