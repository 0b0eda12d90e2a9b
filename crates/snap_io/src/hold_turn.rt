//! A turn for tests that two workers run at one time.
use crate::Turn;
use crossbeam_utils::atomic::AtomicCell;
use std::hint;

/// Holds worker 0 before its first command and worker 1 before its second, until each has seen that the other is there.
/// Neither waits: each looks for the other a limited number of times, and goes on.
#[derive(Drop)]
pub struct HoldTurn {
    limit: u64,
    first: Side,
    second: Side,
}

// One of the two workers: whether it is there, and whether it saw that the other is.
#[derive(Drop)]
struct Side {
    there: AtomicCell<bool>,
    saw: AtomicCell<bool>,
}

impl HoldTurn {
    /// Each of the two looks for the other at most `limit` times.
    pub fn new(limit: u64) -> HoldTurn {
        HoldTurn {
            limit,
            first: Side::new(),
            second: Side::new(),
        }
    }

    /// Whether both saw the other. Workers that run one after the other never do.
    pub fn met(&self) -> bool {
        self.first.saw.load() && self.second.saw.load()
    }
}

impl Turn for HoldTurn {
    fn before(&self, worker: u32, number: u64) {
        match (worker, number) {
            (0, 1) => self.first.look_for(&self.second, self.limit),
            (1, 2) => self.second.look_for(&self.first, self.limit),
            _ => {}
        }
    }
}

impl Side {
    fn new() -> Side {
        Side {
            there: AtomicCell::new(false),
            saw: AtomicCell::new(false),
        }
    }

    // Is there from now on, and looks for the other.
    fn look_for(&self, other: &Side, limit: u64) {
        self.there.store(true);
        for _ in 0..limit {
            if other.there.load() {
                self.saw.store(true);
                return;
            }
            hint::spin_loop();
        }
    }
}
