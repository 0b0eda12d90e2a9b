//! Tells the one who takes pieces when workers have begun and when they have ended. It says only when to look: no clause
//! rests on it.
use std::sync::Wait;
use std::sync::atomic::{AtomicU64, Ordering};
use std::time::Duration;

// What the word holds.
const SILENT: u64 = 0;

const BEGUN: u64 = 1;

const ENDED: u64 = 2;

// How often one looks whether workers have begun, and for how many milliseconds one sleeps between two looks.
const LOOKS: u32 = 1_000;

const NAP: u64 = 1;

/// Rung when workers begin, and when they have ended.
#[derive(Drop)]
pub struct Bell {
    word: AtomicU64,
}

impl Bell {
    /// A bell that was not rung yet.
    pub fn new() -> Bell {
        Bell {
            word: AtomicU64::new(SILENT),
        }
    }

    /// The workers begin.
    pub fn begin(&self) {
        self.word.store(BEGUN, Ordering::SeqCst);
        self.word.wake_all();
    }

    /// The workers have ended.
    pub fn end(&self) {
        self.word.store(ENDED, Ordering::SeqCst);
        self.word.wake_all();
    }

    /// Whether the workers begin within a second or so: where no thread can be made, they begin only later.
    pub(crate) fn has_begun<R: Wait>(&self, rt: &R) -> bool {
        for _ in 0..LOOKS {
            if self.word.load(Ordering::SeqCst) != SILENT {
                return true;
            }
            self.word.park_timeout(rt, 0, Duration::from_millis(NAP));
        }
        false
    }

    /// Whether the workers have ended.
    pub(crate) fn has_ended(&self) -> bool {
        self.word.load(Ordering::SeqCst) == ENDED
    }

    /// Sleeps a little, unless the workers have ended.
    pub(crate) fn nap<R: Wait>(&self, rt: &R) {
        self.word.park_timeout(rt, 1, Duration::from_millis(NAP));
    }
}
