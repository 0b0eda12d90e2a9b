//! Turns of workers, as a trait: a place at which a test can hold a worker back. A real run holds nobody back.

/// What a worker calls before each of its commands, so that a test can hold workers back.
pub trait Turn {
    /// Workers are numbered from 0 by script, commands from 1. Nothing is promised but that it returns.
    fn before(&self, worker: u32, number: u64);
}

/// Holds nobody back.
#[derive(Clone, Copy, Debug)]
pub struct FreeTurn;

impl Turn for FreeTurn {
    fn before(&self, _worker: u32, _number: u64) {}
}
