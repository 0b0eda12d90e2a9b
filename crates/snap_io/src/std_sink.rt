//! The sink of a real run: standard output. It tells only its count of faults.
ghost use Rattle.std.specs.Prelude.{◌≡◌, None};

use crate::{Failed, Sink};
use std::io::Print;
use std::marker::Model;

/// Standard output. Tells no bytes, and takes each error for a fault, that of a write that takes nothing too.
/// Contracts see its count.
#[derive(Drop)]
pub struct StdSink<'r, R: Print> {
    out: &'r R,
    count: u64,
}

impl<'r, R: Print> Model for StdSink<'r, R> {
    ghost use Rattle.std.specs.Prelude.{ℕ};

    ghost Value = { ℕ };

    ghost view = { λ s. s.count };
}

impl<'r, R: Print> StdSink<'r, R> {
    /// A sink over this output, without faults.
    pub fn new(out: &'r R) -> StdSink<'r, R>
        ensures { result ≡ 0 }
    {
        StdSink { out, count: 0 }
    }
}

impl<'r, R: Print> Sink for StdSink<'r, R> {
    ghost written = { λ s. None };

    ghost faults = { λ s. s };

    fn put(&mut self, bytes: &[u8]) -> Result<(), Failed> {
        match self.out.write_all(bytes) {
            Ok(()) => Ok(()),
            Err(_) => Err(Failed::counted(&mut self.count)),
        }
    }
}
