//! A sink in memory, which tells its bytes exactly, with calls that fail as planned.
ghost use Rattle.std.specs.Prelude.{◌≡◌, [], Some, IsTrue, IsErr, OnOk, OnErr, is_err};
ghost use Rattle.snap_io.specs.Causes.{HasCause, raised_if};
ghost use Rattle.snap_io.specs.MemSink.{bytes_of, put_faults_of, plan_of};
ghost use Rattle.snap_io.specs.Plan.{with_call, fails_next, no_plan, with_number};
ghost use Rattle.snap_io.specs.Sinks.{Puts};

use crate::plan::Plan;
use crate::{Failed, Sink};
use snap_model::OutOfMemory;
use std::alloc::Global;

/// A sink in memory, whose calls can be made to fail by their number.
#[derive(Drop)]
pub struct MemSink {
    held: Vec<u8>,
    plan: Plan,
    count: u64,
}

impl MemSink {
    /// An empty sink without faults, none of whose calls is to fail. Takes no memory.
    pub fn new(alloc: Global) -> MemSink
        ensures bytes { bytes_of result ≡ [] }
        ensures faults { put_faults_of result ≡ 0 }
        ensures plan { plan_of result ≡ no_plan }
    {
        MemSink {
            held: Vec::new(alloc),
            plan: Plan::new(alloc),
            count: 0,
        }
    }

    /// The n-th `put`, counted from 1 at making, will fail and add nothing.
    pub fn fail(&mut self, n: u64) -> Result<(), OutOfMemory>
        ensures planned { OnOk result (plan_of self.new ≡ with_number n (plan_of self.old)) }
        ensures refused { OnErr result (plan_of self.new ≡ plan_of self.old) }
        ensures bytes { bytes_of self.new ≡ bytes_of self.old }
        ensures faults { put_faults_of self.new ≡ put_faults_of self.old }
    {
        self.plan.fail(n)
    }

    /// The bytes written so far.
    pub fn bytes(&self) -> &[u8]
        ensures { result.now ≡ bytes_of self.now }
    {
        self.held.as_slice()
    }

    /// How often a `put` has failed.
    pub fn faults(&self) -> u64
        ensures { result ≡ put_faults_of self.now }
    {
        self.count
    }
}

impl Sink for MemSink {
    ghost use Rattle.std.specs.Prelude.{Some};
    ghost use Rattle.snap_io.specs.MemSink.{bytes_of, put_faults_of};

    ghost written = { λ s. Some (bytes_of s) };

    ghost faults = { λ s. put_faults_of s };

    /// A call that isn't set to fail does so only for want of memory. No failure adds a byte.
    fn put(&mut self, bytes: &[u8]) -> Result<(), Failed>
        ensures bytes { Puts (Some (bytes_of self.old))
            (Some (bytes_of self.new)) bytes.now result }
        ensures cause { HasCause (put_faults_of self.old) (put_faults_of self.new) result }

        // The plan is kept, and a failure is one fault that adds nothing.
        ensures planned { IsTrue (fails_next (plan_of self.old)) → IsErr result }
        ensures counted { plan_of self.new ≡ with_call (plan_of self.old) }
        ensures fault { put_faults_of self.new
            ≡ raised_if (is_err result) (put_faults_of self.old) }
        ensures kept { OnErr result (bytes_of self.new ≡ bytes_of self.old) }
    {
        if self.plan.call() {
            return Err(Failed::counted(&mut self.count));
        }
        match self.held.extend_from_slice(bytes) {
            Ok(()) => Ok(()),
            Err(_) => Err(Failed::counted(&mut self.count)),
        }
    }
}
