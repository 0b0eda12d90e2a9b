//! Planned failures: which calls of one kind a shelf or a sink in memory is to fail.
ghost use Rattle.std.specs.Prelude.{◌≡◌, OnOk, OnErr};
ghost use Rattle.snap_io.specs.Plan.{with_call, fails_next, no_plan, with_number};

use snap_model::OutOfMemory;
use std::alloc::Global;
use std::marker::Model;

/// How many calls of one kind were made, and which of them are to fail, by their numbers from 1.
#[derive(Drop)]
pub(crate) struct Plan {
    made: u64,
    failing: Vec<u64>,
}

impl Model for Plan {
    ghost use Rattle.snap_io.specs.Plan.{Planned};

    ghost Value = { Planned };

    ghost view = { λ p. record { made = p.made; failing = p.failing.items } };
}

impl Plan {
    pub(crate) fn new(alloc: Global) -> Plan
        ensures { result ≡ no_plan }
    {
        Plan {
            made: 0,
            failing: Vec::new(alloc),
        }
    }

    pub(crate) fn fail(&mut self, n: u64) -> Result<(), OutOfMemory>
        ensures ok { OnOk result (self.new ≡ with_number n self.old) }
        ensures err { OnErr result (self.new ≡ self.old) }
    {
        self.failing.push(n)?;
        Ok(())
    }

    /// Counts a call, and answers whether it is to fail.
    pub(crate) fn call(&mut self) -> bool
        ensures fails { result ≡ fails_next self.old }
        ensures counted { self.new ≡ with_call self.old }
    {
        self.made = self.made.saturating_add(1);
        self.failing.contains(&self.made)
    }
}
