//! A worker's session: it runs commands one by one, by the passes of its kit.
ghost use Rattle.std.specs.Prelude.{◌≡◌, ◌<◌, ◌≤◌, ◌+◌, ◌^◌, ◌++◌, IfOk, IfErr, OnOk, OnErr};
ghost use Rattle.snap_service.specs.Runs.{IsFresh, ServesOn};
ghost use Rattle.snap_service.specs.Serving.{CanRun, MayWantMemory, Serves, text_of};
ghost use Rattle.snap_service.specs.States.{AreSeated, free_slots, most_uses, new_session};

mod conditions;
mod serving;

use crate::{Kit, KitReceipt, Loads, Service};
use snap_model::{Command, OutOfMemory, Reply};
use snap_table::{Pass, TableView};
use snap_text::MOST_CLONES;
use std::alloc::Global;
use std::marker::Model;
use std::sync::Wait;

/// A run of commands on the tables of a service, by the passes of one kit.
#[derive(Drop)]
pub struct Session<'t> {
    service: &'t Service,
    passes: Vec<Pass>,
    in_use: usize,
    clones: Vec<Option<(usize, TableView<'t>)>>,
}

impl<'t> Model for Session<'t> {
    ghost use Rattle.snap_service.specs.States.{SessionState, IsWellFormed};

    ghost Value = { SessionState };

    ghost view = { λ s.
        record {
          tables = s.service.now;
          passes = s.passes.items;
          in_use = s.in_use;
          clones = s.clones.items;
        } };

    ghost invariant = { λ s. IsWellFormed
        (record {
          tables = s.service.now;
          passes = s.passes.items;
          in_use = s.in_use;
          clones = s.clones.items;
        }) };
}

impl<'t> Session<'t> {
    /// A session on the first table, with all slots free. The space for the clones is taken here. A refusal hands the
    /// kit back.
    pub fn open(
        alloc: Global,
        service: &'t Service,
        kit: Kit,
    ) -> Result<Session<'t>, (Kit, OutOfMemory)>
        requires { AreSeated service.now kit }
        ensures ok { IfOk result (λ session. session ≡ new_session service.now kit) }
        ensures begins { IfOk result (λ session. IsFresh service.now kit session) }
        ensures err { IfErr result (λ refusal. refusal.0 ≡ kit) }
    {
        let _names = &service.names;
        let clones = match free_slots(alloc) {
            Ok(clones) => clones,
            Err(want) => return Err((kit, want)),
        };
        let Kit { passes, space: _ } = kit;
        Ok(Session {
            service,
            passes,
            in_use: 0,
            clones,
        })
    }

    /// The greatest number of uses of its passes.
    pub fn uses(&self) -> u64
        ensures { result ≡ most_uses self.now.passes }
    {
        most_uses(&self.passes)
    }

    /// Runs one command, and answers its reply. An export adds its text to `out`.
    ///
    /// An export alone can want memory; session and `out` are then as before.
    pub fn run<R: Wait>(
        &mut self,
        rt: &R,
        alloc: Global,
        command: &Command,
        loads: &Loads,
        out: &mut Vec<u8>,
    ) -> Result<Reply, OutOfMemory>
        requires can { CanRun self.old loads.now command.now }
        requires uses { most_uses self.old.passes < 2 ^ 47 }
        ensures serves { IfOk result
            (λ reply. Serves loads.now self.old command.now reply self.new) }
        ensures fits { IfOk result
            (λ reply. ServesOn loads.now self.old command.now reply self.new) }
        ensures exported { OnOk result
            (out.new.items ≡ out.old.items ++ text_of self.old command.now) }
        ensures uses { most_uses self.new.passes ≤ most_uses self.old.passes + 2 ^ 22 }
        ensures tables { self.new.tables ≡ self.old.tables }
        ensures wants { OnErr result (MayWantMemory command.now) }
        ensures state_stays { OnErr result (self.new ≡ self.old) }
        ensures out_stays { OnErr result (out.new.items ≡ out.old.items) }
    {
        let _passes = &self.passes;
        loads.few();
        self.serve(rt, alloc, command, loads, out)
    }

    /// Ends the session, and gives up its clones.
    pub fn finish(self) -> KitReceipt
        ensures passes { result ≡ self.entry.passes }
        ensures seated { AreSeated self.entry.tables result }
    {
        KitReceipt {
            passes: self.passes,
        }
    }
}

// The greatest number of uses.
fn most_uses(passes: &[Pass]) -> u64
    ensures { result ≡ most_uses passes.now }
{
    let mut most = 0;
    for pass in passes {
        most = pass.uses().max(most);
    }
    most
}

// Slots for clones, none of them taken.
fn free_slots<'t>(alloc: Global) -> Result<Vec<Option<(usize, TableView<'t>)>>, OutOfMemory>
    ensures { IfOk result (λ slots. slots.items ≡ free_slots) }
{
    let mut slots = Vec::with_capacity(alloc, MOST_CLONES)?;
    for _ in 0..MOST_CLONES {
        slots.push(None)?;
    }
    Ok(slots)
}
