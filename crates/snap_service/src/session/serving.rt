//! The commands of a session, one function each: what it asks of the tables and of the session's clones.
ghost use Rattle.std.specs.Prelude.{◌≡◌, ◌<◌, ◌≤◌, ◌+◌, ◌^◌, ◌++◌, Option, ℕ, All, IfOk, OnOk, OnErr, IsSome, None, Some, [], length};
ghost use Rattle.snap_fits.specs.Fits.{put_reply, remove_reply, value_reply};
ghost use Rattle.snap_prelude.specs.{after, Cloned, count, IsOf, Known, Put, range, Remove};
ghost use Rattle.snap_search.specs.Prelude.{Reads};
ghost use Rattle.snap_table.specs.{Calls.IsIdle, Clones.Cuts};
ghost use Rattle.snap_text.specs.{LoadFiles.HasFile, LoadFiles.pairs_of, Tables.table_text, Numbers.FitsValue};
ghost use Rattle.snap_service.specs.Kinds.{Asks, IsOnSlot, IsOnTable};
ghost use Rattle.snap_service.specs.Serving.{CanRun, LoadsPairs, Measured, MayWantMemory, Serves, Wrote, clone_map, text_of};
ghost use Rattle.snap_service.specs.States.{HasTable, HasFreeSlot, IsTaken, clone_at, most_uses, pass_in_use, with_pass, with_slot, with_use};

use super::Session;
use crate::asking::{ceiling, count, first, floor, higher, last, lower, measure, see};
use crate::replies::{put_reply, remove_reply, value_reply};
use snap_model::{Command, Key, Name, OutOfMemory, Reply};
use snap_table::{Pass, SnapTable, TableView};
use snap_text::{Loads, export_text};
use std::alloc::Global;
use std::sync::Wait;

impl<'t> Session<'t> {
    // Runs a command: an export alone can want memory.
    pub(super) fn serve<R: Wait>(
        &mut self,
        rt: &R,
        alloc: Global,
        command: &Command,
        loads: &Loads,
        out: &mut Vec<u8>,
    ) -> Result<Reply, OutOfMemory>
        requires can { CanRun self.old loads.now command.now }
        requires uses { most_uses self.old.passes < 2 ^ 47 }
        ensures serves { IfOk result
            (λ reply. Serves loads.now self.old command.now reply self.new) }
        ensures exported { OnOk result
            (out.new.items ≡ out.old.items ++ text_of self.old command.now) }
        ensures wants { OnErr result (MayWantMemory command.now) }
        ensures state_stays { OnErr result (self.new ≡ self.old) }
        ensures out_stays { OnErr result (out.new.items ≡ out.old.items) }
    {
        match command {
            Command::Table { .. }
            | Command::Put { .. }
            | Command::Remove { .. }
            | Command::Get { .. }
            | Command::Load { .. } => Ok(self.on_table(rt, command, loads)),
            Command::Snap { .. } | Command::Forget { .. } | Command::Depth { .. } => {
                Ok(self.on_slot(rt, command))
            }
            Command::See { slot, .. }
            | Command::First { slot }
            | Command::Last { slot }
            | Command::Floor { slot, .. }
            | Command::Lower { slot, .. }
            | Command::Ceiling { slot, .. }
            | Command::Higher { slot, .. }
            | Command::Count { slot, .. } => Ok(self.ask(*slot, command)),
            Command::Export { slot, lo, hi, .. } => self.export(alloc, *slot, *lo, *hi, out),
        }
    }

    // The commands that go to a table: another one, or that in use.
    fn on_table<R: Wait>(&mut self, rt: &R, command: &Command, loads: &Loads) -> Reply
        requires kind { IsOnTable command.now }
        requires can { CanRun self.old loads.now command.now }
        requires uses { most_uses self.old.passes < 2 ^ 47 }
        ensures { Serves loads.now self.old command.now result self.new }
    {
        match command {
            Command::Table { name } => self.go_on_with(name),
            Command::Put { key, value } => self.put(rt, *key, *value),
            Command::Remove { key } => self.remove(rt, *key),
            Command::Get { key } => self.get(rt, *key),
            Command::Load { file } => self.load(rt, loads, file),
            _ => unreachable!(),
        }
    }

    // The commands that fill a slot, empty it or measure the clone there. No load file plays a part in them.
    fn on_slot<R: Wait>(&mut self, rt: &R, command: &Command) -> Reply
        requires kind { IsOnSlot command.now }
        requires can { CanRun self.old [] command.now }
        requires uses { most_uses self.old.passes < 2 ^ 47 }
        ensures { Serves [] self.old command.now result self.new }
    {
        match command {
            Command::Snap { slot, .. } => self.snap(rt, *slot),
            Command::Forget { slot, .. } => self.forget(*slot),
            Command::Depth { slot } => self.depth(*slot),
            _ => unreachable!(),
        }
    }

    // A question to the clone in a slot. No load file plays a part in it.
    fn ask(&mut self, slot: u8, question: &Command) -> Reply
        requires asks { Asks slot question.now }
        requires taken { IsTaken self.old slot }
        ensures { Serves [] self.old question.now result self.new }
    {
        let view = self.clone_in(slot);
        match question {
            Command::See { key, .. } => see(view, *key),
            Command::First { .. } => first(view),
            Command::Last { .. } => last(view),
            Command::Floor { key, .. } => floor(view, *key),
            Command::Lower { key, .. } => lower(view, *key),
            Command::Ceiling { key, .. } => ceiling(view, *key),
            Command::Higher { key, .. } => higher(view, *key),
            Command::Count { lo, hi, .. } => count(view, *lo, *hi),
            _ => unreachable!(),
        }
    }

    fn go_on_with(&mut self, name: &Name) -> Reply
        requires { HasTable self.old name.now }
        ensures reply { result ≡ Reply.Using }
        ensures state { self.new ≡ with_use self.old name.now }
    {
        let Some(place) = self.service.place_of(name) else {
            unreachable!()
        };
        self.in_use = place;
        Reply::Using
    }

    fn put<R: Wait>(&mut self, rt: &R, key: Key, value: u64) -> Reply
        requires value { FitsValue value }
        requires uses { most_uses self.old.passes < 2 ^ 48 }
        ensures { (pass : Known) × (self.new ≡ with_pass self.old pass)
            × Wrote self.old.tables.rows (Put key value) put_reply
            (pass_in_use self.old) result pass }
    {
        let service = self.service;
        let table = &service.tables[self.in_use];
        let pass = &mut self.passes[self.in_use];
        match table.put(rt, pass, key, value) {
            Ok(was) => put_reply(was),
            Err(_) => Reply::Full,
        }
    }

    fn remove<R: Wait>(&mut self, rt: &R, key: Key) -> Reply
        requires { most_uses self.old.passes < 2 ^ 48 }
        ensures { (pass : Known) × (self.new ≡ with_pass self.old pass)
            × Wrote self.old.tables.rows (Remove key) remove_reply
            (pass_in_use self.old) result pass }
    {
        let service = self.service;
        let table = &service.tables[self.in_use];
        let pass = &mut self.passes[self.in_use];
        match table.remove(rt, pass, key) {
            Ok(was) => remove_reply(was),
            Err(_) => Reply::Full,
        }
    }

    fn get<R: Wait>(&mut self, rt: &R, key: Key) -> Reply
        ensures { (pass : Known) × (self.new ≡ with_pass self.old pass) × (answer : Option ℕ)
            × (result ≡ value_reply answer) × Reads (pass_in_use self.old) pass key answer }
    {
        let service = self.service;
        let table = &service.tables[self.in_use];
        let pass = &mut self.passes[self.in_use];
        value_reply(table.get(rt, pass, key))
    }

    fn snap<R: Wait>(&mut self, rt: &R, slot: u8) -> Reply
        requires free { HasFreeSlot self.old slot }
        requires uses { most_uses self.old.passes < 2 ^ 48 }
        ensures reply { result ≡ Reply.Snapped }
        ensures cut { (pass : Known) × (clone : Cloned)
            × (self.new ≡ with_slot (with_pass self.old pass) slot (Some (self.old.in_use, clone)))
            × Cuts (pass_in_use self.old) pass clone }
    {
        let service = self.service;
        let table = &service.tables[self.in_use];
        let pass = &mut self.passes[self.in_use];
        let view = table.clone_view(rt, pass);
        self.clones[slot as usize] = Some((self.in_use, view));
        Reply::Snapped
    }

    fn forget(&mut self, slot: u8) -> Reply
        requires { IsTaken self.old slot }
        ensures reply { result ≡ Reply.Forgotten }
        ensures state { self.new ≡ with_slot self.old slot None }
    {
        self.clones[slot as usize] = None;
        Reply::Forgotten
    }

    fn load<R: Wait>(&mut self, rt: &R, loads: &Loads, file: &Name) -> Reply
        requires file { HasFile loads.now file.now }
        requires values { All (λ (pair : ℕ × ℕ). FitsValue pair.1) (pairs_of loads.now file.now) }
        requires uses { most_uses self.old.passes < 2 ^ 47 }
        ensures { (pass : Known) × (self.new ≡ with_pass self.old pass)
            × LoadsPairs self.old.tables.rows (pairs_of loads.now file.now)
            (pass_in_use self.old) result pass }
    {
        let pairs = loads.pairs_of(file);
        let service = self.service;
        let table = &service.tables[self.in_use];
        let pass = &mut self.passes[self.in_use];
        put_all(table, rt, pass, pairs)
    }

    fn export(
        &mut self,
        alloc: Global,
        slot: u8,
        lo: Key,
        hi: Key,
        out: &mut Vec<u8>,
    ) -> Result<Reply, OutOfMemory>
        requires { IsTaken self.old slot }
        ensures reply { IfOk result
            (λ reply. reply ≡ Reply.Exported (count (clone_map self.old slot) lo hi)) }
        ensures out { OnOk result
            (out.new.items ≡ out.old.items ++ table_text (range (clone_map self.old slot) lo hi)) }
        ensures state { self.new ≡ self.old }
        ensures refused { OnErr result (out.new.items ≡ out.old.items) }
    {
        let view = self.clone_in(slot);
        export_range(alloc, view, lo, hi, out)
    }

    // Asks one view more of the clone, and gives it back to the pass of the clone's table.
    fn depth(&mut self, slot: u8) -> Reply
        requires { IsTaken self.old slot }
        ensures { Measured (clone_at self.old slot) self.old result self.new }
    {
        let (place, mut view) = self.live_in(slot);
        let reply = measure(&mut view);
        let service = self.service;
        let table = &service.tables[place];
        let pass = &mut self.passes[place];
        table.take_back(pass, view);
        reply
    }

    // One view more of the clone in a slot that is taken.
    fn clone_in(&mut self, slot: u8) -> TableView<'t>
        requires { IsTaken self.old slot }
        ensures map { after result.base ≡ clone_map self.old slot }
        ensures state { self.new ≡ self.old }
    {
        self.live_in(slot).1
    }

    // The same, behind the place of the clone's table.
    fn live_in(&mut self, slot: u8) -> (usize, TableView<'t>)
        requires { IsTaken self.old slot }
        ensures live { clone_at self.old slot ≡ Some (result.0, result.1) }
        ensures state { self.new ≡ self.old }
    {
        twin_of(&mut self.clones[slot as usize])
    }
}

// One view more of a clone that is there.
fn twin_of<'t>(live: &mut Option<(usize, TableView<'t>)>) -> (usize, TableView<'t>)
    requires { IsSome live.old }
    ensures twin { live.old ≡ Some (result.0, result.1) }
    ensures live { live.new ≡ live.old }
{
    match live {
        Some(clone) => (clone.0, clone.1.twin()),
        None => unreachable!(),
    }
}

// Puts of these pairs, in their order, up to one that is refused.
fn put_all<R: Wait>(table: &SnapTable, rt: &R, pass: &mut Pass, pairs: &[(Key, u64)]) -> Reply
    requires table { IsOf pass.old table.now }
    requires idle { IsIdle pass.old.view }
    requires values { All (λ (pair : ℕ × ℕ). FitsValue pair.1) pairs.now }
    requires uses { pass.old.view.uses + length pairs.now ≤ 2 ^ 48 }
    ensures loaded { LoadsPairs table.now.rows pairs.now pass.old result pass.new }
{
    let mut made = 0;
    for pair in pairs {
        if table.put(rt, pass, pair.0, pair.1).is_err() {
            return Reply::FullAfter { n: made };
        }
        made += 1;
    }
    Reply::Loaded { n: made }
}

// Adds the text of a clone's pairs in a range, and answers how many there are.
fn export_range(
    alloc: Global,
    view: TableView<'_>,
    lo: Key,
    hi: Key,
    out: &mut Vec<u8>,
) -> Result<Reply, OutOfMemory>
    ensures reply { IfOk result
        (λ reply. reply ≡ Reply.Exported (count (after view.entry.base) lo hi)) }
    ensures out { OnOk result
        (out.new.items ≡ out.old.items ++ table_text (range (after view.entry.base) lo hi)) }
    ensures refused { OnErr result (out.new.items ≡ out.old.items) }
{
    let pairs = pairs_from(alloc, view, lo, hi)?;
    add_text(alloc, &pairs, out)?;
    Ok(Reply::Exported {
        n: pairs.len() as u64,
    })
}

// The pairs of a clone in a range.
fn pairs_from(
    alloc: Global,
    mut view: TableView<'_>,
    lo: Key,
    hi: Key,
) -> Result<Vec<(Key, u64)>, OutOfMemory>
    ensures pairs { IfOk result (λ pairs. pairs.items ≡ range (after view.entry.base) lo hi) }
{
    let mut pairs = Vec::new(alloc);
    for pair in view.range(lo, hi) {
        pairs.push(pair)?;
    }
    Ok(pairs)
}

// Adds the text of an export.
fn add_text(alloc: Global, pairs: &[(Key, u64)], out: &mut Vec<u8>) -> Result<(), OutOfMemory>
    ensures added { OnOk result (out.new.items ≡ out.old.items ++ table_text pairs.now) }
    ensures refused { OnErr result (out.new.items ≡ out.old.items) }
{
    let text = export_text(alloc, pairs)?;
    out.extend_from_slice(&text)?;
    Ok(())
}
