//! A shelf in memory, which tells its files exactly. Tests run the program over it, with calls that fail as planned.
ghost use Rattle.std.specs.Prelude.{◌≡◌, ◌≤◌, ◌-◌, ◌&&◌, ◌||◌, ◌++◌, ◌↔◌, [], ℕ, List, Option, None, Some, IfOk, IfNone, IfSome, IsNone, IsTrue, IsErr, OnOk, OnErr, is_ok, is_err, is_some, not, min, length};
ghost use Rattle.std.specs.Option.{option_copied};
ghost use Rattle.snap_io.specs.Causes.{HasCause, HasCauseOr, raised_if};
ghost use Rattle.snap_io.specs.MemShelf.{held_files, faults_of, no_failures, plans_of, read_faults_of, stored_files, write_faults_of, with_failure};
ghost use Rattle.snap_io.specs.Plan.{with_call, fails_next};
ghost use Rattle.snap_io.specs.Shelves.{Appends, Changes, Creates, Gives, IsAbsent, OfFile, OnlyReads, ReadsFrom, Sets, Sizes};

use crate::plan::Plan;
use crate::{Failed, Shelf};
use snap_model::OutOfMemory;
use std::alloc::{AllocError, Global};
use std::collections::BTreeMap;

/// A kind of call of a shelf.
#[derive(Clone, Copy, Debug, PartialEq, Eq)]
pub enum ShelfOp {
    Size,
    Read,
    Create,
    Append,
}

/// The planned failures of each kind of call.
#[derive(Drop)]
struct Plans {
    sizes: Plan,
    reads: Plan,
    creates: Plan,
    appends: Plan,
}

/// A shelf in memory, whose calls can be made to fail by their kind and number.
#[derive(Drop)]
pub struct MemShelf {
    alloc: Global,
    held: BTreeMap<String, Vec<u8>>,
    plans: Plans,
    reading: u64,
    writing: u64,
}

impl MemShelf {
    /// A shelf with no files and no faults, none of whose calls is to fail. Takes no memory.
    pub fn new(alloc: Global) -> MemShelf
        ensures files { (name : List ℕ) → held_files result name ≡ None }
        ensures faults { faults_of result ≡ (0, 0) }
        ensures plans { plans_of result ≡ no_failures }
    {
        MemShelf {
            alloc,
            held: BTreeMap::new(alloc),
            plans: Plans {
                sizes: Plan::new(alloc),
                reads: Plan::new(alloc),
                creates: Plan::new(alloc),
                appends: Plan::new(alloc),
            },
            reading: 0,
            writing: 0,
        }
    }

    /// Sets a file, in place of the one with its name where there is one.
    pub fn add(&mut self, name: &str, bytes: &[u8]) -> Result<(), OutOfMemory>
        ensures set { OnOk result
            (Sets name.now bytes.now (held_files self.old) (held_files self.new)) }
        ensures refused { OnErr result (held_files self.new ≡ held_files self.old) }
        ensures faults { faults_of self.new ≡ faults_of self.old }
        ensures plans { plans_of self.new ≡ plans_of self.old }
    {
        set_file(&mut self.held, self.alloc, name, bytes)
    }

    /// The n-th call of the kind, counted from 1 at making, will fail and add nothing.
    pub fn fail(&mut self, op: ShelfOp, n: u64) -> Result<(), OutOfMemory>
        ensures planned { OnOk result (plans_of self.new ≡ with_failure op n (plans_of self.old)) }
        ensures refused { OnErr result (plans_of self.new ≡ plans_of self.old) }
        ensures files { held_files self.new ≡ held_files self.old }
        ensures faults { faults_of self.new ≡ faults_of self.old }
    {
        match op {
            ShelfOp::Size => self.plans.sizes.fail(n),
            ShelfOp::Read => self.plans.reads.fail(n),
            ShelfOp::Create => self.plans.creates.fail(n),
            ShelfOp::Append => self.plans.appends.fail(n),
        }
    }

    /// The bytes of a file, if it is there.
    pub fn content(&self, name: &str) -> Option<&[u8]>
        ensures { option_copied result ≡ held_files self.now name.now }
    {
        match self.held.get(name) {
            Some(bytes) => Some(bytes.as_slice()),
            None => None,
        }
    }

    /// How often a reading call and how often a writing call has failed. An absent name alone is no fault.
    pub fn faults(&self) -> (u64, u64)
        ensures { result ≡ faults_of self.now }
    {
        (self.reading, self.writing)
    }
}

impl Shelf for MemShelf {
    ghost use Rattle.std.specs.Prelude.{Some};
    ghost use Rattle.snap_io.specs.MemShelf.{held_files, read_faults_of, write_faults_of};

    ghost files = { λ s. Some (held_files s) };

    ghost read_faults = { λ s. read_faults_of s };

    ghost write_faults = { λ s. write_faults_of s };

    fn size(&mut self, name: &str) -> Result<u64, Failed>
        ensures length { Sizes (Some (held_files self.old)) name.now result }
        ensures cause { HasCauseOr (IsAbsent (Some (held_files self.old)) name.now)
            (read_faults_of self.old) (read_faults_of self.new) result }
        ensures only_reads { OnlyReads (λ s. Some (held_files s)) read_faults_of write_faults_of
            self.old self.new }

        // It fails where that is planned, which is a fault, or where the file is absent, and else never.
        ensures answered { is_ok result
            ≡ (not (fails_next (plans_of self.old).sizes)
            && is_some (held_files self.old name.now)) }
        ensures fault { read_faults_of self.new
            ≡ raised_if (fails_next (plans_of self.old).sizes) (read_faults_of self.old) }
        ensures counted { plans_of self.new
            ≡ record (plans_of self.old) { sizes = with_call (plans_of self.old).sizes } }
    {
        if self.plans.sizes.call() {
            return Err(Failed::counted(&mut self.reading));
        }
        match self.content(name) {
            Some(bytes) => Ok(bytes.len() as u64),
            None => Err(Failed),
        }
    }

    fn read(&mut self, name: &str, at: u64, into: &mut [u8]) -> Result<usize, Failed>
        ensures bound { IfOk result (λ n. n ≤ length into.new) }
        ensures bytes { ReadsFrom (Some (held_files self.old)) name.now at result into.new }
        ensures cause { HasCauseOr (IsAbsent (Some (held_files self.old)) name.now)
            (read_faults_of self.old) (read_faults_of self.new) result }
        ensures only_reads { OnlyReads (λ s. Some (held_files s)) read_faults_of write_faults_of
            self.old self.new }

        // It gives as many bytes as are there and fit, and fails as `size` does.
        ensures full { IfOk result
            (λ n. OfFile (held_files self.old name.now)
            (λ bytes. n ≡ min (length into.new) (length bytes - at))) }
        ensures answered { is_ok result
            ≡ (not (fails_next (plans_of self.old).reads)
            && is_some (held_files self.old name.now)) }
        ensures fault { read_faults_of self.new
            ≡ raised_if (fails_next (plans_of self.old).reads) (read_faults_of self.old) }
        ensures counted { plans_of self.new
            ≡ record (plans_of self.old) { reads = with_call (plans_of self.old).reads } }
    {
        if self.plans.reads.call() {
            return Err(Failed::counted(&mut self.reading));
        }
        match self.content(name) {
            Some(bytes) => Ok(copy_from(bytes, at, into)),
            None => Err(Failed),
        }
    }

    fn create(&mut self, name: &str) -> Result<(), Failed>
        ensures files { Changes (Some (held_files self.old)) (Some (held_files self.new))
            (Creates name.now result) }
        ensures cause { HasCause (write_faults_of self.old) (write_faults_of self.new) result }
        ensures other { read_faults_of self.new ≡ read_faults_of self.old }

        // It fails where that is planned, and else for want of memory alone: a fault that changes no file.
        ensures planned { IsTrue (fails_next (plans_of self.old).creates) → IsErr result }
        ensures kept { OnErr result (held_files self.new ≡ held_files self.old) }
        ensures fault { write_faults_of self.new
            ≡ raised_if (is_err result) (write_faults_of self.old) }
        ensures counted { plans_of self.new
            ≡ record (plans_of self.old) { creates = with_call (plans_of self.old).creates } }
    {
        if self.plans.creates.call() {
            return Err(Failed::counted(&mut self.writing));
        }
        match set_file(&mut self.held, self.alloc, name, &[]) {
            Ok(()) => Ok(()),
            Err(_) => Err(Failed::counted(&mut self.writing)),
        }
    }

    fn append(&mut self, name: &str, bytes: &[u8]) -> Result<(), Failed>
        ensures files { Changes (Some (held_files self.old)) (Some (held_files self.new))
            (Appends name.now bytes.now result) }
        ensures cause { HasCauseOr (IsAbsent (Some (held_files self.old)) name.now)
            (write_faults_of self.old) (write_faults_of self.new) result }
        ensures other { read_faults_of self.new ≡ read_faults_of self.old }

        // It fails where that is planned or the file is absent, and else for want of memory alone, and changes no file
        // then. An absent file alone is no fault.
        ensures planned { IsTrue (fails_next (plans_of self.old).appends) → IsErr result }
        ensures kept { OnErr result (held_files self.new ≡ held_files self.old) }
        ensures fault { write_faults_of self.new
            ≡ raised_if
            (is_err result
            && (fails_next (plans_of self.old).appends || is_some (held_files self.old name.now)))
            (write_faults_of self.old) }
        ensures counted { plans_of self.new
            ≡ record (plans_of self.old) { appends = with_call (plans_of self.old).appends } }
    {
        if self.plans.appends.call() {
            return Err(Failed::counted(&mut self.writing));
        }
        match grow(&mut self.held, name, bytes) {
            Some(Ok(())) => Ok(()),
            Some(Err(_)) => Err(Failed::counted(&mut self.writing)),
            None => Err(Failed),
        }
    }
}

// Copies as many bytes as are there and fit, from a place on.
fn copy_from(bytes: &[u8], at: u64, into: &mut [u8]) -> usize
    ensures bound { result ≤ length into.new }
    ensures given { Gives bytes.now at result into.new }
    ensures full { result ≡ min (length into.new) (length bytes.now - at) }
{
    let from = (at as usize).min(bytes.len());
    let count = into.len().min(bytes.len() - from);
    into[..count].copy_from_slice(&bytes[from..from + count]);
    count
}

// Sets a file, unless memory runs out.
fn set_file(
    held: &mut BTreeMap<String, Vec<u8>>,
    alloc: Global,
    name: &str,
    bytes: &[u8],
) -> Result<(), OutOfMemory>
    ensures set { OnOk result
        (Sets name.now bytes.now (stored_files held.old) (stored_files held.new)) }
    ensures refused { OnErr result (stored_files held.new ≡ stored_files held.old) }
{
    let key = String::from_str(alloc, name)?;
    let bytes = Vec::from_slice(alloc, bytes)?;
    held.insert(key, bytes)?;
    Ok(())
}

// Adds bytes to a file that is there, unless memory runs out.
fn grow(
    held: &mut BTreeMap<String, Vec<u8>>,
    name: &str,
    bytes: &[u8],
) -> Option<Result<(), AllocError>>
    ensures absent { IsNone result ↔ (stored_files held.old name.now ≡ None) }
    ensures grown { IfSome result
        (λ added. OnOk added (OfFile (stored_files held.old name.now) (λ old.
        Sets name.now (old ++ bytes.now) (stored_files held.old) (stored_files held.new)))) }
    ensures refused { IfSome result
        (λ added. OnErr added (stored_files held.new ≡ stored_files held.old)) }
    ensures same { IfNone result (stored_files held.new ≡ stored_files held.old) }
{
    let Some(file) = held.get_mut(name) else {
        return None;
    };
    Some(file.extend_from_slice(bytes))
}
