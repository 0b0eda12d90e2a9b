//! Scripts on tables of their own, from opening to closing.
ghost use Rattle.std.specs.Prelude.{◌≡◌, ◌≤◌, ◌+◌, ◌++◌, ◌∷◌, [], All, IfOk, IfSome, IsOk, None, OnOk, length, map};
ghost use Rattle.snap_crew.specs.{Endings.Finishes, Jobs.AreJobs, Jobs.AreKits, Jobs.IsCrew, Jobs.IsTask};
ghost use Rattle.snap_crew.specs.{Leaving.IsUnusedRoom, Ran.HasRunJobs, Ran.RunsCrew, Tasks.AreReady, Tasks.task_files};
ghost use Rattle.snap_desk.specs.Files.{KeepsOthers};
ghost use Rattle.snap_io.specs.Prelude.{Changes};
ghost use Rattle.snap_service.specs.States.{AreTablesOf, Tables, new_kit};

use crate::crew::Job;
use crate::ending::{Ending, end_run};
use crate::jobs::open_jobs;
use crate::leaving::{Done, Room, run_all};
use crate::seats::{Seat, open_seats};
use snap_desk::Collector;
use snap_io::{Shelf, Turn};
use snap_model::{Name, OutOfMemory};
use snap_outlet::{Outlet, Taker};
use snap_service::{Fronts, Kit, KitReceipt, Service};
use snap_text::{Loads, Script};
use snap_write::Unwritten;
use std::alloc::Global;
use std::sync::Wait;
use std::thread::Threads;

/// Scripts, and what they run on.
#[derive(Drop)]
pub struct Task<'a> {
    /// A script for each worker.
    pub scripts: &'a [Script],
    /// The names of the tables, the one on which each script begins first.
    pub tables: &'a [Name],
    /// The load files that the scripts name.
    pub loads: &'a Loads,
    /// The reply files, one for each script, where replies and exports are written.
    pub replies: Option<&'a [Name]>,
    /// The rows of each table.
    pub rows: u32,
    /// Whether the text of the first table is wanted at the end.
    pub last: bool,
}

/// What the scripts came to: of each worker how many replies were full; why not all files were written, if so; the closed
/// tables, and the text of the first of them where it was wanted.
#[derive(Drop)]
pub struct Finished {
    pub fulls: Vec<u64>,
    pub written: Result<(), Unwritten>,
    pub fronts: Fronts,
    pub last: Option<Vec<u8>>,
}

/// What the workers left: place i is worker i's.
#[derive(Drop)]
pub struct Ran {
    pub receipts: Vec<KitReceipt>,
    pub fulls: Vec<u64>,
    pub written: Result<(), Unwritten>,
}

/// The workers at their seats, and the outlet by which their pieces come.
#[derive(Drop)]
pub struct Crew<'t> {
    pub outlet: Outlet,
    pub taker: Taker,
    pub seats: Vec<Seat<'t>>,
    pub room: Room,
}

/// Runs each script by a worker of its own on new tables, and closes the tables. What the commands come to is written while
/// they run, up to the first piece that can't be. The reply files were made before; where that failed, nothing is written.
/// Where memory ran out at any worker, it is the caller's want of memory.
pub fn run_scripts<R: Threads + Wait + Sync, S: Shelf, T: Turn + Sync>(
    rt: &R,
    alloc: Global,
    task: &Task<'_>,
    turn: &T,
    shelf: &mut S,
    made: Result<(), Unwritten>,
) -> Result<Finished, OutOfMemory>
    requires task { IsTask task.now.tables.now task.now.rows task.now.loads.now
        task.now.scripts.now }
    requires some_scripts { 1 ≤ length task.now.scripts.now }
    requires files { AreReady task.now made (S.files shelf.old) }
    ensures finished { IfOk result
        (Finishes task.now made (S.files shelf.old) (S.files shelf.new)
        (S.write_faults shelf.old) (S.write_faults shelf.new)) }
    ensures kept { Changes (S.files shelf.old) (S.files shelf.new)
        (KeepsOthers (task_files task.now)) }
    ensures later { S.write_faults shelf.old ≤ S.write_faults shelf.new }
    ensures reads { S.read_faults shelf.new ≡ S.read_faults shelf.old }
    ensures none { task.now.replies ≡ None → shelf.new ≡ shelf.old }
{
    let kits = task.scripts.len() as u32 + 1;
    let (service, mut opened) = Service::open(alloc, task.tables, task.rows, kits)?;
    let Some(own) = opened.pop() else {
        unreachable!()
    };
    run_on(rt, alloc, service, opened, own, task, turn, shelf, made)
}

// Runs each script on new tables by the kit of its number, and closes them by the last kit.
fn run_on<R: Threads + Wait + Sync, S: Shelf, T: Turn + Sync>(
    rt: &R,
    alloc: Global,
    service: Service,
    kits: Vec<Kit>,
    own: Kit,
    task: &Task<'_>,
    turn: &T,
    shelf: &mut S,
    made: Result<(), Unwritten>,
) -> Result<Finished, OutOfMemory>
    requires tables { AreTablesOf service task.now.tables.now task.now.rows
        (length task.now.scripts.now + 1) }
    requires kits { AreKits service task.now.loads.now task.now.scripts.now kits.items }
    requires own { own ≡ new_kit service.laid (length task.now.scripts.now) }
    requires some_scripts { 1 ≤ length task.now.scripts.now }
    requires files { AreReady task.now made (S.files shelf.old) }
    ensures finished { IfOk result
        (Finishes task.now made (S.files shelf.old) (S.files shelf.new)
        (S.write_faults shelf.old) (S.write_faults shelf.new)) }
    ensures kept { Changes (S.files shelf.old) (S.files shelf.new)
        (KeepsOthers (task_files task.now)) }
    ensures later { S.write_faults shelf.old ≤ S.write_faults shelf.new }
    ensures reads { S.read_faults shelf.new ≡ S.read_faults shelf.old }
    ensures none { task.now.replies ≡ None → shelf.new ≡ shelf.old }
{
    let ran = run_jobs(rt, alloc, &service, kits, task, turn, shelf, made)?;
    let Ran {
        receipts,
        fulls,
        written,
    } = ran;
    let Ending { fronts, last } = end_run(rt, alloc, service, own, receipts, task.last)?;
    Ok(Finished {
        fulls,
        written,
        fronts,
        last,
    })
}

// Runs each script by the kit of its number, and hands over what the workers left.
fn run_jobs<R: Threads + Wait + Sync, S: Shelf, T: Turn + Sync>(
    rt: &R,
    alloc: Global,
    service: &Service,
    kits: Vec<Kit>,
    task: &Task<'_>,
    turn: &T,
    shelf: &mut S,
    made: Result<(), Unwritten>,
) -> Result<Ran, OutOfMemory>
    requires kits { AreKits service.now task.now.loads.now task.now.scripts.now kits.items }
    requires some { 1 ≤ length task.now.scripts.now }
    requires files { AreReady task.now made (S.files shelf.old) }
    ensures ran { IfOk result
        (λ ran. HasRunJobs task.now.loads.now service.now task.now.scripts.now task.now.replies made
        ran (S.files shelf.old) (S.files shelf.new)
        (S.write_faults shelf.old) (S.write_faults shelf.new)) }
    ensures kept { Changes (S.files shelf.old) (S.files shelf.new)
        (KeepsOthers (task_files task.now)) }
    ensures later { S.write_faults shelf.old ≤ S.write_faults shelf.new }
    ensures reads { S.read_faults shelf.new ≡ S.read_faults shelf.old }
    ensures none { task.now.replies ≡ None → shelf.new ≡ shelf.old }
{
    let crew = open_crew(alloc, service, kits, task)?;
    let (done, written) = run_crew(rt, alloc, task, turn, shelf, made, crew);
    parted(alloc, done, written)
}

// The workers at their seats. All lists that they or the caller need until the files are written get their memory here.
fn open_crew<'t>(
    alloc: Global,
    service: &'t Service,
    kits: Vec<Kit>,
    task: &Task<'t>,
) -> Result<Crew<'t>, OutOfMemory>
    requires kits { AreKits service.now task.now.loads.now task.now.scripts.now kits.items }
    requires some { 1 ≤ length task.now.scripts.now }
    requires names { IfSome task.now.replies
        (λ names. length names.now ≡ length task.now.scripts.now) }
    ensures { IfOk result
        (IsCrew task.now.loads.now service.now task.now.scripts.now task.now.replies) }
{
    let jobs = open_jobs(alloc, service, kits, task.scripts, task.loads)?;
    let room = Room::new(alloc, task.scripts.len())?;
    seated(alloc, task, jobs, room)
}

// Workers at their seats, by their jobs.
fn seated<'t>(
    alloc: Global,
    task: &Task<'t>,
    jobs: Vec<Job<'t>>,
    room: Room,
) -> Result<Crew<'t>, OutOfMemory>
    requires some { 1 ≤ length task.now.scripts.now }
    requires few { length task.now.scripts.now ≤ 32 }
    requires a_job_each { length jobs.items ≡ length task.now.scripts.now }
    requires names { IfSome task.now.replies
        (λ names. length names.now ≡ length task.now.scripts.now) }
    requires room { IsUnusedRoom (length task.now.scripts.now) room }
    ensures { IfOk result
        (λ crew. (tables : Tables)
        → AreJobs task.now.loads.now tables task.now.scripts.now jobs.entry.items
        → IsCrew task.now.loads.now tables task.now.scripts.now task.now.replies crew) }
{
    let (outlet, senders, taker) = Outlet::open(alloc, task.scripts.len() as u32)?;
    let seats = open_seats(alloc, &outlet, jobs, senders, task.replies)?;
    Ok(Crew {
        outlet,
        taker,
        seats,
        room,
    })
}

// Runs all workers of a crew, and writes all that they put out.
fn run_crew<R: Threads + Wait + Sync, S: Shelf, T: Turn + Sync>(
    rt: &R,
    alloc: Global,
    task: &Task<'_>,
    turn: &T,
    shelf: &mut S,
    made: Result<(), Unwritten>,
    crew: Crew<'_>,
) -> (Vec<Done>, Result<(), Unwritten>)
    requires crew { (tables : _)
        × IsCrew task.now.loads.now tables task.now.scripts.now task.now.replies crew }
    requires files { AreReady task.now made (S.files shelf.old) }
    ensures ran { RunsCrew task.now.loads.now task.now.replies made crew.entry
        result.0.items result.1 (S.files shelf.old) (S.files shelf.new)
        (S.write_faults shelf.old) (S.write_faults shelf.new) }
    ensures reads { S.read_faults shelf.new ≡ S.read_faults shelf.old }
    ensures none { task.now.replies ≡ None → (shelf.new ≡ shelf.old) × (result.1 ≡ made) }
{
    let Crew {
        outlet,
        taker,
        seats,
        room,
    } = crew;
    let mut collector = Collector {
        taker,
        names: task.replies,
        written: made,
    };
    let done = run_all(
        rt,
        alloc,
        task.loads,
        turn,
        &outlet,
        &mut collector,
        shelf,
        seats,
        room,
    );
    let Collector { written, .. } = collector;
    (done, written)
}

// Receipts and counts apart, in their order, unless memory ran out at some worker.
fn parted(alloc: Global, all: Vec<Done>, written: Result<(), Unwritten>) -> Result<Ran, OutOfMemory>
    ensures receipts { IfOk result (λ ran. ran.receipts.items ≡ map (λ d. d.receipt) all.items) }
    ensures fulls { IfOk result (λ ran. ran.fulls.items ≡ map (λ d. d.full) all.items) }
    ensures written { IfOk result (λ ran. ran.written ≡ written) }
    ensures came { OnOk result (All (λ d. IsOk d.came) all.items) }
{
    let mut ran = Ran {
        receipts: Vec::new(alloc),
        fulls: Vec::new(alloc),
        written,
    };
    for done in all {
        ran.add(done)?;
    }
    Ok(ran)
}

impl Ran {
    // Adds what one worker left, unless memory ran out at it.
    fn add(&mut self, done: Done) -> Result<(), OutOfMemory>
        ensures receipts { OnOk result
            (self.new.receipts.items ≡ self.old.receipts.items ++ done.receipt ∷ []) }
        ensures fulls { OnOk result
            (self.new.fulls.items ≡ self.old.fulls.items ++ done.full ∷ []) }
        ensures written { self.new.written ≡ self.old.written }
        ensures came { OnOk result (IsOk done.came) }
    {
        let Done {
            receipt,
            full,
            came,
        } = done;
        came?;
        self.receipts.push(receipt)?;
        self.fulls.push(full)?;
        Ok(())
    }
}
