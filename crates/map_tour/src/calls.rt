//! Calls of the map in small groups, each with the clause that its user wants and that the map's contracts give.
ghost use Rattle.std.specs.Prelude.{◌≡◌, ◌<◌, ◌+◌, ◌^◌, ◌++◌, ◌∷◌, [], IfOk};
ghost use Rattle.snap_prelude.specs.{Begins, Put};
ghost use Rattle.snap_table.specs.Ready.{IsReadyTo};
ghost use Rattle.map_tour.specs.Tour.{AnswersAsItStood, calls_made, even_keys, HasWorked, odd_keys, ReadsBehindPut};
ghost use Rattle.map_tour.specs.Tour.{ReadsOwn, TellsBoth};

use snap_model::{Key, OutOfMemory};
use snap_table::{Front, Full, Pass, SnapTable, TableView};
use std::alloc::Global;
use std::sync::Wait;
use std::thread;
use std::thread::Threads;

/// An empty table of 64 rows, with two passes.
pub fn open_for_two(alloc: Global) -> Result<(SnapTable, Pass, Pass), OutOfMemory>
    ensures table { IfOk result (λ t. (t.0.rows ≡ 64) × (t.0.passes ≡ 2)) }
    ensures empty { IfOk result (λ t. (t.1.view.seen ≡ []) × (t.2.view.seen ≡ [])) }
    ensures ready { IfOk result (λ t. IsReadyTo t.0 0 0 t.1 × IsReadyTo t.0 1 0 t.2) }
{
    let (table, mut passes) = SnapTable::open(alloc, 64, 2)?;
    let second = passes.pop().unwrap();
    let first = passes.pop().unwrap();
    Ok((table, first, second))
}

/// Puts the value, and reads the key. Where no other pass has written at the key since, the answer is the value.
pub fn put_and_get<R: Wait>(
    table: &SnapTable,
    rt: &R,
    pass: &mut Pass,
    key: Key,
    value: u64,
) -> Result<Option<u64>, Full>
    requires ready { IsReadyTo table.now pass.old.view.who 3 pass.old }
    requires value { value + 1 < 2 ^ 64 }
    ensures own { IfOk result (λ answer. ReadsOwn pass.new key value answer) }
    ensures reads { IfOk result (λ answer. ReadsBehindPut pass.old pass.new key value answer) }
    ensures made { IfOk result (λ _. calls_made pass.new
        ≡ calls_made pass.old ++ Put key value ∷ []) }
    ensures ready { IsReadyTo table.now pass.old.view.who 4 pass.new }
{
    table.put(rt, pass, key, value)?;
    Ok(table.get(rt, pass, key))
}

/// The keys of one thread's work.
#[derive(Clone, Copy)]
pub struct Keys {
    pub kept: Key,
    pub gone: Key,
    pub read: Key,
}

/// What one thread's work came to: its pass, and what it read at the end.
#[derive(Drop)]
pub struct Worked {
    pub pass: Pass,
    pub answer: Option<u64>,
}

/// One thread's work: three keys are put, one of them is taken out again, and the last is read.
pub fn work<R: Wait>(table: &SnapTable, rt: &R, mut pass: Pass, keys: Keys) -> Result<Worked, Full>
    requires { IsReadyTo table.now pass.view.who 0 pass }
    ensures { IfOk result (HasWorked table.now pass keys) }
{
    table.put(rt, &mut pass, keys.kept, 10)?;
    table.put(rt, &mut pass, keys.gone, 20)?;
    table.remove(rt, &mut pass, keys.gone)?;
    let answer = put_and_get(table, rt, &mut pass, keys.read, 30)?;
    Ok(Worked { pass, answer })
}

/// Two threads' work, each at keys of its own.
pub fn work_by_two<R: Threads + Wait + Sync>(
    table: &SnapTable,
    rt: &R,
    first: Pass,
    second: Pass,
) -> (Result<Worked, Full>, Result<Worked, Full>)
    requires first { IsReadyTo table.now first.view.who 0 first }
    requires second { IsReadyTo table.now second.view.who 0 second }
    ensures first { IfOk result.0 (HasWorked table.now first odd_keys) }
    ensures second { IfOk result.1 (HasWorked table.now second even_keys) }
{
    let odd = Keys {
        kept: 1,
        gone: 3,
        read: 5,
    };
    let even = Keys {
        kept: 2,
        gone: 4,
        read: 6,
    };
    thread::join(
        rt,
        || work(table, rt, first, odd),
        || work(table, rt, second, even),
    )
}

/// Hands what one pass has seen to another: whatever that answers from then on, it answers behind it.
pub fn hand_on(table: &SnapTable, from: &mut Pass, to: &mut Pass)
    requires from { IsReadyTo table.now from.old.view.who 4 from.old }
    requires to { IsReadyTo table.now to.old.view.who 4 to.old }
    ensures from { from.new ≡ from.old }
    ensures to { IsReadyTo table.now to.old.view.who 4 to.new }
    ensures made { calls_made to.new ≡ calls_made to.old }
    ensures knows { Begins from.old.view.seen to.new.view.seen }
{
    let note = table.note(from);
    table.learn(to, note);
}

/// Makes a clone, puts at the key, and asks the clone for it.
pub fn clone_and_put<'t, R: Wait>(
    table: &'t SnapTable,
    rt: &R,
    pass: &mut Pass,
    key: Key,
    value: u64,
) -> Result<(TableView<'t>, Option<u64>), Full>
    requires ready { IsReadyTo table.now pass.old.view.who 4 pass.old }
    requires value { value + 1 < 2 ^ 64 }
    ensures stood { IfOk result (λ r. AnswersAsItStood pass.old pass.new r.0 key r.1) }
    ensures made { IfOk result (λ _. calls_made pass.new
        ≡ calls_made pass.old ++ Put key value ∷ []) }
    ensures ready { IsReadyTo table.now pass.old.view.who 6 pass.new }
{
    let mut clone = table.clone_view(rt, pass);
    table.put(rt, pass, key, value)?;
    let answer = clone.get(key);
    Ok((clone, answer))
}

/// Ends the second pass and closes the table by the first.
pub fn close(table: SnapTable, mut first: Pass, second: Pass) -> Front
    requires two { table.passes ≡ 2 }
    requires first { IsReadyTo table 0 6 first }
    requires second { IsReadyTo table 1 6 second }
    ensures { TellsBoth first second result }
{
    let receipt = table.finish(second);
    table.admit(&mut first, receipt);
    table.close(first)
}
