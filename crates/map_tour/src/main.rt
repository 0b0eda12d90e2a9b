//! A tour of the map by a program that uses it: a pass for each of two threads, a note from one to the other, a clone
//! with its ordered answers, and the end of the table. It prints the same whatever the threads do.
#![tactic(auto)]

ghost use Rattle.std.specs.Prelude.{IfOk, OnOk};
ghost use Rattle.snap_table.specs.Ready.{IsReadyTo};

mod calls;
mod fault;
mod short;

use calls::{clone_and_put, close, hand_on, open_for_two, work_by_two};
use fault::Fault;
use short::in_short;
use snap_table::{Front, Pass, SnapTable, TableView};
use std::alloc::Global;
use std::io::Print;
use std::sync::Wait;
use std::thread::Threads;

fn main(rt: HostRuntime) -> Result<(), Fault> {
    let writes = in_short(&rt, rt.alloc())?;
    println!(rt; "writes {writes}")?;
    in_full(&rt, rt.alloc())
}

// By two threads, from the table's opening to its end.
fn in_full<R: Threads + Wait + Print + Sync>(rt: &R, alloc: Global) -> Result<(), Fault> {
    let (table, first, second) = open_for_two(alloc)?;
    let (first, second) = tour(rt, &table, first, second)?;
    tell_front(rt, close(table, first, second))
}

fn tell_front<R: Print>(rt: &R, front: Front) -> Result<(), Fault> {
    println!(rt; "writes {}, pairs {}", front.writes, front.pairs)?;
    Ok(())
}

// All but the end: threads, a note, a clone. The passes are handed back for it.
fn tour<R: Threads + Wait + Print + Sync>(
    rt: &R,
    table: &SnapTable,
    first: Pass,
    second: Pass,
) -> Result<(Pass, Pass), Fault>
    requires first { IsReadyTo table.now 0 0 first }
    requires second { IsReadyTo table.now 1 0 second }
    ensures first { IfOk result (λ ended. IsReadyTo table.now 0 6 ended.0) }
    ensures second { IfOk result (λ ended. IsReadyTo table.now 1 6 ended.1) }
{
    let (mut first, mut second) = read_by_two(rt, table, first, second)?;
    ask_behind_note(rt, table, &mut first, &mut second)?;
    ask_beside_clone(rt, table, &mut second)?;
    Ok((first, second))
}

// The work of both threads, and what each of them read.
fn read_by_two<R: Threads + Wait + Print + Sync>(
    rt: &R,
    table: &SnapTable,
    first: Pass,
    second: Pass,
) -> Result<(Pass, Pass), Fault>
    requires first { IsReadyTo table.now 0 0 first }
    requires second { IsReadyTo table.now 1 0 second }
    ensures first { IfOk result (λ worked. IsReadyTo table.now 0 4 worked.0) }
    ensures second { IfOk result (λ worked. IsReadyTo table.now 1 4 worked.1) }
{
    let (one, two) = work_by_two(table, rt, first, second);
    let (one, two) = (one?, two?);
    println!(rt; "the threads read {:?} and {:?}", one.answer, two.answer)?;
    Ok((one.pass, two.pass))
}

// What the second pass reads once it has a note of the first one.
fn ask_behind_note<R: Wait + Print>(
    rt: &R,
    table: &SnapTable,
    first: &mut Pass,
    second: &mut Pass,
) -> Result<(), Fault>
    requires first { IsReadyTo table.now 0 4 first.old }
    requires second { IsReadyTo table.now 1 4 second.old }
    ensures first { IsReadyTo table.now 0 4 first.new }
    ensures second { IsReadyTo table.now 1 4 second.new }
{
    hand_on(table, first, second);
    let (one, three) = (table.get(rt, second, 1), table.get(rt, second, 3));
    println!(rt; "behind the note: 1 has {one:?}, 3 has {three:?}")?;
    Ok(())
}

// A clone beside a put behind it.
fn ask_beside_clone<R: Wait + Print>(
    rt: &R,
    table: &SnapTable,
    pass: &mut Pass,
) -> Result<(), Fault>
    requires { IsReadyTo table.now 1 4 pass.old }
    ensures { OnOk result (IsReadyTo table.now 1 6 pass.new) }
{
    let (mut clone, stood) = clone_and_put(table, rt, pass, 6, 60)?;
    let now = table.get(rt, pass, 6);
    println!(rt; "6 has {now:?}, and in the clone {stood:?}")?;
    show(rt, &mut clone)
}

// Some answers of the clone, in order.
fn show<R: Print>(rt: &R, clone: &mut TableView<'_>) -> Result<(), Fault> {
    for (key, value) in clone.range(2, 5) {
        println!(rt; "pair {key} {value}")?;
    }
    let (floor, higher) = (clone.floor(4), clone.higher(6));
    println!(rt;
        "floor of 4 {floor:?}, higher than 6 {higher:?}, count {}",
        clone.count(0, u64::MAX)
    )?;
    Ok(())
}
