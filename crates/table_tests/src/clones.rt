//! Clones: what they answer once the table has gone on, and while others write.
ghost use Rattle.snap_table.specs.Ready.{IsReadyTo};

use crate::asserts::{holds, is};
use crate::map::put_all;
use snap_table::{Full, Pass, SnapTable, TableView};
use std::sync::Wait;
use std::test::Fail;
use std::thread;

// Puts at the keys 2, 1 and 3, each of its own key.
pub(crate) fn put_three<R: Wait>(table: &SnapTable, rt: &R, pass: &mut Pass) -> Result<(), Full>
    requires { IsReadyTo table.now 0 0 pass.old }
    ensures { IsReadyTo table.now 0 3 pass.new }
{
    table.put(rt, pass, 2, 2)?;
    table.put(rt, pass, 1, 1)?;
    table.put(rt, pass, 3, 3)?;
    Ok(())
}

// Whether the clone's pairs are these.
fn has_pairs(view: &mut TableView<'_>, pairs: &[(u64, u64)]) -> bool {
    let mut found = view.pairs();
    for pair in pairs {
        if found.next() != Some(*pair) {
            return false;
        }
    }
    found.next().is_none()
}

#[test]
fn a_clone_keeps_a_value_that_is_put_again(rt: HostRuntime) -> Result<(), Fail> {
    let (table, mut passes) = SnapTable::open(rt.alloc(), 4, 1)?;
    let mut p = passes.pop().expect(&rt, "no pass");
    is(&rt, put_three(&table, &rt, &mut p), Ok(()));
    let mut view = table.clone_view(&rt, &mut p);
    is(&rt, table.drawn_rows(&mut p), 3);
    is(&rt, table.put(&rt, &mut p, 2, 9), Ok(Some(2)));
    is(&rt, table.drawn_rows(&mut p), 4);
    is(&rt, view.get(2), Some(2));
    is(&rt, table.get(&rt, &mut p, 2), Some(9));
    Ok(())
}

#[test]
fn a_copied_row_is_the_tables_own(rt: HostRuntime) -> Result<(), Fail> {
    let (table, mut passes) = SnapTable::open(rt.alloc(), 4, 1)?;
    let mut p = passes.pop().expect(&rt, "no pass");
    is(&rt, put_three(&table, &rt, &mut p), Ok(()));
    let mut view = table.clone_view(&rt, &mut p);
    is(&rt, table.put(&rt, &mut p, 2, 9), Ok(Some(2)));
    is(&rt, table.put(&rt, &mut p, 2, 10), Ok(Some(9)));
    is(&rt, table.drawn_rows(&mut p), 4);
    let mut twin = view.twin();
    holds(&rt, has_pairs(&mut twin, &[(1, 1), (2, 2), (3, 3)]));
    Ok(())
}

#[test]
fn a_clone_keeps_what_is_taken_out(rt: HostRuntime) -> Result<(), Fail> {
    let (table, mut passes) = SnapTable::open(rt.alloc(), 8, 1)?;
    let mut p = passes.pop().expect(&rt, "no pass");
    is(&rt, put_three(&table, &rt, &mut p), Ok(()));
    is(&rt, table.remove(&rt, &mut p, 2), Ok(Some(2)));
    let mut view = table.clone_view(&rt, &mut p);
    is(&rt, table.remove(&rt, &mut p, 1), Ok(Some(1)));
    holds(&rt, has_pairs(&mut view, &[(1, 1), (3, 3)]));
    is(&rt, view.depth(), 2);
    let mut later = table.clone_view(&rt, &mut p);
    holds(&rt, has_pairs(&mut later, &[(3, 3)]));
    is(&rt, later.depth(), 1);
    Ok(())
}

#[test]
fn a_held_clone_is_released(rt: HostRuntime) -> Result<(), Fail> {
    let (table, mut passes) = SnapTable::open(rt.alloc(), 5, 1)?;
    let mut p = passes.pop().expect(&rt, "no pass");
    is(&rt, put_three(&table, &rt, &mut p), Ok(()));
    let mut held = table.hold(&rt, &mut p);
    let mut view = held.view();
    holds(&rt, has_pairs(&mut view, &[(1, 1), (2, 2), (3, 3)]));
    is(&rt, held.writes(), 3);
    let mut clone = held.release();
    is(&rt, table.put(&rt, &mut p, 3, 30), Ok(Some(3)));
    holds(&rt, has_pairs(&mut clone, &[(1, 1), (2, 2), (3, 3)]));
    Ok(())
}

#[test]
fn a_held_clone_has_what_was_noted(rt: HostRuntime) -> Result<(), Fail> {
    let (table, mut passes) = SnapTable::open(rt.alloc(), 4, 2)?;
    let mut q = passes.pop().expect(&rt, "no second pass");
    let mut p = passes.pop().expect(&rt, "no first pass");
    is(&rt, put_three(&table, &rt, &mut p), Ok(()));
    let note = table.note(&mut p);
    let mut held = table.hold(&rt, &mut q);
    held.learn(note);
    is(&rt, held.writes(), 3);
    let mut clone = held.release();
    holds(&rt, has_pairs(&mut clone, &[(1, 1), (2, 2), (3, 3)]));
    Ok(())
}

// The greatest turn below `puts` at which `put_all` puts at this key.
fn last_turn(key: u64, puts: u64) -> Option<u64> {
    let mut last = None;
    for turn in 0..100u64 {
        if turn < puts && turn * 7 % 20 == key {
            last = Some(turn);
        }
    }
    last
}

// How many puts of `put_all` the clone has seen at least: one more than its greatest value.
fn puts_seen(view: &mut TableView<'_>) -> u64 {
    let mut puts = 0u64;
    for (_, value) in view.pairs() {
        puts = puts.max(value.saturating_add(1));
    }
    puts
}

// Whether the clone is the map after so many puts of `put_all`, of which each of the first twenty is at a new key.
fn is_after(view: &mut TableView<'_>, puts: u64) -> bool {
    let mut least = 0u64;
    let mut keys = 0u64;
    for (key, value) in view.pairs() {
        if key < least || last_turn(key, puts) != Some(value) {
            return false;
        }
        least = key.saturating_add(1);
        keys = keys.saturating_add(1);
    }
    keys == puts.min(20)
}

// Ten clones, and how many of them are the map after some of the puts of `put_all`, no fewer than the clone before saw.
fn clone_often<R: Wait>(table: &SnapTable, rt: &R, mut pass: Pass, who: u32) -> (Pass, u64)
    requires { IsReadyTo table.now who 0 pass }
    ensures { IsReadyTo table.now who 10 result.0 }
{
    let mut right = 0u64;
    let mut before = 0u64;
    for turn in 0..10u64 {
        let _turn = turn;
        let mut view = table.clone_view(rt, &mut pass);
        let puts = puts_seen(&mut view);
        if before <= puts && is_after(&mut view, puts) {
            right = right.saturating_add(1);
        }
        before = puts;
    }
    (pass, right)
}

#[test]
fn clones_are_made_while_another_writes(rt: HostRuntime) -> Result<(), Fail> {
    let (table, mut passes) = SnapTable::open(rt.alloc(), 1_000, 2)?;
    let b = passes.pop().expect(&rt, "no second pass");
    let a = passes.pop().expect(&rt, "no first pass");
    let ((mut a, fresh), (b, right)) = thread::join(
        &rt,
        || put_all(&table, &rt, a, 0),
        || clone_often(&table, &rt, b, 1),
    );
    is(&rt, fresh, 20);
    is(&rt, right, 10);
    let receipt = table.finish(b);
    table.admit(&mut a, receipt);
    let front = table.close(a);
    is(&rt, front.writes, 100);
    is(&rt, front.pairs, 20);
    Ok(())
}
