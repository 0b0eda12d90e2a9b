//! The ordered answers of clones.

use crate::asserts::is;
use crate::clones::put_three;
use snap_table::{SnapTable, TableView};
use std::test::Fail;

type Pair = (u64, u64);

// The pairs with the least and with the greatest key.
fn ends(view: &mut TableView<'_>) -> (Option<Pair>, Option<Pair>) {
    (view.first(), view.last())
}

// The pairs nearest to a key: below it, up to it, from it on, and above it.
fn neighbours(view: &mut TableView<'_>, key: u64) -> [Option<Pair>; 4] {
    let lower = view.lower(key);
    let floor = view.floor(key);
    let ceiling = view.ceiling(key);
    let higher = view.higher(key);
    [lower, floor, ceiling, higher]
}

#[test]
fn nothing_lies_above_the_greatest_key(rt: HostRuntime) -> Result<(), Fail> {
    let (table, mut passes) = SnapTable::open(rt.alloc(), 1, 1)?;
    let mut p = passes.pop().expect(&rt, "no pass");
    is(&rt, table.put(&rt, &mut p, u64::MAX, 0), Ok(None));
    let mut view = table.clone_view(&rt, &mut p);
    let pair = Some((u64::MAX, 0));
    let found = neighbours(&mut view, u64::MAX);
    is(&rt, found, [None, pair, pair, None]);
    is(&rt, ends(&mut view), (pair, pair));
    Ok(())
}

#[test]
fn a_row_without_a_value_is_no_neighbour(rt: HostRuntime) -> Result<(), Fail> {
    let (table, mut passes) = SnapTable::open(rt.alloc(), 3, 1)?;
    let mut p = passes.pop().expect(&rt, "no pass");
    is(&rt, put_three(&table, &rt, &mut p), Ok(()));
    is(&rt, table.remove(&rt, &mut p, 2), Ok(Some(2)));
    let mut view = table.clone_view(&rt, &mut p);
    let (one, three) = (Some((1, 1)), Some((3, 3)));
    let found = neighbours(&mut view, 2);
    is(&rt, found, [one, one, three, three]);
    is(&rt, view.count(0, 9), 2);
    is(&rt, view.depth(), 2);
    Ok(())
}

#[test]
fn a_range_has_both_its_bounds(rt: HostRuntime) -> Result<(), Fail> {
    let (table, mut passes) = SnapTable::open(rt.alloc(), 3, 1)?;
    let mut p = passes.pop().expect(&rt, "no pass");
    is(&rt, put_three(&table, &rt, &mut p), Ok(()));
    let mut view = table.clone_view(&rt, &mut p);
    let mut falling = view.range_down(1, 2);
    is(&rt, falling.next(), Some((2, 2)));
    is(&rt, falling.next(), Some((1, 1)));
    is(&rt, falling.next(), None);
    is(&rt, view.count(9, 3), 0);
    is(&rt, view.count(2, 2), 1);
    Ok(())
}
