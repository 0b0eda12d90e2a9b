//! The rows that a search for a repair keeps, in a table of seven keys: 40 above 20 and 60, and these above 10, 30, 50
//! and 70. The row of a key is a tenth of it.
ghost use Rattle.std.specs.Prelude.{◌≡◌, Bool};
ghost use Rattle.snap_prelude.specs.{IsOf, Writing};

use crate::asserts::is;
use crate::tables::{SEVEN, open_for_one, put_all};
use snap_epoch::enter;
use snap_search::{Ending, Way, find_to_repair};
use snap_stamp::Key;
use snap_steps::{Pass, Rows};
use std::alloc::Global;
use std::process::Abort;
use std::sync::Wait;

// The numbers of a row and of the one above it.
type Pair = (u32, u32);

fn pair_of(end: &Ending) -> Pair {
    (end.row.number(), end.above.number())
}

fn next_pair(way: &mut Way) -> Option<Pair> {
    let end = way.go_up()?;
    Some(pair_of(&end))
}

// Where the way of the key ends, and the rows from there up.
fn pairs_of<R: Wait>(rows: &Rows, rt: &R, pass: &mut Pass, key: Key) -> [Option<Pair>; 5]
    requires table { IsOf pass.old rows.now }
    requires writing { (made : Bool) × (counted : Bool)
        × (pass.old.view.stage ≡ Writing made counted) }
{
    let mut way = Way::none();
    let end = find_to_repair(rows, rt, pass, key, &mut way);
    [
        Some(pair_of(&end)),
        next_pair(&mut way),
        next_pair(&mut way),
        next_pair(&mut way),
        next_pair(&mut way),
    ]
}

// In a new table of the seven keys.
fn pairs_in_seven<R: Abort + Wait>(rt: &R, alloc: Global, key: Key) -> [Option<Pair>; 5] {
    let (rows, mut pass) = open_for_one(rt, alloc, 7);
    put_all(&rows, rt, &mut pass, SEVEN);
    enter(&rows, rt, &mut pass);
    pairs_of(&rows, rt, &mut pass, key)
}

#[test]
fn a_search_keeps_the_rows_above_the_key(rt: HostRuntime) {
    let want = [Some((5, 6)), Some((6, 4)), Some((4, 0)), None, None];
    is(&rt, pairs_in_seven(&rt, rt.alloc(), 50), want);
}

#[test]
fn a_search_keeps_the_rows_above_a_gap(rt: HostRuntime) {
    let want = [Some((3, 2)), Some((2, 4)), Some((4, 0)), None, None];
    is(&rt, pairs_in_seven(&rt, rt.alloc(), 25), want);
}
