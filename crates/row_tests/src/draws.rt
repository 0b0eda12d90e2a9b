//! Rows that run out, and a table that is closed.
ghost use Rattle.std.specs.Prelude.{◌≡◌};
ghost use Rattle.snap_table.specs.Ready.{IsReadyTo};

use crate::asserts::is;
use crate::tables::open_for_two;
use snap_stamp::RowNo;
use snap_steps::{Front, Full, Pass, Rows, admit, close_rows, draw, finish, try_draw};
use std::process::Abort;
use std::sync::Wait;

fn draw_all<R: Abort + Wait>(rows: &Rows, rt: &R, p: &mut Pass, q: &mut Pass)
    requires rows { rows.now.rows ≡ 2 }
    requires p { IsReadyTo rows.now 0 0 p.old }
    requires q { IsReadyTo rows.now 1 0 q.old }
    ensures p { IsReadyTo rows.now 0 0 p.new }
    ensures q { IsReadyTo rows.now 1 0 q.new }
{
    is(rt, draw(rows, rt, p), Ok(RowNo::of(1)));
    is(rt, draw(rows, rt, p), Ok(RowNo::of(2)));
    is(rt, draw(rows, rt, p), Err(Full { rows: 2 }));
    is(rt, try_draw(rows, q, 0), Err(2));
}

fn close_by_first(rows: Rows, mut first: Pass, second: Pass) -> Front
    requires rows { rows.passes ≡ 2 }
    requires first { IsReadyTo rows 0 0 first }
    requires second { IsReadyTo rows 1 0 second }
{
    let receipt = finish(&rows, second);
    admit(&rows, &mut first, receipt);
    close_rows(rows, first)
}

#[test]
fn rows_run_out(rt: HostRuntime) {
    let (rows, mut p, mut q) = open_for_two(&rt, rt.alloc(), 2);
    draw_all(&rows, &rt, &mut p, &mut q);
    let front = close_by_first(rows, p, q);
    is(&rt, front.writes, 0);
    is(&rt, front.pairs, 0);
    is(&rt, front.drawn, 2);
}
