//! Drawing rows: each is handed out once.
ghost use Rattle.std.specs.Prelude.{◌≡◌, ◌≢◌, ◌+◌, ◌<◌, ◌≤◌, IfOk, IfErr, MatchResult};
ghost use Rattle.snap_rule.specs.declared.change.Doing.TheVariants.{Nothing};
ghost use Rattle.snap_steps.specs.Drawing.{HasDrawn, FoundFull};
ghost use Rattle.snap_steps.specs.Seen.{IsOf, Becomes};
ghost use Rattle.snap_steps.specs.Steps.Draws.{drew, drawing_tried};
ghost use Rattle.snap_steps.specs.Steps.Header.{word_noted};
ghost use Rattle.snap_steps.specs.declared.view.WordNote.TheVariants.{Next};

use crate::header::load_next;
use crate::pass::Pass;
use crate::rows::Rows;
use crate::view::View;
use atomic_table::Play;
use snap_stamp::RowNo;
use std::sync::Wait;

/// Every row was handed out; there are so many.
#[derive(Clone, Copy, Debug, PartialEq, Eq)]
pub struct Full {
    pub rows: u32,
}

struct TryDraw;

impl Play<(), View> for TryDraw {
    ghost then = { drawing_tried };
}

/// Draws the next row where `found` rows were handed out so far, and else answers how many were.
pub fn try_draw(rows: &Rows, pass: &mut Pass, found: u32) -> Result<RowNo, u32>
    requires table { IsOf pass.old rows.now }
    requires found { found < rows.now.rows }
    requires whole { pass.old.view.doing ≡ Nothing }
    ensures ok { IfOk result
        (λ r. (r ≡ found + 1) × Becomes pass.old pass.new (drew pass.old.view r)) }
    ensures err { IfErr result
        (λ n. (n ≢ found) × (n ≤ rows.now.rows)
        × Becomes pass.old pass.new (word_noted pass.old.view (Next n))) }
{
    let expected = found as u64;
    let was = rows
        .table
        .shared
        .compare_exchange::<TryDraw>(&mut pass.seat, 0, expected, expected + 1);
    if was == expected {
        Ok(RowNo::of(found + 1))
    } else {
        Err(was as u32)
    }
}

/// Draws a row. `Full` comes exactly where a load or failed exchange of this call found that every row was
/// handed out. It waits for nothing but its own tries.
pub fn draw<R: Wait>(rows: &Rows, rt: &R, pass: &mut Pass) -> Result<RowNo, Full>
    requires table { IsOf pass.old rows.now }
    requires whole { pass.old.view.doing ≡ Nothing }
    ensures { MatchResult result (λ r. HasDrawn rows.now.rows pass.old pass.new r)
        (λ f. (f.rows ≡ rows.now.rows) × FoundFull rows.now.rows pass.old pass.new) }
{
    let mut found = load_next(rows, pass);
    for _ in rt.forever() {
        if found == rows.count() {
            return Err(Full { rows: found });
        }
        match try_draw(rows, pass, found) {
            Ok(row) => return Ok(row),
            Err(other) => found = other,
        }
    }
    unreachable!()
}
