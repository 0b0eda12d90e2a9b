//! Seats that are cut in two and joined: notes from one pass to another, seats of clones that are given back, and
//! passes that end.
ghost use Rattle.std.specs.Prelude.{◌≡◌};
ghost use Rattle.snap_model.specs.History.{Begins};
ghost use Rattle.snap_steps.specs.Copies.{TakesBack};
ghost use Rattle.snap_steps.specs.Histories.{Extends};
ghost use Rattle.snap_steps.specs.Roles.{gone};
ghost use Rattle.snap_steps.specs.Seen.{IsOf, Becomes};
ghost use Rattle.snap_steps.specs.Steps.Seats.{note_of, heard, learned, with_admitted, took, made_sure};
ghost use Rattle.snap_steps.specs.declared.view.Stage.TheVariants.{Idle};

use crate::clones::ViewSeat;
use crate::pass::{Note, Pass, Receipt};
use crate::rows::Rows;
use crate::view::View;
use atomic_table::{Join, Play, Split};

struct TakeNote;

impl Split<View> for TakeNote {
    ghost left = { λ v. v };

    ghost right = { note_of };
}

struct JoinNote;

impl Join<View> for JoinNote {
    ghost both = { learned };

    ghost spent = { gone };
}

struct JoinReceipt;

impl Join<View> for JoinReceipt {
    ghost both = { took };

    ghost spent = { gone };
}

// The load after a join, by which the pass is sure that what both had seen is of one history.
struct Sure;

impl Play<(), View> for Sure {
    ghost then = { made_sure };
}

/// A note of what the pass has seen and noted. The pass is unchanged.
pub fn note(rows: &Rows, pass: &mut Pass) -> Note
    requires { IsOf pass.old rows.now }
    ensures note { Becomes pass.old result (note_of pass.old.view) }
    ensures pass { pass.new ≡ pass.old }
{
    Note {
        seat: rows.table.shared.split_seat::<TakeNote>(&mut pass.seat),
    }
}

/// The pass has then seen what it and the note had seen: the longer of two histories, which goes on from both.
pub fn learn(rows: &Rows, pass: &mut Pass, note: Note)
    requires pass { IsOf pass.old rows.now }
    requires note { note.table ≡ pass.old.table }
    ensures { (seen : _) × Extends pass.old.view seen × Begins note.view.seen seen
        × Becomes pass.old pass.new (heard pass.old.view note.view seen) }
{
    let Note { seat } = note;
    rows.table
        .shared
        .join_seat::<JoinNote>(&mut pass.seat, seat);
    rows.table.shared.load::<Sure>(&mut pass.seat, 0);
}

/// Gives the seat of a clone back: the pass then knows of a stamp at its greatest count that the seat noted. It has
/// seen what it and the clone's base had, which is nothing more for the pass that has cut the clone.
pub fn take_back(rows: &Rows, pass: &mut Pass, view: ViewSeat)
    requires pass { IsOf pass.old rows.now }
    requires view { view.table ≡ pass.old.table }
    ensures { TakesBack pass.old pass.new view }
{
    let ViewSeat {
        seat,
        top: _,
        next: _,
    } = view;
    rows.table
        .shared
        .join_seat::<JoinNote>(&mut pass.seat, seat);
    rows.table.shared.load::<Sure>(&mut pass.seat, 0);
}

/// Ends a pass.
pub fn finish(_rows: &Rows, pass: Pass) -> Receipt
    requires table { IsOf pass _rows.now }
    requires idle { pass.view.stage ≡ Idle }
    ensures { result ≡ pass }
{
    let Pass {
        seat,
        who: _,
        uses: _,
        added,
        taken,
        owed: _,
    } = pass;
    Receipt { seat, added, taken }
}

/// The pass learns what the receipt's had seen and noted, and speaks for its number, and for each number that it
/// had admitted, from then on.
pub fn admit(rows: &Rows, pass: &mut Pass, receipt: Receipt)
    requires pass { IsOf pass.old rows.now }
    requires receipt { receipt.table ≡ pass.old.table }
    ensures { (seen : _) × Extends pass.old.view seen × Begins receipt.view.seen seen
        × Becomes pass.old pass.new
        (with_admitted (heard pass.old.view receipt.view seen) receipt.view) }
{
    let Receipt { seat, added, taken } = receipt;
    rows.table
        .shared
        .join_seat::<JoinReceipt>(&mut pass.seat, seat);
    rows.table.shared.load::<Sure>(&mut pass.seat, 0);
    pass.added = pass.added.wrapping_add(added);
    pass.taken = pass.taken.wrapping_add(taken);
}
