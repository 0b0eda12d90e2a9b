//! Clones: the seat of a clone, and what it reads.
ghost use Rattle.std.specs.Prelude.{◌≡◌, ◌≤◌, ◌+◌, length};
ghost use Rattle.snap_model.specs.History.{Begins};
ghost use Rattle.snap_rule.specs.Tree.{Stands, root};
ghost use Rattle.snap_stamp.specs.declared.layout.Field.{Field};
ghost use Rattle.snap_steps.specs.Clones.{image, image_of, IsNotedSince, TellsWord, IsLink};
ghost use Rattle.snap_steps.specs.Copies.{IsCloneAt, clone_of, with_stamp, CopiesRow};
ghost use Rattle.snap_steps.specs.Seen.{IsOf, Becomes};
ghost use Rattle.snap_steps.specs.Stages.{has_cut};
ghost use Rattle.snap_steps.specs.Steps.Clones.{seat_of, root_loaded, writes_counted, CopiesCloneWord, stamp_loaded, TellsCause};
ghost use Rattle.snap_steps.specs.Steps.Header.{word_noted};
ghost use Rattle.snap_steps.specs.declared.view.WordNote.TheVariants.{Done};

use crate::counter::Steps;
use crate::fields::value_of;
use crate::pass::Pass;
use crate::rows::Rows;
use crate::view::View;
use atomic_table::{Play, Seat, Split};
use snap_stamp::{Field, Key, RowNo, Stamp};
use std::marker::Model;
use std::sync::ledger::Ledger;

/// A seat from which a clone is read. Contracts see the clone's history and its tree.
#[derive(Drop)]
pub struct ViewSeat {
    pub(crate) seat: Seat<(), View>,
    pub(crate) top: RowNo,
    pub(crate) next: u32,
}

impl Model for ViewSeat {
    ghost use Rattle.snap_steps.specs.Clones.{Cloned};
    ghost use Rattle.snap_steps.specs.Steps.Clones.{IsSeatOfClone};

    ghost Value = { Cloned };

    ghost view = { λ v.
        record {
          table = v.seat.table_id;
          rows = v.seat.me.0.rows;
          base = v.seat.me.0.base.history;
          parts = v.seat.me.0.base.parts;
          drawn = v.seat.me.0.base.drawn;
          balance = v.seat.me.0.base.balance;
          next = v.next;
          handed = v.seat.me.0.noted.handed;
          epochs = v.seat.me.0.noted.epochs;
          worn = v.seat.me.0.noted.worn;
          outworn = v.seat.me.0.outworn;
        } };

    ghost invariant = { λ v. IsSeatOfClone v.seat.me v.top };
}

/// A row of a clone, as it was at the cut.
#[derive(Clone, Copy)]
pub struct RowCopy {
    pub key: Key,
    pub value: Option<u64>,
    pub height: u64,
    pub left: RowNo,
    pub right: RowNo,
}

struct TakeSeat;

impl Split<View> for TakeSeat {
    ghost left = { λ v. v };

    ghost right = { seat_of };
}

struct LoadRoot;

impl Play<(), View> for LoadRoot {
    ghost then = { root_loaded };
}

struct CountWrites;

impl Play<(), View> for CountWrites {
    ghost then = { writes_counted };
}

struct CopyWord;

impl Play<(), View> for CopyWord {
    ghost then = { CopiesCloneWord };
}

struct LoadStamp;

impl Play<(), View> for LoadStamp {
    ghost then = { stamp_loaded };
}

/// The root of the clone that the pass has cut, as the right link of row 0 still names it. 0 for an empty clone.
pub fn load_root(rows: &Rows, pass: &mut Pass) -> RowNo
    requires table { IsOf pass.old rows.now }
    requires cut { has_cut pass.old.view.stage ≡ 1 }
    ensures root { result ≡ root (image_of pass.old.view) }
    ensures low { result ≤ rows.now.rows }
    ensures pass { pass.new ≡ pass.old }
{
    let found = rows.load::<LoadRoot>(&mut pass.seat, RowNo::HOLDER, Field::Right);
    rows.row_of(found)
}

/// How many writes the table has had, as long as the pass that has cut keeps the gate closed. All of them stand in the
/// clone's history, and so does all that the pass has seen. It leaves a note of what it found.
pub fn count_writes(rows: &Rows, pass: &mut Pass) -> u64
    requires table { IsOf pass.old rows.now }
    requires cut { has_cut pass.old.view.stage ≡ 1 }
    ensures writes { result ≡ length pass.old.view.base.history }
    ensures seen { Begins pass.old.view.seen pass.old.view.base.history }
    ensures pass { Becomes pass.old pass.new (word_noted pass.old.view (Done result)) }
{
    rows.table.shared.load::<CountWrites>(&mut pass.seat, 3)
}

/// A seat of the clone that the pass has cut. Both words were loaded since the cut.
pub fn split_view(rows: &Rows, pass: &mut Pass, top: RowNo, next: u32) -> ViewSeat
    requires table { IsOf pass.old rows.now }
    requires cut { has_cut pass.old.view.stage ≡ 1 }
    requires top { (top ≡ root (image_of pass.old.view)) × (top ≤ rows.now.rows) }
    requires next { IsNotedSince pass.old.view next }
    ensures seat { result ≡ clone_of pass.old next }
    ensures pass { pass.new ≡ pass.old }
{
    ViewSeat {
        seat: rows.table.shared.split_seat::<TakeSeat>(&mut pass.seat),
        top,
        next,
    }
}

/// One seat more of the same clone.
pub fn twin(rows: &Rows, seat: &mut ViewSeat) -> ViewSeat
    requires { IsCloneAt seat.old rows.now }
    ensures twin { result ≡ seat.old }
    ensures seat { seat.new ≡ seat.old }
{
    ViewSeat {
        seat: rows.table.shared.split_seat::<TakeSeat>(&mut seat.seat),
        top: seat.top,
        next: seat.next,
    }
}

impl ViewSeat {
    /// The root of the clone, 0 for none.
    pub fn root(&self) -> RowNo
        ensures root { result ≡ root (image self.now) }
        ensures low { result ≤ self.now.rows }
    {
        self.top
    }

    /// How many rows were handed out, as it was loaded at the cut.
    pub fn next(&self) -> u32
        ensures { result ≡ self.now.next }
    {
        self.next
    }
}

// One word of a row of the clone, which is what the clone's tree has there.
fn copy_word(rows: &Rows, seat: &mut ViewSeat, row: RowNo, field: Field) -> u64
    requires table { IsCloneAt seat.old rows.now }
    requires row { row ≤ rows.now.rows }
    ensures word { TellsWord rows.now.rows (image seat.old) row field result }
    ensures seat { seat.new ≡ seat.old }
{
    rows.load::<CopyWord>(&mut seat.seat, row, field)
}

// The row to which a link of a row of the clone leads.
fn copy_link(rows: &Rows, seat: &mut ViewSeat, row: RowNo, field: Field) -> RowNo
    requires table { IsCloneAt seat.old rows.now }
    requires row { row ≤ rows.now.rows }
    requires clone { Stands row (image seat.old) }
    requires link { IsLink field }
    ensures word { TellsWord rows.now.rows (image seat.old) row field result }
    ensures low { result ≤ rows.now.rows }
    ensures seat { seat.new ≡ seat.old }
{
    let word = copy_word(rows, seat, row, field);
    rows.row_of(word)
}

/// The row as it was when the clone was cut: its key, value, height and links. It counts one step.
pub fn load_row<L: Ledger>(
    rows: &Rows,
    seat: &mut ViewSeat,
    row: RowNo,
    steps: &mut Steps<L>,
) -> RowCopy
    requires table { IsCloneAt seat.old rows.now }
    requires row { row ≤ rows.now.rows }
    requires clone { Stands row (image seat.old) }
    ensures copy { CopiesRow (image seat.old) row result }
    ensures low { (result.left ≤ rows.now.rows) × (result.right ≤ rows.now.rows) }
    ensures seat { seat.new ≡ seat.old }
    ensures steps { steps.new ≡ steps.old + 1 }
{
    steps.tick();
    let key = copy_word(rows, seat, row, Field::Key);
    let word = copy_word(rows, seat, row, Field::Value);
    let height = copy_word(rows, seat, row, Field::Height);
    let left = copy_link(rows, seat, row, Field::Left);
    let right = copy_link(rows, seat, row, Field::Right);
    RowCopy {
        key,
        value: value_of(word),
        height,
        left,
        right,
    }
}

/// Loads the first word of a row and its last, and drops what it finds: so the processor has the row
/// at hand when it is read later. It counts no step, and row 0 will do.
pub fn fetch_row(rows: &Rows, seat: &mut ViewSeat, row: RowNo)
    requires table { IsCloneAt seat.old rows.now }
    requires row { row ≤ rows.now.rows }
    ensures seat { seat.new ≡ seat.old }
{
    let _first = copy_word(rows, seat, row, Field::Key);
    let _last = copy_word(rows, seat, row, Field::Value);
}

/// The stamp of any row, as it is now. The seat notes one at its greatest count, with the row. That of the row which
/// is the cause of the clone's balance is such a stamp.
pub fn load_stamp(rows: &Rows, seat: &mut ViewSeat, row: RowNo) -> Stamp
    requires table { IsCloneAt seat.old rows.now }
    requires row { row ≤ rows.now.rows }
    ensures seat { seat.new ≡ with_stamp seat.old row result }
    ensures cause { TellsCause seat.old.balance row result }
{
    Stamp::of(rows.load::<LoadStamp>(&mut seat.seat, row, Field::Stamp))
}
