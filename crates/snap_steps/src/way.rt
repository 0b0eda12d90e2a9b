//! The loads of a reader on its way to a key.
ghost use Rattle.std.specs.Prelude.{◌≡◌, ℕ, ◌≤◌, length};
ghost use Rattle.snap_rule.specs.declared.reader.Point.{Point};
ghost use Rattle.snap_rule.specs.declared.reader.Reading.TheVariants.{On};
ghost use Rattle.snap_steps.specs.Histories.{Extends};
ghost use Rattle.snap_steps.specs.Seen.{IsOf, Becomes};
ghost use Rattle.snap_steps.specs.Steps.Header.{word_noted};
ghost use Rattle.snap_steps.specs.Steps.Way.{set_out_for, read_on, settled_at, IsNext, IsLast, HasBound, HasAnswer, begun_again, way_begun, next_read, answer_read};
ghost use Rattle.snap_steps.specs.declared.view.WordNote.TheVariants.{Done};

use crate::pass::Pass;
use crate::rows::Rows;
use crate::view::View;
use atomic_table::Play;
use snap_stamp::{Field, Key, RowNo};
use std::marker::{Brand, PhantomData};

/// The key on whose way a reader begins. Each call picks it.
trait Saying {
    ghost key: { ℕ };
}

impl Saying for Brand {
    ghost key = { 0 };
}

struct SetOut<J> {
    marker: PhantomData<J>,
}

impl<J: Saying> Play<(), View> for SetOut<J> {
    ghost then = { way_begun J.key };
}

struct ReadOn;

impl Play<(), View> for ReadOn {
    ghost then = { next_read };
}

struct ReadAnswer;

impl Play<(), View> for ReadAnswer {
    ghost then = { answer_read };
}

fn set_out_keyed<J: Saying>(rows: &Rows, pass: &mut Pass, key: Key) -> u64
    requires key { key ≡ J.key }
    requires table { IsOf pass.old rows.now }
    ensures { (seen : _) × Extends pass.old.view seen × (result ≤ length seen)
        × Becomes pass.old pass.new
        (set_out_for (word_noted pass.old.view (Done result)) seen J.key) }
{
    let _key = key;
    rows.table.shared.load::<SetOut<J>>(&mut pass.seat, 3)
}

/// Loads `done`, and stands at row 0 on the way of the key.
pub fn set_out(rows: &Rows, pass: &mut Pass, key: Key) -> u64
    requires { IsOf pass.old rows.now }
    ensures { (seen : _) × Extends pass.old.view seen × (result ≤ length seen)
        × Becomes pass.old pass.new
        (set_out_for (word_noted pass.old.view (Done result)) seen key) }
{
    set_out_keyed::<Brand>(rows, pass, key)
}

/// Stands at row 0 on the way of the key, with what the pass has seen so far: it loads a word that never changes.
pub fn set_out_again(rows: &Rows, pass: &mut Pass, key: Key)
    requires { IsOf pass.old rows.now }
    ensures { Becomes pass.old pass.new (begun_again pass.old.view key) }
{
    rows.load_told::<Brand, Key>(&mut pass.seat, RowNo::HOLDER, Field::Stamp, key);
}

/// Loads the reader's next word, which brings it to its next point, or back to row 0 where a check fails.
pub fn load_next_word(rows: &Rows, pass: &mut Pass, row: RowNo, field: Field) -> u64
    requires table { IsOf pass.old rows.now }
    requires row { row ≤ rows.now.rows }
    requires way { (key : ℕ) × (point : Point) × (pass.old.view.way.reads ≡ On key point)
        × IsNext point row field }
    ensures pass { Becomes pass.old pass.new (read_on pass.old.view result) }
    ensures bound { HasBound pass.old.view result }
{
    rows.load::<ReadOn>(&mut pass.seat, row, field)
}

/// Loads the reader's last word, which answers its search at what the pass has now seen.
pub fn load_last_word(rows: &Rows, pass: &mut Pass, row: RowNo, field: Field) -> u64
    requires table { IsOf pass.old rows.now }
    requires row { row ≤ rows.now.rows }
    requires way { (key : ℕ) × (point : Point) × (pass.old.view.way.reads ≡ On key point)
        × IsLast point row field }
    ensures { (seen : _) × Extends pass.old.view seen
        × Becomes pass.old pass.new (settled_at pass.old.view seen result)
        × HasAnswer pass.old.view.way.reads result seen }
{
    rows.load::<ReadAnswer>(&mut pass.seat, row, field)
}
