//! The words of a row: loads of any row, and stores in a row that the pass drew and that isn't linked.
ghost use Rattle.std.specs.Prelude.{◌≡◌, ◌≢◌, ℕ, ◌<◌, ◌≤◌};
ghost use Rattle.snap_rule.specs.declared.change.Doing.TheVariants.{Nothing};
ghost use Rattle.snap_rule.specs.Tree.{value_of};
ghost use Rattle.snap_stamp.specs.Layout.{word_at};
ghost use Rattle.snap_stamp.specs.declared.layout.Field.TheVariants.{Key, Lock, Stamp};
ghost use Rattle.snap_steps.specs.Counting.{Among};
ghost use Rattle.snap_steps.specs.Facts.{IsKnown};
ghost use Rattle.snap_steps.specs.Seen.{IsOf, Becomes};
ghost use Rattle.snap_steps.specs.Steps.Fields.{read, led_to, own_word_stored, word_loaded};

use crate::pass::Pass;
use crate::rows::Rows;
use crate::view::View;
use atomic_table::Play;
use snap_stamp::{Field, Key, RowNo, word_at};
use std::marker::Brand;

struct LoadWord;

impl Play<(), View> for LoadWord {
    ghost then = { word_loaded };
}

pub(crate) fn index_of(row: RowNo, field: Field) -> usize
    ensures { result ≡ word_at row field }
{
    word_at(row, field) as usize
}

/// The value that a value word stands for.
pub fn value_of(word: u64) -> Option<u64>
    ensures { result ≡ value_of word }
{
    match word {
        0 => None,
        more => Some(more - 1),
    }
}

/// Loads a word of a row. What the pass knew of it by its lock is what it finds, and a link that it finds in a row
/// that it has reached leads to a row of the table.
pub fn load_word(rows: &Rows, pass: &mut Pass, row: RowNo, field: Field) -> u64
    requires table { IsOf pass.old rows.now }
    requires row { row ≤ rows.now.rows }
    ensures pass { Becomes pass.old pass.new (read pass.old.view row field result) }
    ensures known { (x : ℕ) → IsKnown pass.old.view.words.knows row field x → result ≡ x }
    ensures led { (c : ℕ) → Among c (led_to pass.old.view row field result) → c ≤ rows.now.rows }
{
    rows.load::<LoadWord>(&mut pass.seat, row, field)
}

/// Loads the key of a row.
pub fn load_key(rows: &Rows, pass: &mut Pass, row: RowNo) -> Key
    requires table { IsOf pass.old rows.now }
    requires row { row ≤ rows.now.rows }
    ensures pass { Becomes pass.old pass.new (read pass.old.view row Key result) }
    ensures known { (x : ℕ) → IsKnown pass.old.view.words.knows row Key x → result ≡ x }
{
    load_word(rows, pass, row, Field::Key)
}

/// Stores a word in a row that the pass drew and that isn't linked. Its stamp and its lock stay 0 until it is.
pub fn store_own(rows: &Rows, pass: &mut Pass, row: RowNo, field: Field, word: u64)
    requires table { IsOf pass.old rows.now }
    requires row { row ≤ rows.now.rows }
    requires own { Among row pass.old.view.fresh.own }
    requires field { (field ≢ Lock) × (field ≢ Stamp) }
    requires whole { pass.old.view.doing ≡ Nothing }
    ensures { Becomes pass.old pass.new (own_word_stored pass.old.view row field word) }
{
    rows.store::<Brand>(&mut pass.seat, row, field, word);
}
