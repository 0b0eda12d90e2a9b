//! The steps by which a put or a removal enters the history, and the step that counts its entry.
ghost use Rattle.std.specs.Prelude.{◌≡◌, ℕ, ◌<◌, ◌≤◌, true, false, None};
ghost use Rattle.snap_model.specs.declared.call.Call.TheVariants.{Put, Remove};
ghost use Rattle.snap_rule.specs.Tree.{value_of};
ghost use Rattle.snap_rule.specs.declared.change.Doing.TheVariants.{Nothing};
ghost use Rattle.snap_stamp.specs.declared.layout.Field.TheVariants.{Key, Value};
ghost use Rattle.snap_steps.specs.Counting.{Among};
ghost use Rattle.snap_steps.specs.Facts.{IsKnown, IsBorn};
ghost use Rattle.snap_steps.specs.Histories.{Enters};
ghost use Rattle.snap_steps.specs.Rule.Epochs.{AllAre};
ghost use Rattle.snap_steps.specs.Owed.{after_value};
ghost use Rattle.snap_steps.specs.Pairs.{added_by, taken_by};
ghost use Rattle.snap_steps.specs.Seen.{IsOf, Becomes};
ghost use Rattle.snap_steps.specs.States.{link_field};
ghost use Rattle.snap_steps.specs.Steps.Debts.{OwesNothing};
ghost use Rattle.snap_steps.specs.Steps.Writes.{call_of, entry_of, stored, made_entry, hung, counted_one, IsLeaf, IsLeafPlace, StoresValue, done_counted};
ghost use Rattle.snap_steps.specs.declared.view.Stage.TheVariants.{Writing};

use crate::fields::index_of;
use crate::owed::Tally;
use crate::pass::Pass;
use crate::rows::Rows;
use crate::view::View;
use atomic_table::Play;
use snap_stamp::{Field, Key, RowNo, Side};
use std::marker::Brand;

struct StoreValue;

impl Play<(), View> for StoreValue {
    ghost then = { StoresValue };
}

struct CountDone;

impl Play<(), View> for CountDone {
    ghost then = { done_counted };
}

/// Stores the value word of a held row of the tree, and answers the word that was there. This makes the entry of
/// the write: a put of `new - 1`, or a removal where `new` is 0.
pub fn store_value(rows: &Rows, pass: &mut Pass, row: RowNo, key: Key, new: u64) -> u64
    requires table { IsOf pass.old rows.now }
    requires row { row ≤ rows.now.rows }
    requires writing { pass.old.view.stage ≡ Writing false false }
    requires held { Among row pass.old.view.holds }
    requires reached { Among row pass.old.view.trail.reached }
    requires key { IsKnown pass.old.view.words.knows row Key key }
    requires copies { AllAre key pass.old.view.fresh.copies }
    requires born { IsBorn pass.old.view row }
    requires whole { pass.old.view.doing ≡ Nothing }
    requires owes { OwesNothing pass.old.view }
    ensures known { (x : ℕ) → IsKnown pass.old.view.words.knows row Value x → result ≡ x }
    ensures entry { (log : _)
        × Enters pass.old.view log (entry_of pass.old.view.who (call_of key new) (value_of result))
        × Becomes pass.old pass.new
        (stored pass.old.view log
        (entry_of pass.old.view.who (call_of key new) (value_of result)) row new) }
{
    let word = index_of(row, Field::Value);
    let was = rows
        .table
        .shared
        .swap::<StoreValue>(&mut pass.seat, word, new);
    pass.added = pass.added.wrapping_add(pairs_added(key, was, new));
    pass.taken = pass.taken.wrapping_add(pairs_taken(key, was, new));
    let owed = owed_after(pass.owed, key, row, new);
    pass.owed = owed;
    was
}

// What is owed once a value word was stored: the row, where its value is gone.
fn owed_after(owed: Tally, key: Key, row: RowNo, new: u64) -> Tally
    ensures { result ≡ after_value owed key row new }
{
    if new == 0 { Tally::one(key, row) } else { owed }
}

// How many pairs a value word adds to the map in the place of another.
fn pairs_added(key: Key, was: u64, new: u64) -> u64
    ensures { result ≡ added_by (call_of key new) (value_of was) }
{
    let _key = key;
    if was == 0 && new > 0 { 1 } else { 0 }
}

// How many it takes out.
fn pairs_taken(key: Key, was: u64, new: u64) -> u64
    ensures { result ≡ taken_by (call_of key new) (value_of was) }
{
    let _key = key;
    if was > 0 && new == 0 { 1 } else { 0 }
}

/// Loads again the word that shows a held row of the tree to have no value. This makes the entry of the write: a
/// removal of the row's key that found none.
pub fn confirm_absent(rows: &Rows, pass: &mut Pass, row: RowNo, key: Key)
    requires table { IsOf pass.old rows.now }
    requires row { row ≤ rows.now.rows }
    requires writing { pass.old.view.stage ≡ Writing false false }
    requires held { Among row pass.old.view.holds }
    requires reached { Among row pass.old.view.trail.reached }
    requires known { IsKnown pass.old.view.words.knows row Key key
        × IsKnown pass.old.view.words.knows row Value 0 }
    requires copies { AllAre key pass.old.view.fresh.copies }
    requires born { IsBorn pass.old.view row }
    requires whole { pass.old.view.doing ≡ Nothing }
    ensures { (log : _) × Enters pass.old.view log (entry_of pass.old.view.who (Remove key) None)
        × Becomes pass.old pass.new
        (made_entry pass.old.view log (entry_of pass.old.view.who (Remove key) None)) }
{
    rows.load_told::<Brand, Key>(&mut pass.seat, row, Field::Value, key);
}

/// Links a row of the pass, which is a leaf with the key and the value, below the held row at which its way ends.
/// This makes the entry of the write: a put that found none.
pub fn link_leaf(
    rows: &Rows,
    pass: &mut Pass,
    parent: RowNo,
    side: Side,
    row: RowNo,
    key: Key,
    value: u64,
)
    requires table { IsOf pass.old rows.now }
    requires parent { parent ≤ rows.now.rows }
    requires writing { pass.old.view.stage ≡ Writing false false }
    requires made { IsLeaf pass.old.view row key value }
    requires place { IsLeafPlace pass.old.view key parent (link_field side) }
    requires copies { AllAre key pass.old.view.fresh.copies }
    requires whole { pass.old.view.doing ≡ Nothing }
    requires owes { OwesNothing pass.old.view }
    ensures { (log : _) × Enters pass.old.view log (entry_of pass.old.view.who (Put key value) None)
        × Becomes pass.old pass.new
        (hung pass.old.view log (entry_of pass.old.view.who (Put key value) None) parent
        (link_field side) row) }
{
    let field = side.link();
    let told = (key, value);
    rows.store_told::<Brand, _>(&mut pass.seat, parent, field, row.number() as u64, told);
    pass.added = pass.added.wrapping_add(1);
    let owed = Tally::one(key, parent);
    pass.owed = owed;
}

/// Counts the entry of the write that the pass is in.
pub fn count_done(rows: &Rows, pass: &mut Pass)
    requires table { IsOf pass.old rows.now }
    requires made { pass.old.view.stage ≡ Writing true false }
    requires whole { pass.old.view.doing ≡ Nothing }
    ensures { Becomes pass.old pass.new (counted_one pass.old.view) }
{
    rows.table
        .shared
        .fetch_add::<CountDone>(&mut pass.seat, 3, 1);
}
