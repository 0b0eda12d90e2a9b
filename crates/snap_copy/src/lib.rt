//! Lazy copies: a write that comes to a row of an earlier epoch puts a copy in its place, and clones keep the row.
#![tactic(auto)]

ghost use Rattle.std.specs.Prelude.{◌≡◌, ◌≢◌, ◌<◌, ◌≤◌, ℕ, false, MatchResult, None, Some};
ghost use Rattle.snap_copy.specs.{Lowering.LacksRows, Lowering.OwnsLower, Owning.LacksAt, Owning.OwnsAt};
ghost use Rattle.snap_copy.specs.{Filling.CopiesWord, Filling.Fills, Filling.FindsChild};
ghost use Rattle.snap_prelude.specs.{Among, IsAbove, IsBorn, IsCopyPlace, IsHeldLink, IsOf};
ghost use Rattle.snap_prelude.specs.{IsOlder, IsTilt, IsWriting, Lock, Nothing, Stamp, Writing};

use snap_stamp::{Field, Key, RowNo, Side};
use snap_steps::{
    Full, Pass, Rows, draw, link_copy, load_birth, load_epoch, load_shared, load_word, store_own,
};
use std::sync::Wait;

/// Where a row of this epoch is wanted: in the link of a held row on a side. The epoch is that of the write.
#[derive(Clone, Copy)]
pub struct Wanted {
    pub parent: RowNo,
    pub side: Side,
    pub epoch: u64,
}

/// The child of a held row, as a row of this epoch: the child itself, or a copy that takes its place. The held row is
/// the place that the search of this write found for the key. `Full` comes only where the child is of an earlier epoch
/// and every row was handed out; then no row was drawn, and what the pass knew it still knows.
pub fn own_child<R: Wait>(
    rows: &Rows,
    rt: &R,
    pass: &mut Pass,
    key: Key,
    at: &Wanted,
) -> Result<RowNo, Full>
    requires table { IsOf pass.old rows.now }
    requires parent { at.now.parent ≤ rows.now.rows }
    requires epoch { Among at.now.epoch pass.old.view.words.present }
    requires writing { pass.old.view.stage ≡ Writing false false }
    requires whole { pass.old.view.doing ≡ Nothing }
    requires place { (child : ℕ) × (child ≢ 0)
        × IsAbove pass.old.view key at.now.parent at.now.side child }
    ensures { MatchResult result (λ c. OwnsAt rows.now.rows pass.old pass.new (Some key) at.now c)
        (λ f. LacksAt rows.now.rows pass.old pass.new (Some key) at.now f.rows) }
{
    own_at(rows, rt, pass, Some(key), at)
}

/// The same for a repair: the pass holds a row of which one side is higher by two at least, and the parent is that row
/// and the side the higher one, or its child there and the side the other one. The write may have its entry, and no
/// search is under way. After `Full` the pass knows still what wants the copy.
pub fn own_lower<R: Wait>(
    rows: &Rows,
    rt: &R,
    pass: &mut Pass,
    parent: RowNo,
    side: Side,
) -> Result<RowNo, Full>
    requires table { IsOf pass.old rows.now }
    requires parent { parent ≤ rows.now.rows }
    requires writing { IsWriting pass.old.view }
    requires whole { pass.old.view.doing ≡ Nothing }
    requires held { Among parent pass.old.view.holds }
    requires live { (Among parent pass.old.view.trail.reached) × IsBorn pass.old.view parent }
    requires tilt { (upper : ℕ) × IsTilt pass.old.view upper parent side }
    ensures { MatchResult result (λ c. OwnsLower rows.now.rows pass.old pass.new parent side c)
        (λ f. LacksRows rows.now.rows pass.old pass.new parent side f.rows) }
{
    let epoch = load_epoch(rows, pass);
    let at = Wanted {
        parent,
        side,
        epoch,
    };
    own_at(rows, rt, pass, None, &at)
}

// The place is that of the key, or without one that of a repair.
fn own_at<R: Wait>(
    rows: &Rows,
    rt: &R,
    pass: &mut Pass,
    key: Option<Key>,
    at: &Wanted,
) -> Result<RowNo, Full>
    requires table { IsOf pass.old rows.now }
    requires parent { at.now.parent ≤ rows.now.rows }
    requires epoch { Among at.now.epoch pass.old.view.words.present }
    requires writing { IsWriting pass.old.view }
    requires whole { pass.old.view.doing ≡ Nothing }
    requires place { (child : ℕ) × (child ≢ 0)
        × IsCopyPlace pass.old.view key at.now.parent at.now.side child }
    ensures { MatchResult result (λ c. OwnsAt rows.now.rows pass.old pass.new key at.now c)
        (λ f. LacksAt rows.now.rows pass.old pass.new key at.now f.rows) }
{
    let child = child_of(rows, pass, at.parent, at.side);
    let birth = load_birth(rows, pass, child);
    if birth >= at.epoch {
        return Ok(child);
    }
    match draw(rows, rt, pass) {
        Ok(copy) => {
            fill(rows, pass, child, copy, at.epoch);
            link_copy(rows, pass, key, at.parent, at.side, child, copy);
            Ok(copy)
        }
        Err(full) => Err(full),
    }
}

// The child, which the pass has then reached.
fn child_of(rows: &Rows, pass: &mut Pass, parent: RowNo, side: Side) -> RowNo
    requires table { IsOf pass.old rows.now }
    requires parent { parent ≤ rows.now.rows }
    requires place { (child : ℕ) × (child ≢ 0) × IsHeldLink pass.old.view parent side child }
    ensures { FindsChild rows.now.rows pass.old pass.new parent side result }
{
    let word = load_word(rows, pass, parent, side.link());
    rows.row_of(word)
}

// Makes a row of the pass a copy of the child in this epoch.
fn fill(rows: &Rows, pass: &mut Pass, child: RowNo, copy: RowNo, epoch: u64)
    requires table { IsOf pass.old rows.now }
    requires rows { (child ≤ rows.now.rows) × (copy ≤ rows.now.rows) }
    requires own { Among copy pass.old.view.fresh.own }
    requires older { IsOlder pass.old.view child }
    requires epoch { Among epoch pass.old.view.words.present }
    requires whole { pass.old.view.doing ≡ Nothing }
    ensures { Fills pass.old pass.new child copy }
{
    copy_word(rows, pass, child, copy, Field::Key);
    copy_word(rows, pass, child, copy, Field::Height);
    copy_word(rows, pass, child, copy, Field::Left);
    copy_word(rows, pass, child, copy, Field::Right);
    copy_word(rows, pass, child, copy, Field::Value);
    store_own(rows, pass, copy, Field::Birth, epoch);
}

fn copy_word(rows: &Rows, pass: &mut Pass, child: RowNo, copy: RowNo, field: Field)
    requires table { IsOf pass.old rows.now }
    requires rows { (child ≤ rows.now.rows) × (copy ≤ rows.now.rows) }
    requires own { Among copy pass.old.view.fresh.own }
    requires older { IsOlder pass.old.view child }
    requires field { (field ≢ Lock) × (field ≢ Stamp) }
    requires whole { pass.old.view.doing ≡ Nothing }
    ensures { CopiesWord pass.old pass.new child copy field }
{
    let word = load_shared(rows, pass, child, field);
    store_own(rows, pass, copy, field, word);
}
