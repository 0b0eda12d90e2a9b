//! A write at a row below which the way of the key ends.
ghost use Rattle.std.specs.Prelude.{◌≡◌, ◌<◌, ◌≤◌, ◌+◌, ◌^◌};
ghost use Rattle.snap_prelude.specs.{Among, call_key, IsLeafPlace, IsOf, link_field, NoLink, Nothing, On, Put};
ghost use Rattle.snap_search.specs.Prelude.{EndsAbsent};
ghost use Rattle.snap_update.specs.{Answers.FitsWord, Attempts.Attempts, Attempts.RefusesOr, Held.IsAtWork};
ghost use Rattle.snap_update.specs.{Held.MakesLeaf};

use crate::attempt::Attempt;
use crate::placed::{Gap, is_place};
use snap_model::Call;
use snap_search::Spot;
use snap_stamp::{Field, Key, RowNo};
use snap_steps::{
    Full, Pass, Rows, confirm_absent_below, draw, link_leaf, load_last_word, load_word, store_own,
};
use std::sync::Wait;

/// A key that the map lacks, and the value that a put gives it.
#[derive(Clone, Copy)]
pub struct Pair {
    pub key: Key,
    pub value: u64,
}

/// Writes below the held row, where it is the place still.
pub fn enter_below<R: Wait>(rows: &Rows, rt: &R, pass: &mut Pass, call: &Call, gap: &Gap) -> Attempt
    requires table { IsOf pass.old rows.now }
    requires at_work { IsAtWork pass.old.view gap.now.at.row (call_key call.now) }
    requires epoch { Among gap.now.epoch pass.old.view.words.present }
    requires place { EndsAbsent rows.now.rows pass.old.view
        (call_key call.now) gap.now.epoch gap.now.at }
    requires value { FitsWord call.now }
    ensures { Attempts rows.now.rows pass.old pass.new call.now result }
{
    if !is_place(rows, pass, gap) {
        return Attempt::Again;
    }
    let (row, side) = (gap.at.row, gap.at.side);
    if load_word(rows, pass, row, side.link()) != 0 {
        return Attempt::Again;
    }
    match call {
        Call::Put { key, value } => {
            let pair = Pair {
                key: *key,
                value: *value,
            };
            hang(rows, rt, pass, gap, &pair)
        }
        Call::Remove { key } => {
            confirm_absent_below(rows, pass, row, side, *key);
            Attempt::Made(None)
        }
    }
}

// Draws a row, and links it as a leaf at the place.
fn hang<R: Wait>(rows: &Rows, rt: &R, pass: &mut Pass, gap: &Gap, pair: &Pair) -> Attempt
    requires table { IsOf pass.old rows.now }
    requires row { gap.now.at.row ≤ rows.now.rows }
    requires at_work { IsAtWork pass.old.view gap.now.at.row pair.now.key }
    requires epoch { Among gap.now.epoch pass.old.view.words.present }
    requires place { IsLeafPlace pass.old.view pair.now.key gap.now.at.row
        (link_field gap.now.at.side) }
    requires way { pass.old.view.way.reads
        ≡ On pair.now.key (NoLink gap.now.at.row gap.now.at.stamp gap.now.at.side) }
    requires value { pair.now.value + 1 < 2 ^ 64 }
    ensures { Attempts rows.now.rows pass.old pass.new (Put pair.now.key pair.now.value) result }
{
    let (key, value) = (pair.key, pair.value);
    match draw(rows, rt, pass) {
        Ok(leaf) => {
            fill(rows, pass, leaf, pair, gap.epoch);
            link_leaf(rows, pass, gap.at.row, gap.at.side, leaf, key, value);
            Attempt::Made(None)
        }
        Err(full) => refuse(rows, pass, &gap.at, key, full),
    }
}

// Makes a row of the pass a leaf of this epoch.
fn fill(rows: &Rows, pass: &mut Pass, leaf: RowNo, pair: &Pair, epoch: u64)
    requires table { IsOf pass.old rows.now }
    requires row { leaf ≤ rows.now.rows }
    requires whole { pass.old.view.doing ≡ Nothing }
    requires own { Among leaf pass.old.view.fresh.own }
    requires epoch { Among epoch pass.old.view.words.present }
    requires value { pair.now.value + 1 < 2 ^ 64 }
    ensures { MakesLeaf pass.old pass.new leaf pair.now.key pair.now.value }
{
    store_own(rows, pass, leaf, Field::Key, pair.key);
    store_own(rows, pass, leaf, Field::Birth, epoch);
    store_own(rows, pass, leaf, Field::Height, 1);
    store_own(rows, pass, leaf, Field::Left, 0);
    store_own(rows, pass, leaf, Field::Right, 0);
    store_own(rows, pass, leaf, Field::Value, pair.value + 1);
}

// Full, where the key is absent still.
fn refuse(rows: &Rows, pass: &mut Pass, at: &Spot, key: Key, full: Full) -> Attempt
    requires table { IsOf pass.old rows.now }
    requires row { at.now.row ≤ rows.now.rows }
    requires way { pass.old.view.way.reads ≡ On key (NoLink at.now.row at.now.stamp at.now.side) }
    requires full { full.rows ≡ rows.now.rows }
    ensures { RefusesOr rows.now.rows pass.old pass.new key result }
{
    let _key = key;
    if load_last_word(rows, pass, at.row, Field::Stamp) == at.stamp.word() {
        Attempt::Refused(full)
    } else {
        Attempt::Again
    }
}
