//! Loads and stores of the words of rows. What such a step tells is a `Play`: one that has a name, or `Brand`, of which
//! the call picks in its file `Invariants.antt` what it tells.
ghost use Rattle.std.specs.Prelude.{◌≡◌, ◌≤◌};
ghost use mathlib.Core.Option.{none};
ghost use Rattle.atomic_table.specs.Table.{step};
ghost use Rattle.snap_stamp.specs.Layout.{word_at};
ghost use Rattle.snap_steps.specs.Asking.{Permits};

use crate::fields::index_of;
use crate::rows::Rows;
use crate::view::View;
use atomic_table::{Play, Seat};
use snap_stamp::{Field, RowNo};
use std::marker::Brand;

impl Play<(), View> for Brand {
    ghost then = { λ _ _ _ _. Unit {0} };
}

impl Rows {
    pub(crate) fn load<J: Play<(), View>>(
        &self,
        seat: &mut Seat<(), View>,
        row: RowNo,
        field: Field,
    ) -> u64
        requires table { seat.old.table_id ≡ self.now.table }
        requires row { row ≤ self.now.rows }
        requires step { Permits self.now seat.old.id seat.old.me (word_at row field) (λ n. n)
            (J.then (step self.now.table.slots (word_at row field) 0 0 none) seat.old.me) }
        ensures table { seat.new.table_id ≡ seat.old.table_id }
        ensures step { J.then (step self.now.table.slots (word_at row field) 0 0 none)
            seat.old.me result seat.new.me }
    {
        let word = index_of(row, field);
        self.table.shared.load::<J>(seat, word)
    }

    /// A load that tells of `told` too, as of a key or of other rows.
    pub(crate) fn load_told<J: Play<(), View>, T: Copy>(
        &self,
        seat: &mut Seat<(), View>,
        row: RowNo,
        field: Field,
        told: T,
    ) -> u64
        requires table { seat.old.table_id ≡ self.now.table }
        requires row { row ≤ self.now.rows }
        requires step { Permits self.now seat.old.id seat.old.me (word_at row field) (λ n. n)
            (J.then (step self.now.table.slots (word_at row field) 0 0 none) seat.old.me) }
        ensures table { seat.new.table_id ≡ seat.old.table_id }
        ensures step { J.then (step self.now.table.slots (word_at row field) 0 0 none)
            seat.old.me result seat.new.me }
    {
        let _told = told;
        self.load::<J>(seat, row, field)
    }

    pub(crate) fn store<J: Play<(), View>>(
        &self,
        seat: &mut Seat<(), View>,
        row: RowNo,
        field: Field,
        new: u64,
    )
        requires table { seat.old.table_id ≡ self.now.table }
        requires row { row ≤ self.now.rows }
        requires step { Permits self.now seat.old.id seat.old.me (word_at row field) (λ _. new)
            (λ _. J.then (step self.now.table.slots (word_at row field) new 0 none)
            seat.old.me new) }
        ensures table { seat.new.table_id ≡ seat.old.table_id }
        ensures step { J.then (step self.now.table.slots (word_at row field) new 0 none)
            seat.old.me new seat.new.me }
    {
        let word = index_of(row, field);
        self.table.shared.store::<J>(seat, word, new);
    }

    /// A store that tells of `told` too.
    pub(crate) fn store_told<J: Play<(), View>, T: Copy>(
        &self,
        seat: &mut Seat<(), View>,
        row: RowNo,
        field: Field,
        new: u64,
        told: T,
    )
        requires table { seat.old.table_id ≡ self.now.table }
        requires row { row ≤ self.now.rows }
        requires step { Permits self.now seat.old.id seat.old.me (word_at row field) (λ _. new)
            (λ _. J.then (step self.now.table.slots (word_at row field) new 0 none)
            seat.old.me new) }
        ensures table { seat.new.table_id ≡ seat.old.table_id }
        ensures step { J.then (step self.now.table.slots (word_at row field) new 0 none)
            seat.old.me new seat.new.me }
    {
        let _told = told;
        self.store::<J>(seat, row, field, new);
    }
}
