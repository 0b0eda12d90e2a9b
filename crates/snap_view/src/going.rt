//! Passing the rows of a clone one after another toward one side, with the rows ahead at hand.
ghost use Rattle.std.specs.Prelude.{◌≡◌, ◌<◌};
ghost use Rattle.snap_prelude.specs.{after, at, image, IsCloneOf, IsSubtree, root, Tree};
ghost use Rattle.snap_view.specs.{Ahead.AddsAhead, Ahead.AreAhead, Ahead.ArePassed, Ahead.rows_ahead};
ghost use Rattle.snap_view.specs.Nearest.{IsNearest, IsNearestPair, on};
ghost use Rattle.snap_view.specs.Tops.{HasTree};

use crate::ahead::RowsAhead;
use crate::table_view::TableView;
use crate::way::{behind, below, child};
use snap_stamp::{Key, RowNo, Side};
use snap_steps::{RowCopy, Steps, fetch_row};
use std::sync::ledger::{Blank, Ledger};

impl<'t> TableView<'t> {
    // Has the processor fetch the row on the far side of this one, while the walk is on the near
    // side. Where the walk goes straight to the far side, it comes a little early, and that is all.
    fn fetch(&mut self, copy: &RowCopy, side: Side)
        requires { HasTree (image self.old) (on side copy.now.left copy.now.right) }
        ensures view { self.new ≡ self.old }
    {
        let rows = self.rows;
        fetch_row(rows, &mut self.seat, child(copy, side));
    }

    // Notes the rows ahead on the way down from this row to the row nearest to `from`.
    fn look_down<L: Ledger>(
        &mut self,
        row: RowNo,
        side: Side,
        from: Key,
        ahead: &mut RowsAhead,
        steps: &mut Steps<L>,
    )
        requires { HasTree (image self.old) row }
        ensures ahead { (t : Tree) → IsSubtree t (image self.old) → root t ≡ row
            → AddsAhead ahead.old ahead.new (rows_ahead side from t) }
        ensures view { self.new ≡ self.old }
    {
        let _rows = self.rows;
        let mut here = self.row_at(row, steps);
        while let Some(copy) = here {
            ahead.meet(&copy, side, from);
            self.fetch(&copy, side);
            here = self.row_at(below(&copy, side, from), steps);
        }
    }

    // The rows ahead from `from` on.
    pub(crate) fn rows_from<L: Ledger>(&mut self, blank: Blank, side: Side, from: Key) -> RowsAhead
        requires name { blank.name ≡ L.name }
        requires parts { blank.parts ≡ L.parts }
        requires some { 0 < blank.parts }
        ensures ahead { AreAhead side from (image self.old) result }
        ensures view { self.new ≡ self.old }
    {
        let mut steps = Steps::<L>::new(blank);
        let mut ahead = RowsAhead::none();
        let row = self.seat.root();
        self.look_down(row, side, from, &mut ahead, &mut steps);
        ahead
    }

    // The row that is nearest to `from`; the rows ahead are then those behind it. Where they are lost, it is looked
    // for from the root.
    fn next_row<L: Ledger>(
        &mut self,
        side: Side,
        from: Key,
        ahead: &mut RowsAhead,
        steps: &mut Steps<L>,
    ) -> Option<(Key, Option<u64>)>
        requires { AreAhead side from (image self.old) ahead.old }
        ensures nearest { IsNearest (at (after self.old.base)) side from result }
        ensures ahead { ArePassed side (image self.old) result ahead.new }
        ensures view { self.new ≡ self.old }
    {
        let _rows = self.rows;
        if ahead.lost {
            return self.nearest(side, from, steps);
        }
        let row = ahead.rows.pop()?;
        if let Some(next) = behind(side, row.key) {
            self.look_down(row.beyond, side, next, ahead, steps);
        }
        Some((row.key, row.value))
    }

    // The pair that is nearest to `from`; the rows ahead are then those behind it.
    pub(crate) fn next_pair<L: Ledger>(
        &mut self,
        blank: Blank,
        side: Side,
        from: Key,
        ahead: &mut RowsAhead,
    ) -> Option<(Key, u64)>
        requires name { blank.name ≡ L.name }
        requires parts { blank.parts ≡ L.parts }
        requires some { 0 < blank.parts }
        requires ahead { AreAhead side from (image self.old) ahead.old }
        ensures nearest { IsNearestPair (at (after self.old.base)) side from result }
        ensures ahead { ArePassed side (image self.old) result ahead.new }
        ensures clone { IsCloneOf self.old.base (image self.old) }
        ensures view { self.new ≡ self.old }
    {
        let mut steps = Steps::<L>::new(blank);
        let _rows = self.rows;
        let mut next = Some(from);
        while let Some(key) = next {
            let (row, value) = self.next_row(side, key, ahead, &mut steps)?;
            if let Some(value) = value {
                return Some((row, value));
            }
            next = behind(side, row);
        }
        None
    }
}
