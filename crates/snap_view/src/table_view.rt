//! A clone, the value at a key, and its pairs.
ghost use Rattle.std.specs.Prelude.{◌≡◌, ◌≤◌, ◌<◌, ◌+◌, reverse};
ghost use Rattle.snap_prelude.specs.{after, at, depth, image, IsCloneOf, IsSubtree, range, root, Tree};
ghost use Rattle.snap_view.specs.{Readable.IsReadable, Walks.pairs_left, Tops.HasTree, Tops.IsTopOf, Tops.rows_read};

use crate::walk::{Ascend, Descend, Walk};
use crate::way::below;
use snap_stamp::{Key, RowNo, Side};
use snap_steps::{RowCopy, Rows, Steps, ViewSeat, load_row};
use std::marker::{Brand, Model};
use std::sync::ledger::{Blank, Ledger};

/// A clone of a table. Its answers are those of the map after its base, the table's history when it was cut.
#[derive(Drop)]
pub struct TableView<'t> {
    pub(crate) rows: &'t Rows,
    pub(crate) seat: ViewSeat,
}

impl<'t> Model for TableView<'t> {
    ghost use Rattle.snap_prelude.specs.{Cloned};
    ghost use Rattle.snap_view.specs.Readable.{IsReadable};

    ghost Value = { Cloned };

    ghost view = { λ v. v.seat };

    ghost invariant = { λ v. IsReadable v.rows.now v.seat };
}

impl<'t> TableView<'t> {
    /// The clone that the seat reads.
    pub fn of(rows: &'t Rows, seat: ViewSeat) -> TableView<'t>
        requires { IsReadable rows.now seat }
        ensures { result ≡ seat }
    {
        TableView { rows, seat }
    }

    /// One view more of the same clone.
    pub fn twin(&mut self) -> TableView<'t>
        ensures twin { result ≡ self.old }
        ensures view { self.new ≡ self.old }
    {
        let seat = snap_steps::twin(self.rows, &mut self.seat);
        TableView {
            rows: self.rows,
            seat,
        }
    }

    /// The seat, to give it back to a pass.
    pub fn into_seat(self) -> ViewSeat
        ensures { result ≡ self.entry }
    {
        let TableView { rows: _, seat } = self;
        seat
    }

    /// Gives the view up.
    pub fn release(self) {
        let TableView { rows: _, seat: _ } = self;
    }

    // The top of the tree that stands at this row, none where there is no row.
    pub(crate) fn row_at<L: Ledger>(&mut self, row: RowNo, steps: &mut Steps<L>) -> Option<RowCopy>
        requires { HasTree (image self.old) row }
        ensures top { (t : Tree) → IsSubtree t (image self.old) → root t ≡ row → IsTopOf t result }
        ensures view { self.new ≡ self.old }
        ensures steps { steps.new ≡ steps.old + rows_read result }
    {
        let rows = self.rows;
        if row.is_none() {
            return None;
        }
        Some(load_row(rows, &mut self.seat, row, steps))
    }

    // The top of the clone's tree.
    pub(crate) fn top<L: Ledger>(&mut self, steps: &mut Steps<L>) -> Option<RowCopy>
        ensures top { IsTopOf (image self.old) result }
        ensures clone { IsCloneOf self.old.base (image self.old) }
        ensures view { self.new ≡ self.old }
        ensures steps { steps.new ≡ steps.old + rows_read result }
    {
        let row = self.seat.root();
        self.row_at(row, steps)
    }

    /// The value at the key.
    pub fn get(&mut self, key: Key) -> Option<u64>
        ensures value { result ≡ at (after self.old.base) key }
        ensures view { self.new ≡ self.old }
    {
        self.value_at::<Brand>(Blank::new(1), key)
    }

    fn value_at<L: Ledger>(&mut self, blank: Blank, key: Key) -> Option<u64>
        requires name { blank.name ≡ L.name }
        requires parts { blank.parts ≡ L.parts }
        requires some { 0 < blank.parts }
        ensures value { result ≡ at (after self.old.base) key }
        ensures view { self.new ≡ self.old }
    {
        self.get_counted(key, &mut Steps::<L>::new(blank))
    }

    /// `get`, with a counter of the rows that it reads: no more than stand on the longest way down the clone's tree.
    pub fn get_counted<L: Ledger>(&mut self, key: Key, steps: &mut Steps<L>) -> Option<u64>
        ensures value { result ≡ at (after self.old.base) key }
        ensures view { self.new ≡ self.old }
        ensures steps { steps.new ≤ steps.old + depth (image self.old) }
    {
        let mut here = self.top(steps);
        while let Some(copy) = here {
            if copy.key == key {
                return copy.value;
            }
            here = self.row_at(below(&copy, Side::Right, key), steps);
        }
        None
    }

    /// The pairs whose keys lie from `low` to `high`, by rising keys.
    pub fn range(&mut self, low: Key, high: Key) -> Ascend<'t>
        ensures pairs { pairs_left result ≡ range (after self.old.base) low high }
        ensures view { self.new ≡ self.old }
    {
        Walk::begin(self.twin(), Side::Right, low, high)
    }

    /// The pairs whose keys lie from `low` to `high`, by falling keys.
    pub fn range_down(&mut self, low: Key, high: Key) -> Descend<'t>
        ensures pairs { pairs_left result ≡ reverse (range (after self.old.base) low high) }
        ensures view { self.new ≡ self.old }
    {
        Walk::begin(self.twin(), Side::Left, high, low)
    }

    /// All pairs, by rising keys.
    pub fn pairs(&mut self) -> Ascend<'t>
        ensures pairs { pairs_left result ≡ after self.old.base }
        ensures view { self.new ≡ self.old }
    {
        let _rows = self.rows;
        self.range(0, Key::MAX)
    }
}
