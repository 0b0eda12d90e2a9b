//! The row of a clone that is nearest to a key, on one side of it.
ghost use Rattle.std.specs.Prelude.{◌≡◌, ◌≤◌, ◌+◌, ◌*◌, ◌<◌};
ghost use Rattle.snap_prelude.specs.{after, at, depth, image, IsCloneOf, IsSettledTree, Right};
ghost use Rattle.snap_view.specs.Nearest.{IsNearest, IsNearestPair, ReachesAll, nearest_row, levels};

use crate::table_view::TableView;
use crate::way::{WayDown, behind, below, nearer};
use snap_stamp::{Key, Side};
use snap_steps::Steps;
use std::marker::Brand;
use std::sync::ledger::{Blank, Ledger};

impl<'t> TableView<'t> {
    // The way down to the row that is nearest to `from` on that side.
    pub(crate) fn way_down<L: Ledger>(
        &mut self,
        side: Side,
        from: Key,
        steps: &mut Steps<L>,
    ) -> WayDown
        ensures row { result.row ≡ nearest_row side from (image self.old) }
        ensures levels { result.levels ≡ levels side from (image self.old) }
        ensures clone { IsCloneOf self.old.base (image self.old) }
        ensures view { self.new ≡ self.old }
        ensures steps { steps.new ≡ steps.old + levels side from (image self.old) }
    {
        let _last = self.seat.next();
        let mut way = WayDown {
            row: None,
            levels: 0,
        };
        let mut here = self.top(steps);
        while let Some(copy) = here {
            way = WayDown {
                row: nearer(way.row, &copy, side, from),
                levels: way.levels + 1,
            };
            here = self.row_at(below(&copy, side, from), steps);
        }
        way
    }

    // That row, as its key and its value if it has one.
    pub(crate) fn nearest<L: Ledger>(
        &mut self,
        side: Side,
        from: Key,
        steps: &mut Steps<L>,
    ) -> Option<(Key, Option<u64>)>
        ensures nearest { IsNearest (at (after self.old.base)) side from result }
        ensures row { result ≡ nearest_row side from (image self.old) }
        ensures clone { IsCloneOf self.old.base (image self.old) }
        ensures view { self.new ≡ self.old }
        ensures steps { steps.new ≤ steps.old + depth (image self.old) }
    {
        self.way_down(side, from, steps).row
    }

    // The pair that is nearest to `from` on that side. Behind a row without a value it is looked for again.
    pub(crate) fn nearest_pair<L: Ledger>(
        &mut self,
        side: Side,
        from: Key,
        steps: &mut Steps<L>,
    ) -> Option<(Key, u64)>
        ensures nearest { IsNearestPair (at (after self.old.base)) side from result }
        ensures clone { IsCloneOf self.old.base (image self.old) }
        ensures view { self.new ≡ self.old }
        ensures steps { IsSettledTree (image self.old)
            → steps.new ≤ steps.old + 2 * depth (image self.old) }
        ensures end { IsSettledTree (image self.old) → ReachesAll side from
            → steps.new ≤ steps.old + depth (image self.old) }
    {
        let _rows = self.rows;
        let mut next = Some(from);
        while let Some(key) = next {
            let (row, value) = self.nearest(side, key, steps)?;
            if let Some(value) = value {
                return Some((row, value));
            }
            next = behind(side, row);
        }
        None
    }

    // The same, where nobody counts the rows that are read.
    pub(crate) fn pair_near(&mut self, side: Side, from: Key) -> Option<(Key, u64)>
        ensures nearest { IsNearestPair (at (after self.old.base)) side from result }
        ensures clone { IsCloneOf self.old.base (image self.old) }
        ensures view { self.new ≡ self.old }
    {
        self.pair_from::<Brand>(Blank::new(1), side, from)
    }

    fn pair_from<L: Ledger>(&mut self, blank: Blank, side: Side, from: Key) -> Option<(Key, u64)>
        requires name { blank.name ≡ L.name }
        requires parts { blank.parts ≡ L.parts }
        requires some { 0 < blank.parts }
        ensures nearest { IsNearestPair (at (after self.old.base)) side from result }
        ensures clone { IsCloneOf self.old.base (image self.old) }
        ensures view { self.new ≡ self.old }
    {
        let mut steps = Steps::<L>::new(blank);
        self.nearest_pair(side, from, &mut steps)
    }

    // The way down to the row with the least key from `from` on, where nobody counts the rows that are read.
    pub(crate) fn way_from<L: Ledger>(&mut self, blank: Blank, from: Key) -> WayDown
        requires name { blank.name ≡ L.name }
        requires parts { blank.parts ≡ L.parts }
        requires some { 0 < blank.parts }
        ensures row { result.row ≡ nearest_row Right from (image self.old) }
        ensures levels { result.levels ≡ levels Right from (image self.old) }
        ensures view { self.new ≡ self.old }
    {
        let mut steps = Steps::<L>::new(blank);
        self.way_down(Side::Right, from, &mut steps)
    }
}
