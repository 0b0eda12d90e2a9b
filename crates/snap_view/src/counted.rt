//! The ordered answers of a clone, with a counter of the rows that they read. Where its tree is settled each goes down
//! at most twice, since past a row without a value the next row has one.
ghost use Rattle.std.specs.Prelude.{◌≡◌, ◌≤◌, ◌+◌, ◌*◌};
ghost use Rattle.snap_prelude.specs.{after, ceiling, depth, first_pair, floor};
ghost use Rattle.snap_prelude.specs.{higher, image, IsSettledTree, last_pair, lower};

use crate::table_view::TableView;
use crate::way::behind;
use snap_stamp::{Key, Side};
use snap_steps::Steps;
use std::sync::ledger::Ledger;

impl<'t> TableView<'t> {
    /// `first`, with a counter of the rows that it reads. Where the clone's tree is settled they are no more than two
    /// ways down have, and so are those of the calls below; else each row without a value that is passed costs one way
    /// more.
    pub fn first_counted<L: Ledger>(&mut self, steps: &mut Steps<L>) -> Option<(Key, u64)>
        ensures first { result ≡ first_pair (after self.old.base) }
        ensures view { self.new ≡ self.old }
        ensures steps { IsSettledTree (image self.old)
            → steps.new ≤ steps.old + depth (image self.old) }
    {
        self.nearest_pair(Side::Right, 0, steps)
    }

    /// `last`, with a counter of the rows that it reads.
    pub fn last_counted<L: Ledger>(&mut self, steps: &mut Steps<L>) -> Option<(Key, u64)>
        ensures last { result ≡ last_pair (after self.old.base) }
        ensures view { self.new ≡ self.old }
        ensures steps { IsSettledTree (image self.old)
            → steps.new ≤ steps.old + depth (image self.old) }
    {
        self.nearest_pair(Side::Left, Key::MAX, steps)
    }

    /// `floor`, with a counter of the rows that it reads.
    pub fn floor_counted<L: Ledger>(&mut self, key: Key, steps: &mut Steps<L>) -> Option<(Key, u64)>
        ensures floor { result ≡ floor (after self.old.base) key }
        ensures view { self.new ≡ self.old }
        ensures steps { IsSettledTree (image self.old)
            → steps.new ≤ steps.old + 2 * depth (image self.old) }
    {
        self.nearest_pair(Side::Left, key, steps)
    }

    /// `lower`, with a counter of the rows that it reads.
    pub fn lower_counted<L: Ledger>(&mut self, key: Key, steps: &mut Steps<L>) -> Option<(Key, u64)>
        ensures lower { result ≡ lower (after self.old.base) key }
        ensures view { self.new ≡ self.old }
        ensures steps { IsSettledTree (image self.old)
            → steps.new ≤ steps.old + 2 * depth (image self.old) }
    {
        let before = behind(Side::Left, key)?;
        self.nearest_pair(Side::Left, before, steps)
    }

    /// `ceiling`, with a counter of the rows that it reads.
    pub fn ceiling_counted<L: Ledger>(
        &mut self,
        key: Key,
        steps: &mut Steps<L>,
    ) -> Option<(Key, u64)>
        ensures ceiling { result ≡ ceiling (after self.old.base) key }
        ensures view { self.new ≡ self.old }
        ensures steps { IsSettledTree (image self.old)
            → steps.new ≤ steps.old + 2 * depth (image self.old) }
    {
        self.nearest_pair(Side::Right, key, steps)
    }

    /// `higher`, with a counter of the rows that it reads.
    pub fn higher_counted<L: Ledger>(
        &mut self,
        key: Key,
        steps: &mut Steps<L>,
    ) -> Option<(Key, u64)>
        ensures higher { result ≡ higher (after self.old.base) key }
        ensures view { self.new ≡ self.old }
        ensures steps { IsSettledTree (image self.old)
            → steps.new ≤ steps.old + 2 * depth (image self.old) }
    {
        let _rows = self.rows;
        let next = behind(Side::Right, key)?;
        self.nearest_pair(Side::Right, next, steps)
    }
}
