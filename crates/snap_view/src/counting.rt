//! How many pairs a clone has in a range, and how deep its tree is.
ghost use Rattle.std.specs.Prelude.{◌≡◌, ◌≤◌, ◌<◌, ◌*◌, ◌^◌, length};
ghost use Rattle.snap_prelude.specs.{after, count, depth, image, IsSettledTree, IsSubtree, least, Right, root, Tree};
ghost use Rattle.snap_view.specs.{Nearest.IsBehindRow, Nearest.levels, Tops.HasTree, Tops.IsDepthOf};

use crate::table_view::TableView;
use crate::way::{MOST_LEVELS, behind};
use snap_stamp::{Key, RowNo, Side};
use snap_steps::Steps;
use std::marker::Brand;
use std::sync::ledger::{Blank, Ledger};

// The next key behind the row's, if there are both.
fn past(row: Option<(Key, Option<u64>)>) -> Option<Key>
    ensures { IsBehindRow row result }
{
    match row {
        Some((key, _)) => behind(Side::Right, key),
        None => None,
    }
}

impl<'t> TableView<'t> {
    /// How many pairs have a key from `low` to `high`. It costs what an ascent through them costs.
    pub fn count(&mut self, low: Key, high: Key) -> u64
        ensures count { result ≡ count (after self.old.base) low high }
        ensures view { self.new ≡ self.old }
    {
        let _last = self.seat.next();
        let mut found: u64 = 0;
        for _ in self.range(low, high) {
            found += 1;
        }
        found
    }

    /// How many rows stand on the longest way down, 0 for an empty clone. In a tree of at most 64 levels it reads each
    /// row once; a deeper one is gone down once for each row. A settled clone is no deeper than an AVL tree of twice
    /// its pairs.
    pub fn depth(&mut self) -> u32
        ensures depth { result ≡ depth (image self.old) }
        ensures low { result ≤ self.old.next }
        ensures pairs { length (after self.old.base) < 2 ^ result }
        ensures shallow { IsSettledTree (image self.old)
            → least result ≤ 2 * length (after self.old.base) }
        ensures view { self.new ≡ self.old }
    {
        let _last = self.seat.next();
        self.any_depth()
    }

    /// How many rows stand on the way down to the row with the least key from this one on, and on to the way's end.
    pub fn levels_to(&mut self, key: Key) -> u32
        ensures levels { result ≡ levels Right key (image self.old) }
        ensures view { self.new ≡ self.old }
    {
        let way = self.way_from::<Brand>(Blank::new(1), key);
        way.levels
    }

    fn any_depth(&mut self) -> u32
        ensures depth { result ≡ depth (image self.old) }
        ensures view { self.new ≡ self.old }
    {
        match self.low_depth::<Brand>(Blank::new(1)) {
            Some(depth) => depth,
            None => self.sounded_depth(),
        }
    }

    // The depth of the clone's tree, where it has few levels.
    fn low_depth<L: Ledger>(&mut self, blank: Blank) -> Option<u32>
        requires name { blank.name ≡ L.name }
        requires parts { blank.parts ≡ L.parts }
        requires some { 0 < blank.parts }
        ensures depth { IsDepthOf (image self.old) MOST_LEVELS result }
        ensures view { self.new ≡ self.old }
    {
        let mut steps = Steps::<L>::new(blank);
        let row = self.seat.root();
        self.depth_at(row, MOST_LEVELS, &mut steps)
    }

    // The depth of the tree that stands at this row, where it has no more levels than these.
    fn depth_at<L: Ledger>(&mut self, row: RowNo, levels: u32, steps: &mut Steps<L>) -> Option<u32>
        requires { HasTree (image self.old) row }
        ensures depth { (t : Tree) → IsSubtree t (image self.old) → root t ≡ row
            → IsDepthOf t levels result }
        ensures view { self.new ≡ self.old }
    {
        match self.row_at(row, steps) {
            None => Some(0),
            Some(copy) => {
                let below = levels.checked_sub(1)?;
                let left = self.depth_at(copy.left, below, steps)?;
                let right = self.depth_at(copy.right, below, steps)?;
                let larger = left.max(right);
                let depth = larger + 1;
                Some(depth)
            }
        }
    }

    // The longest of the ways down to the gaps between rows, one after another, without a stack.
    fn sounded_depth(&mut self) -> u32
        ensures depth { result ≡ depth (image self.old) }
        ensures view { self.new ≡ self.old }
    {
        let _rows = self.rows;
        let mut deepest: u32 = 0;
        let mut next = Some(0);
        while let Some(from) = next {
            let way = self.way_from::<Brand>(Blank::new(1), from);
            deepest = deepest.max(way.levels);
            next = past(way.row);
        }
        deepest
    }
}
