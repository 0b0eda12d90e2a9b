//! Whether the tree of a clone is settled, and else what kept it from being so.
ghost use Rattle.std.specs.Prelude.{◌≡◌, ◌≤◌, ◌<◌, ℕ, ◌↔◌, ◌⊎◌, ◌≢◌, IsTrue, true, false};
ghost use Rattle.snap_prelude.specs.{HasValue, image, IsBalanced, IsSettledTree, IsSubtree, root, StampOut, Tree};
ghost use Rattle.snap_view.specs.{Balances.IsHeightOf, Balances.TellsBalance, Balances.with_out, Tops.HasTree};

use crate::table_view::TableView;
use crate::way::MOST_LEVELS;
use snap_stamp::RowNo;
use snap_steps::{RowCopy, Steps, load_stamp};
use std::marker::Brand;
use std::sync::ledger::{Blank, Ledger};

/// Whether the tree of a clone is settled, and else what kept it from being so.
#[derive(Clone, Copy, Debug, PartialEq, Eq)]
pub enum Settled {
    Yes,
    /// Every row of the table, so many, was handed out when the clone was cut.
    RowsOut { rows: u32 },
    /// The stamp of this row is at its greatest count.
    StampOut { row: RowNo },
}

// Whether a row of this height stands balanced over two heights.
fn is_balanced(height: u64, left: u64, right: u64) -> bool
    ensures { IsTrue result ↔ IsBalanced height left right }
{
    let larger = left.max(right);
    height == larger.saturating_add(1) && larger - left.min(right) <= 1
}

// Whether the row has a value or two children.
fn is_needed(copy: &RowCopy) -> bool
    ensures { IsTrue result ↔ HasValue copy.now.value ⊎ (copy.now.left ≢ 0) × (copy.now.right ≢ 0) }
{
    copy.value.is_some() || !copy.left.is_none() && !copy.right.is_none()
}

impl<'t> TableView<'t> {
    /// Whether the clone's tree is settled. Else every row was handed out when the clone was cut, or this call finds
    /// a row whose stamp is at its greatest count, and the view has it noted from then on.
    pub fn settled(&mut self) -> Settled
        ensures { TellsBalance self.old self.new result }
    {
        if self.is_settled::<Brand>(Blank::new(1)) {
            return Settled::Yes;
        }
        let rows = self.rows.count();
        if self.seat.next() == rows {
            return Settled::RowsOut { rows };
        }
        let row = self.row_out();
        Settled::StampOut { row }
    }

    fn is_settled<L: Ledger>(&mut self, blank: Blank) -> bool
        requires name { blank.name ≡ L.name }
        requires parts { blank.parts ≡ L.parts }
        requires some { 0 < blank.parts }
        ensures settled { IsTrue result ↔ IsSettledTree (image self.old) }
        ensures view { self.new ≡ self.old }
    {
        let mut steps = Steps::<L>::new(blank);
        let _all = self.rows.count();
        let row = self.seat.root();
        self.settled_height(row, MOST_LEVELS, &mut steps).is_some()
    }

    // The height of the tree that stands at this row, where it is settled and has no more levels than these.
    fn settled_height<L: Ledger>(
        &mut self,
        row: RowNo,
        levels: u32,
        steps: &mut Steps<L>,
    ) -> Option<u64>
        requires { HasTree (image self.old) row }
        ensures height { (t : Tree) → IsSubtree t (image self.old) → root t ≡ row
            → IsHeightOf t levels result }
        ensures view { self.new ≡ self.old }
    {
        let _rows = self.rows;
        match self.row_at(row, steps) {
            None => Some(0),
            Some(copy) => {
                let below = levels.checked_sub(1)?;
                let left = self.settled_height(copy.left, below, steps)?;
                let right = self.settled_height(copy.right, below, steps)?;
                if is_balanced(copy.height, left, right) && is_needed(&copy) {
                    Some(copy.height)
                } else {
                    None
                }
            }
        }
    }

    // The first row whose stamp is at its greatest count.
    fn row_out(&mut self) -> RowNo
        requires { (row : ℕ) × (self.old.balance ≡ StampOut row) }
        ensures row { (0 < result) × (result ≤ self.old.next) }
        ensures view { self.new ≡ with_out self.old result }
    {
        let _last = self.seat.next();
        let mut number = 1;
        while !self.is_out(RowNo::of(number)) {
            number += 1;
        }
        RowNo::of(number)
    }

    // Whether the row's stamp is at its greatest count.
    fn is_out(&mut self, row: RowNo) -> bool
        requires { row ≤ self.old.rows }
        ensures yes { result ≡ true → self.new ≡ with_out self.old row }
        ensures no { result ≡ false → self.new ≡ self.old }
        ensures cause { self.old.balance ≡ StampOut row → result ≡ true }
    {
        load_stamp(self.rows, &mut self.seat, row).is_last()
    }
}
