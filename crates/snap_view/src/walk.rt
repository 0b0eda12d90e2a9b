//! The pairs of a clone, one after another, by rising or by falling keys.
ghost use Rattle.std.specs.{Prelude.◌≡◌, Iterator.item_count, Iterator.YieldsFirst};
ghost use Rattle.snap_view.specs.Walks.{begun, pairs_left};

use crate::ahead::RowsAhead;
use crate::table_view::TableView;
use crate::way::{behind, reaches};
use snap_stamp::{Key, Side};
use std::marker::{Brand, Model};
use std::sync::ledger::Blank;

/// The pairs of a clone whose keys lie in a range, toward one side. In a tree of at most 64 levels
/// each row is read once on the way through them, and two of its words may be loaded once before, so
/// that the processor has it at hand by then; in a deeper tree each pair may be looked for from the
/// clone's root.
#[derive(Drop)]
pub struct Walk<'t> {
    view: TableView<'t>,
    side: Side,
    next: Option<Key>,
    bound: Key,
    ahead: RowsAhead,
}

/// The pairs of a range by rising keys.
pub type Ascend<'t> = Walk<'t>;

/// The pairs of a range by falling keys.
pub type Descend<'t> = Walk<'t>;

impl<'t> Model for Walk<'t> {
    ghost use Rattle.snap_prelude.specs.{image};
    ghost use Rattle.snap_view.specs.Ahead.{AreAheadOf};
    ghost use Rattle.snap_view.specs.Walks.{Walked};

    ghost Value = { Walked };

    ghost view = { λ w. record { seat = w.view; side = w.side; next = w.next; bound = w.bound } };

    ghost invariant = { λ w. AreAheadOf w.side w.next (image w.view) w.ahead };
}

impl<'t> Walk<'t> {
    // The pairs of the view from this key on. It goes down once.
    pub(crate) fn begin(mut view: TableView<'t>, side: Side, from: Key, bound: Key) -> Walk<'t>
        ensures { result ≡ begun view.entry side from bound }
    {
        let ahead = view.rows_from::<Brand>(Blank::new(1), side, from);
        Walk {
            view,
            side,
            next: Some(from),
            bound,
            ahead,
        }
    }
}

impl<'t> Iterator for Walk<'t> {
    type Item = (Key, u64);

    ghost next_gives = { YieldsFirst pairs_left };

    ghost remaining = { item_count pairs_left };

    fn next(&mut self) -> Option<(Key, u64)> {
        let from = self.next?;
        let found = self
            .view
            .next_pair::<Brand>(Blank::new(1), self.side, from, &mut self.ahead);
        match found {
            Some((key, value)) if reaches(self.side.other(), self.bound, key) => {
                self.next = behind(self.side, key);
                Some((key, value))
            }
            _ => {
                self.next = None;
                None
            }
        }
    }
}
