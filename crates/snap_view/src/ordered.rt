//! The ordered answers of a clone. Where its tree is settled each goes down at most twice, since past a row without a
//! value the next row has one.
ghost use Rattle.std.specs.Prelude.{◌≡◌};
ghost use Rattle.snap_prelude.specs.{after, ceiling, first_pair, floor, higher, last_pair, lower};

use crate::table_view::TableView;
use crate::way::behind;
use snap_stamp::{Key, Side};

impl<'t> TableView<'t> {
    /// The pair with the least key. Where the clone's tree is settled it is found by two ways down at most, and so are
    /// those of the calls below; else each row without a value that is passed costs one more.
    pub fn first(&mut self) -> Option<(Key, u64)>
        ensures first { result ≡ first_pair (after self.old.base) }
        ensures view { self.new ≡ self.old }
    {
        self.pair_near(Side::Right, 0)
    }

    /// The pair with the greatest key.
    pub fn last(&mut self) -> Option<(Key, u64)>
        ensures last { result ≡ last_pair (after self.old.base) }
        ensures view { self.new ≡ self.old }
    {
        self.pair_near(Side::Left, Key::MAX)
    }

    /// The pair with the greatest key that is at most this one.
    pub fn floor(&mut self, key: Key) -> Option<(Key, u64)>
        ensures floor { result ≡ floor (after self.old.base) key }
        ensures view { self.new ≡ self.old }
    {
        self.pair_near(Side::Left, key)
    }

    /// The pair with the greatest key below this one.
    pub fn lower(&mut self, key: Key) -> Option<(Key, u64)>
        ensures lower { result ≡ lower (after self.old.base) key }
        ensures view { self.new ≡ self.old }
    {
        let before = behind(Side::Left, key)?;
        self.pair_near(Side::Left, before)
    }

    /// The pair with the least key that is at least this one.
    pub fn ceiling(&mut self, key: Key) -> Option<(Key, u64)>
        ensures ceiling { result ≡ ceiling (after self.old.base) key }
        ensures view { self.new ≡ self.old }
    {
        self.pair_near(Side::Right, key)
    }

    /// The pair with the least key above this one.
    pub fn higher(&mut self, key: Key) -> Option<(Key, u64)>
        ensures higher { result ≡ higher (after self.old.base) key }
        ensures view { self.new ≡ self.old }
    {
        let _rows = self.rows;
        let next = behind(Side::Right, key)?;
        self.pair_near(Side::Right, next)
    }
}
