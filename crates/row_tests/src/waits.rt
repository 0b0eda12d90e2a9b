//! Waiting for what another thread does, within a bound.
ghost use Rattle.std.specs.Prelude.{◌≤◌};
ghost use Rattle.snap_prelude.specs.{IsOf};

use snap_search::try_get;
use snap_stamp::{Field, Key, RowNo};
use snap_steps::{Pass, Rows, load_word};

// So many loads of a word take a second or two.
const MOST_LOADS: u32 = 100_000_000;

// In the time of these another thread goes on from one lock to the next.
const PAUSE: u32 = 2_000_000;

// Lets some time pass.
fn pause(rows: &Rows, reader: &mut Pass)
    requires { IsOf reader.old rows.now }
    ensures { IsOf reader.new rows.now }
{
    for turn in 0..PAUSE {
        let _turn = turn;
        let _ = load_word(rows, reader, RowNo::HOLDER, Field::Lock);
    }
}

/// Whether a value is found at the key in the end. Then some time passes.
pub(crate) fn comes(rows: &Rows, reader: &mut Pass, key: Key) -> bool
    requires { IsOf reader.old rows.now }
    ensures { IsOf reader.new rows.now }
{
    for turn in 0..MOST_LOADS {
        let _turn = turn;
        if matches!(try_get(rows, reader, key), Ok(Some(_))) {
            pause(rows, reader);
            return true;
        }
    }
    false
}

/// Whether the row is free in the end, once some time has passed.
pub(crate) fn comes_free(rows: &Rows, reader: &mut Pass, row: RowNo) -> bool
    requires table { IsOf reader.old rows.now }
    requires row { row ≤ rows.now.rows }
    ensures { IsOf reader.new rows.now }
{
    pause(rows, reader);
    for turn in 0..MOST_LOADS {
        let _turn = turn;
        if load_word(rows, reader, row, Field::Lock) == 0 {
            return true;
        }
    }
    false
}

/// Whether the row is held in the end.
pub(crate) fn comes_held(rows: &Rows, reader: &mut Pass, row: RowNo) -> bool
    requires table { IsOf reader.old rows.now }
    requires row { row ≤ rows.now.rows }
    ensures { IsOf reader.new rows.now }
{
    for turn in 0..MOST_LOADS {
        let _turn = turn;
        if load_word(rows, reader, row, Field::Lock) != 0 {
            return true;
        }
    }
    false
}
