//! A write at a row that has the key.
ghost use Rattle.snap_prelude.specs.{Among, call_key, IsOf};
ghost use Rattle.snap_search.specs.Prelude.{EndsHere};
ghost use Rattle.snap_update.specs.{Answers.FitsWord, Attempts.Attempts, Held.IsAtWork};

use crate::attempt::Attempt;
use crate::placed::live_stamp;
use snap_model::Call;
use snap_stamp::{Field, RowNo};
use snap_steps::{Pass, Rows, confirm_absent, load_key, load_word, store_value, value_of};

/// Writes at the held row where it is in the tree still. The row had the key, and keeps it for good: as long as it is in
/// the tree it is the place of the key, whatever its stamp is.
pub fn store_here(rows: &Rows, pass: &mut Pass, call: &Call, row: RowNo, epoch: u64) -> Attempt
    requires table { IsOf pass.old rows.now }
    requires at_work { IsAtWork pass.old.view row (call_key call.now) }
    requires epoch { Among epoch pass.old.view.words.present }
    requires place { EndsHere rows.now.rows pass.old.view (call_key call.now) epoch row }
    requires value { FitsWord call.now }
    ensures { Attempts rows.now.rows pass.old pass.new call.now result }
{
    let Some(_) = live_stamp(rows, pass, row, epoch) else {
        return Attempt::Again;
    };
    let key = load_key(rows, pass, row);
    match call {
        Call::Put { key: wanted, value } => {
            if *wanted != key {
                return Attempt::Again;
            }
            Attempt::Made(value_of(store_value(rows, pass, row, key, *value + 1)))
        }
        Call::Remove { key: wanted } => {
            if *wanted != key {
                return Attempt::Again;
            }
            if load_word(rows, pass, row, Field::Value) == 0 {
                confirm_absent(rows, pass, row, key);
                return Attempt::Made(None);
            }
            Attempt::Made(value_of(store_value(rows, pass, row, key, 0)))
        }
    }
}
