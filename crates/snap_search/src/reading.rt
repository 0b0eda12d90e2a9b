//! Reads.
ghost use Rattle.snap_prelude.specs.{IsOf};
ghost use Rattle.snap_search.specs.Answers.{Reads};

use crate::down::top;
use crate::search::look;
use snap_stamp::Key;
use snap_steps::{Pass, Rows, set_out};
use std::sync::Wait;

/// What the map has at the key after what the pass has then seen, which has each entry that was counted when the
/// call began. It waits for nothing but its own tries.
pub fn get<R: Wait>(rows: &Rows, rt: &R, pass: &mut Pass, key: Key) -> Option<u64>
    requires { IsOf pass.old rows.now }
    ensures { Reads pass.old pass.new key result }
{
    set_out(rows, pass, key);
    let mut spot = top();
    for _ in rt.forever() {
        match look(rows, pass, key, &spot) {
            Some(Ok(answer)) => return answer,
            Some(Err(next)) => spot = next,
            None => spot = top(),
        }
    }
    unreachable!()
}
