//! Two senders and the taker in three threads.
ghost use Rattle.std.specs.Prelude.{◌≡◌, ◌+◌, ℕ};

use crate::pieces::{Open, PIECES, end_sender, open_two, send_all};
use snap_outlet::{OutSender, Outlet, Taker};
use std::alloc::Global;
use std::process::Abort;
use std::sync::Wait;
use std::thread;
use std::thread::Threads;

// How many pieces have come of each worker, as long as each came in its turn.
#[derive(Clone, Copy, Debug, PartialEq, Eq)]
struct Came {
    of_first: u64,
    of_second: u64,
    in_turn: bool,
}

fn and_piece(came: Came, worker: u32, number: u64) -> Came {
    if worker == 0 {
        return Came {
            of_first: came.of_first.saturating_add(1),
            in_turn: came.in_turn && number == came.of_first,
            ..came
        };
    }
    Came {
        of_second: came.of_second.saturating_add(1),
        in_turn: came.in_turn && number == came.of_second,
        ..came
    }
}

// Takes until all pieces of both have come.
fn take_all<R: Wait>(rt: &R, outlet: &Outlet, mut taker: Taker) -> (Taker, Came)
    requires { taker.outlet ≡ outlet.now }
    ensures { result.0.outlet ≡ outlet.now }
{
    let mut came = Came {
        of_first: 0,
        of_second: 0,
        in_turn: true,
    };
    for _ in rt.forever() {
        match outlet.take(rt, &mut taker) {
            Some(piece) => came = and_piece(came, piece.worker, piece.number),
            None => thread::yield_now(),
        }
        if came.of_first.saturating_add(came.of_second) >= 2 * PIECES {
            break;
        }
    }
    (taker, came)
}

// What came, and whether nothing was left once both senders had ended.
fn meet<R: Threads + Wait + Sync + Abort>(rt: &R, alloc: Global) -> (Came, bool) {
    let Open {
        outlet,
        first,
        second,
        taker,
    } = open_two(rt, alloc);
    let ((first, second), (mut taker, came)) = thread::join(
        rt,
        || -> (OutSender, OutSender)
            requires { (first.outlet ≡ outlet) × (second.outlet ≡ outlet) }
            ensures { (result.0.outlet ≡ outlet) × (result.1.outlet ≡ outlet) }
        {
            thread::join(
                rt,
                || send_all(rt, alloc, &outlet, first, 0),
                || send_all(rt, alloc, &outlet, second, 1),
            )
        },
        || take_all(rt, &outlet, taker),
    );
    end_sender(&outlet, &mut taker, first);
    end_sender(&outlet, &mut taker, second);
    let is_empty = outlet.take(rt, &mut taker).is_none();
    (came, is_empty)
}

fn are<R: Abort>(rt: &R, found: (Came, bool), want: (Came, bool)) {
    assert_eq!(rt; found, want);
}

#[test]
fn threads_hand_out_each_piece_once(rt: HostRuntime) {
    let all = Came {
        of_first: 100,
        of_second: 100,
        in_turn: true,
    };
    are(&rt, meet(&rt, rt.alloc()), (all, true));
}
