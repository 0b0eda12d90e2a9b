//! Two senders and a taker in one thread.
ghost use Rattle.std.specs.Prelude.{◌≡◌};

use crate::pieces::{Open, PIECES, end_sender, is_text, open_two, send_all, send_piece, take_into};
use snap_outlet::{Outlet, Taker};
use std::alloc::Global;
use std::process::Abort;
use std::sync::Wait;

// Worker 7 sends by the first sender, worker 8 by the second; each sends three pieces.
fn send_six<R: Wait + Abort>(rt: &R, alloc: Global) -> (Outlet, Taker)
    ensures { result.1.outlet ≡ result.0 }
{
    let Open {
        outlet,
        mut first,
        mut second,
        mut taker,
    } = open_two(rt, alloc);
    send_piece(rt, alloc, &outlet, &mut first, 7, 1);
    send_piece(rt, alloc, &outlet, &mut second, 8, 1);
    send_piece(rt, alloc, &outlet, &mut second, 8, 2);
    send_piece(rt, alloc, &outlet, &mut first, 7, 2);
    send_piece(rt, alloc, &outlet, &mut first, 7, 3);
    send_piece(rt, alloc, &outlet, &mut second, 8, 3);
    end_sender(&outlet, &mut taker, second);
    end_sender(&outlet, &mut taker, first);
    (outlet, taker)
}

fn take_seven<R: Wait + Abort>(rt: &R, alloc: Global) -> String {
    let (outlet, mut taker) = send_six(rt, alloc);
    let mut text = String::new(alloc);
    for _ in 0..7u32 {
        take_into(rt, alloc, &outlet, &mut taker, &mut text);
    }
    text
}

#[test]
fn pieces_come_in_their_order_and_then_none(rt: HostRuntime) {
    let text = take_seven(&rt, rt.alloc());
    is_text(&rt, text.as_str(), "7.1 8.1 8.2 7.2 7.3 8.3 - ");
}

// Takes before, between and after.
fn take_between<R: Wait + Abort>(rt: &R, alloc: Global) -> String {
    let Open {
        outlet,
        mut first,
        second: _,
        mut taker,
    } = open_two(rt, alloc);
    let mut text = String::new(alloc);
    take_into(rt, alloc, &outlet, &mut taker, &mut text);
    send_piece(rt, alloc, &outlet, &mut first, 7, 1);
    send_piece(rt, alloc, &outlet, &mut first, 7, 2);
    take_into(rt, alloc, &outlet, &mut taker, &mut text);
    send_piece(rt, alloc, &outlet, &mut first, 7, 3);
    take_into(rt, alloc, &outlet, &mut taker, &mut text);
    take_into(rt, alloc, &outlet, &mut taker, &mut text);
    take_into(rt, alloc, &outlet, &mut taker, &mut text);
    text
}

#[test]
fn none_comes_of_an_empty_outlet_alone(rt: HostRuntime) {
    let text = take_between(&rt, rt.alloc());
    is_text(&rt, text.as_str(), "- 7.1 7.2 7.3 - ");
}

// The sender isn't gathered, so no clause of `take` names what it has sent.
fn take_of_running<R: Wait + Abort>(rt: &R, alloc: Global) -> (u64, bool) {
    let Open {
        outlet,
        first,
        second: _,
        mut taker,
    } = open_two(rt, alloc);
    let _running = send_all(rt, alloc, &outlet, first, 7);
    let mut in_turn = 0u64;
    for number in 0..PIECES {
        if is_next(rt, &outlet, &mut taker, number) {
            in_turn = in_turn.saturating_add(1);
        }
    }
    (in_turn, outlet.take(rt, &mut taker).is_none())
}

fn is_next<R: Wait>(rt: &R, outlet: &Outlet, taker: &mut Taker, number: u64) -> bool
    requires { taker.old.outlet ≡ outlet.now }
    ensures { taker.new.outlet ≡ outlet.now }
{
    match outlet.take(rt, taker) {
        Some(piece) => piece.number == number,
        None => false,
    }
}

fn are<R: Abort>(rt: &R, found: (u64, bool), want: (u64, bool)) {
    assert_eq!(rt; found, want);
}

#[test]
fn each_take_has_the_next_piece_of_a_running_sender(rt: HostRuntime) {
    are(&rt, take_of_running(&rt, rt.alloc()), (100, true));
}
