//! Two posts and a taker in one thread.
ghost use Rattle.std.specs.Prelude.{◌≡◌};

use crate::pieces::{Open, is_text, open_two, piece_of, take_into};
use snap_outlet::{Outlet, Post, Put, Taker};
use std::alloc::Global;
use std::process::Abort;
use std::sync::Wait;

// An outlet with two posts.
struct Posts {
    outlet: Outlet,
    first: Post,
    second: Post,
    taker: Taker,
}

fn open_posts<R: Abort>(rt: &R, alloc: Global) -> Posts
    ensures first { result.first.outlet ≡ result.outlet }
    ensures second { result.second.outlet ≡ result.outlet }
    ensures taker { result.taker.outlet ≡ result.outlet }
{
    let Open {
        outlet,
        first,
        second,
        taker,
    } = open_two(rt, alloc);
    Posts {
        outlet,
        first: Post::new(alloc, first),
        second: Post::new(alloc, second),
        taker,
    }
}

fn is_sent<R: Abort>(rt: &R, put: Put) {
    assert_eq!(rt; put, Put::Sent);
}

// Puts the worker's piece of this number, which is sent at once.
fn put<R: Wait + Abort>(
    rt: &R,
    alloc: Global,
    outlet: &Outlet,
    post: &mut Post,
    worker: u32,
    number: u64,
)
    requires { post.old.outlet ≡ outlet.now }
    ensures { post.new.outlet ≡ outlet.now }
{
    let piece = piece_of(alloc, worker, number).expect(rt, "no memory");
    let put = outlet.put_piece(rt, post, piece).expect(rt, "no memory");
    is_sent(rt, put);
}

// Ends a post at which nothing waits, and lets the taker know.
fn end_post<R: Abort>(rt: &R, outlet: &Outlet, taker: &mut Taker, post: Post)
    requires post { post.outlet ≡ outlet.now }
    requires taker { taker.old.outlet ≡ outlet.now }
    ensures { taker.new.outlet ≡ outlet.now }
{
    let (receipt, waiting) = post.finish(outlet);
    outlet.gather(taker, receipt);
    let nothing_waits = waiting.is_empty();
    assert!(rt; nothing_waits);
}

fn take_three<R: Wait + Abort>(rt: &R, alloc: Global, outlet: &Outlet, taker: &mut Taker) -> String
    requires { taker.old.outlet ≡ outlet.now }
    ensures { taker.new.outlet ≡ outlet.now }
{
    let mut text = String::new(alloc);
    take_into(rt, alloc, outlet, taker, &mut text);
    take_into(rt, alloc, outlet, taker, &mut text);
    take_into(rt, alloc, outlet, taker, &mut text);
    text
}

// Takes three times while both posts are open, and three times once they have ended.
fn take_before_and_after<R: Wait + Abort>(rt: &R, alloc: Global) -> (String, String) {
    let Posts {
        outlet,
        mut first,
        mut second,
        mut taker,
    } = open_posts(rt, alloc);
    put(rt, alloc, &outlet, &mut first, 7, 1);
    put(rt, alloc, &outlet, &mut second, 8, 1);
    put(rt, alloc, &outlet, &mut second, 8, 2);
    let before = take_three(rt, alloc, &outlet, &mut taker);
    put(rt, alloc, &outlet, &mut second, 8, 3);
    put(rt, alloc, &outlet, &mut first, 7, 2);
    end_post(rt, &outlet, &mut taker, first);
    end_post(rt, &outlet, &mut taker, second);
    let after = take_three(rt, alloc, &outlet, &mut taker);
    (before, after)
}

#[test]
fn pieces_of_open_posts_are_taken(rt: HostRuntime) {
    let (before, _) = take_before_and_after(&rt, rt.alloc());
    is_text(&rt, before.as_str(), "7.1 8.1 8.2 ");
}

#[test]
fn the_rest_comes_of_ended_posts_and_then_none(rt: HostRuntime) {
    let (_, after) = take_before_and_after(&rt, rt.alloc());
    is_text(&rt, after.as_str(), "8.3 7.2 - ");
}
