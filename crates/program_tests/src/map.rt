use crate::asserts::{are_pairs, holds, is};
use snap_model::{Command, Key, Name, PlainMap};
use std::alloc::Global;
use std::process::Abort;

fn map_of<R: Abort>(rt: &R, alloc: Global, pairs: &[(Key, u64)]) -> PlainMap {
    let mut map = PlainMap::new(alloc);
    for pair in pairs {
        put(rt, &mut map, pair.0, pair.1);
    }
    map
}

fn put<R: Abort>(rt: &R, map: &mut PlainMap, key: Key, value: u64) -> Option<u64> {
    map.put(key, value).expect(rt, "no memory")
}

#[test]
fn puts_and_removals_answer_what_was_there(rt: HostRuntime) {
    let mut map = PlainMap::new(rt.alloc());
    is(&rt, put(&rt, &mut map, 5, 50), None);
    is(&rt, put(&rt, &mut map, 5, 51), Some(50));
    is(&rt, map.get(5), Some(51));
    is(&rt, map.remove(5), Some(51));
    is(&rt, map.remove(5), None);
    is(&rt, map.get(5), None);
}

/// Of a map with the keys 0, 2, 9 and the greatest.
fn counts_its_pairs<R: Abort>(rt: &R, map: &PlainMap) {
    is(rt, map.len(), 4);
    holds(rt, !map.is_empty());
    is(rt, map.range(9, 1).len(), 0);
    is(rt, map.count(2, 2), 1);
    is(rt, map.count(3, 8), 0);
}

#[test]
fn pairs_stand_by_rising_keys(rt: HostRuntime) {
    let pairs = [(9, 1), (2, 2), (u64::MAX, 3), (0, 4), (2, 5)];
    let map = map_of(&rt, rt.alloc(), &pairs);
    let all = [(0, 4), (2, 5), (9, 1), (u64::MAX, 3)];
    are_pairs(&rt, map.range(0, u64::MAX), &all);
    are_pairs(&rt, map.range(1, 9), &[(2, 5), (9, 1)]);
    counts_its_pairs(&rt, &map);
}

#[test]
fn neighbours_at_the_ends(rt: HostRuntime) {
    let map = map_of(&rt, rt.alloc(), &[(u64::MAX, 0), (7, 70)]);
    is(&rt, map.higher(u64::MAX - 1), Some((u64::MAX, 0)));
    is(&rt, map.higher(u64::MAX), None);
    is(&rt, map.floor(u64::MAX), Some((u64::MAX, 0)));
    is(&rt, map.ceiling(0), Some((7, 70)));
    is(&rt, map.lower(7), None);
    is(&rt, map.first(), Some((7, 70)));
    is(&rt, map.last(), Some((u64::MAX, 0)));
}

#[test]
fn an_empty_map_has_no_pair(rt: HostRuntime) {
    let empty = PlainMap::new(rt.alloc());
    is(&rt, empty.first(), None);
    is(&rt, empty.last(), None);
    is(&rt, empty.floor(0), None);
}

#[test]
fn a_copy_does_not_follow(rt: HostRuntime) {
    let mut map = map_of(&rt, rt.alloc(), &[(1, 10), (2, 20)]);
    let copy = map.copy().expect(&rt, "no memory");
    put(&rt, &mut map, 1, 11);
    map.remove(2);
    is(&rt, copy.get(1), Some(10));
    is(&rt, copy.get(2), Some(20));
    is(&rt, map.count(0, 9), 1);
}

fn name<R: Abort>(rt: &R, alloc: Global, text: &str) -> Name {
    Name::new(alloc, text).expect(rt, "no memory")
}

#[test]
fn names_are_their_bytes(rt: HostRuntime) {
    let main = name(&rt, rt.alloc(), "main");
    is(&rt, main.text(), "main");
    holds(&rt, main.same(&name(&rt, rt.alloc(), "main")));
    holds(&rt, !main.same(&name(&rt, rt.alloc(), "Main")));
}

// The other commands are shown in the tests of scripts.
#[test]
fn a_question_for_the_depth_is_shown(rt: HostRuntime) {
    let shown = format!(in rt.alloc(); "{:?}", Command::Depth { slot: 3 }).expect(&rt, "no memory");
    is(&rt, shown.as_str(), "Depth { slot: 3 }");
}
