//! A plain sorted map, one list of pairs: what the concurrent map is measured and tested against.
ghost use Rattle.std.specs.Prelude.{◌≡◌, ◌↔◌, [], IsTrue, length, ℕ, IfOk, IfErr, IsSome, IsOk, OnErr, nat_lt, nat_le};
ghost use Rattle.snap_model.specs.SortedMap.{Pairs, IsSortedMap, at, after_put, after_remove, first_pair, last_pair, range, count, floor, lower, ceiling, higher};
ghost use Rattle.snap_model.specs.Places.{IsFoundAt, IsGapAt, IsCutAt};

use crate::{Key, OutOfMemory};
use std::alloc::Global;
use std::marker::Model;

/// A map from keys to values as one sorted list of pairs, which is how contracts see it.
///
/// It finds a key by binary search. A put of an absent key and a removal move the pairs behind it.
#[derive(Debug, Drop)]
pub struct PlainMap {
    pairs: Vec<(Key, u64)>,
}

impl Model for PlainMap {
    ghost Value = { Pairs };

    ghost view = { λ m. m.pairs.items };

    ghost invariant = { λ m. IsSortedMap m.pairs.items };
}

impl PlainMap {
    /// The empty map. It takes no memory yet, and will take it from `alloc`.
    pub fn new(alloc: Global) -> PlainMap
        ensures { result ≡ [] }
    {
        PlainMap {
            pairs: Vec::new(alloc),
        }
    }

    /// How many pairs the map has.
    pub fn len(&self) -> usize
        ensures { result ≡ length self.now }
    {
        self.pairs.len()
    }

    /// Whether the map has no pair.
    pub fn is_empty(&self) -> bool
        ensures { IsTrue result ↔ (self.now ≡ []) }
    {
        self.pairs.is_empty()
    }

    /// Sets the key, and answers the value that was there.
    ///
    /// Only a key that is absent can want memory; the map is then as before.
    pub fn put(&mut self, key: Key, value: u64) -> Result<Option<u64>, OutOfMemory>
        ensures was { IfOk result (λ was. was ≡ at self.old key) }
        ensures map { IfOk result (λ _. self.new ≡ after_put self.old key value) }
        ensures refused { OnErr result (self.new ≡ self.old) }
        ensures known_key_fits { IsSome (at self.old key) → IsOk result }
    {
        match self.search(key) {
            Ok(place) => {
                let was = self.pairs[place].1;
                self.pairs[place] = (key, value);
                Ok(Some(was))
            }
            Err(place) => {
                self.pairs.insert(place, (key, value))?;
                Ok(None)
            }
        }
    }

    /// Takes the key out, and answers its value.
    pub fn remove(&mut self, key: Key) -> Option<u64>
        ensures was { result ≡ at self.old key }
        ensures map { self.new ≡ after_remove self.old key }
    {
        match self.search(key) {
            Ok(place) => Some(self.pairs.remove(place).1),
            Err(_) => None,
        }
    }

    /// The value at the key.
    pub fn get(&self, key: Key) -> Option<u64>
        ensures { result ≡ at self.now key }
    {
        match self.search(key) {
            Ok(place) => Some(self.pairs[place].1),
            Err(_) => None,
        }
    }

    /// The pair with the least key.
    pub fn first(&self) -> Option<(Key, u64)>
        ensures { result ≡ first_pair self.now }
    {
        self.pairs.first().copied()
    }

    /// The pair with the greatest key.
    pub fn last(&self) -> Option<(Key, u64)>
        ensures { result ≡ last_pair self.now }
    {
        self.pairs.last().copied()
    }

    /// The pair with the greatest key that is at most this one.
    pub fn floor(&self, key: Key) -> Option<(Key, u64)>
        ensures { result ≡ floor self.now key }
    {
        self.pairs[..count_up_to(&self.pairs, key)].last().copied()
    }

    /// The pair with the greatest key below this one.
    pub fn lower(&self, key: Key) -> Option<(Key, u64)>
        ensures { result ≡ lower self.now key }
    {
        self.pairs[..count_below(&self.pairs, key)].last().copied()
    }

    /// The pair with the least key that is at least this one.
    pub fn ceiling(&self, key: Key) -> Option<(Key, u64)>
        ensures { result ≡ ceiling self.now key }
    {
        self.pairs[count_below(&self.pairs, key)..].first().copied()
    }

    /// The pair with the least key above this one.
    pub fn higher(&self, key: Key) -> Option<(Key, u64)>
        ensures { result ≡ higher self.now key }
    {
        self.pairs[count_up_to(&self.pairs, key)..].first().copied()
    }

    /// The pairs with `lo <= key <= hi`, rising; none where `lo > hi`.
    pub fn range(&self, lo: Key, hi: Key) -> &[(Key, u64)]
        ensures { result.now ≡ range self.now lo hi }
    {
        let from = &self.pairs[count_below(&self.pairs, lo)..];
        &from[..count_up_to(from, hi)]
    }

    /// How many pairs have `lo <= key <= hi`.
    pub fn count(&self, lo: Key, hi: Key) -> u64
        ensures { result ≡ count self.now lo hi }
    {
        self.range(lo, hi).len() as u64
    }

    /// An equal map of its own.
    pub fn copy(&self) -> Result<PlainMap, OutOfMemory>
        ensures { IfOk result (λ copy. copy ≡ self.now) }
    {
        Ok(PlainMap {
            pairs: self.pairs.clone()?,
        })
    }

    // Where the key is, or where it would go.
    fn search(&self, key: Key) -> Result<usize, usize>
        ensures found { IfOk result (IsFoundAt self.now key) }
        ensures absent { IfErr result (IsGapAt self.now key) }
    {
        self.pairs.binary_search_by_key(&key, |&(k, _)| k)
    }
}

// How many of the sorted pairs have a key below this one.
fn count_below(pairs: &[(Key, u64)], key: Key) -> usize
    requires { IsSortedMap pairs.now }
    ensures { IsCutAt (λ p. nat_lt p.0 key) pairs.now result }
{
    pairs.partition_point(|pair| pair.0 < key)
}

// How many of the sorted pairs have a key of at most this one.
fn count_up_to(pairs: &[(Key, u64)], key: Key) -> usize
    requires { IsSortedMap pairs.now }
    ensures { IsCutAt (λ p. nat_le p.0 key) pairs.now result }
{
    pairs.partition_point(|pair| pair.0 <= key)
}
