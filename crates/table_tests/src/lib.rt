//! Tests of tables by their public calls, by one thread in turns and by several at once. They stand in a crate of their
//! own, so that the table's crate is proved once and not once more with its tests.
#![tactic(auto)]

#[cfg(test)]
mod asserts;
#[cfg(test)]
mod balance;
#[cfg(test)]
mod clones;
#[cfg(test)]
mod map;
#[cfg(test)]
mod meeting;
#[cfg(test)]
mod ordered;
#[cfg(test)]
mod states;
#[cfg(test)]
mod stress;
