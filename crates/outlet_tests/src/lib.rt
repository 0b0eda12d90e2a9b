//! Tests of an outlet by its public calls, by one thread in turns and by several at once.
#![tactic(auto)]

#[cfg(test)]
mod order;
#[cfg(test)]
mod pieces;
#[cfg(test)]
mod posts;
#[cfg(test)]
mod threads;
