//! Tests of whole runs, over a shelf and a sink in memory.
#![tactic(auto)]

#[cfg(test)]
mod asking;
#[cfg(test)]
mod asserts;
#[cfg(test)]
mod cases;
#[cfg(test)]
mod failing;
#[cfg(test)]
mod limits;
#[cfg(test)]
mod long;
#[cfg(test)]
mod meeting;
#[cfg(test)]
mod taking;
#[cfg(test)]
mod turns;
