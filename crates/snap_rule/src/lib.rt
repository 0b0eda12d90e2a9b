//! The rule of a table without its atomics: what holds of its words, its tree and its history at every moment, what
//! every step leaves of that to the readers of other passes, and what each kind of step does. `docs/rule.md` goes
//! through it.
//!
//! The types are plain data of which contracts speak; no program makes a value of them. A law is the contract of a
//! function with an empty body, and its statement stands in `specs/Laws`.
#![tactic(auto)]

pub mod change;
pub mod counterexamples;
pub mod debt;
pub mod heights;
pub mod kinds;
pub mod knowledge;
pub mod owing;
pub mod passes;
pub mod quiescence;
pub mod reader;
pub mod settled;

pub use change::Doing;
pub use debt::{Debt, Mark};
pub use quiescence::{Load, Trying};
pub use reader::{Point, Reading};
