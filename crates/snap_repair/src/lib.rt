//! Repair of balance after a write: routing rows are unlinked, rows are rotated, and heights set right, from the
//! place of the write upwards, up to a settled row beside which nothing is owed.
#![tactic(auto)]

mod answer;
mod ending;
mod held;
mod look;
mod repairing;
mod rising;
mod settling;
mod tilting;

pub use answer::Repaired;
pub use look::Look;
pub use repairing::repair;
