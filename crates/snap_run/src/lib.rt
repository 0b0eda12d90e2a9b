//! From the command line to the last line printed: the plan of the words and files is carried out by a worker for each
//! script, the files are written, and the summary is told; or the first thing by which the run is stopped.
//!
//! What a run comes to is in `specs/Outcomes.antt`.
#![tactic(auto)]

mod carrying;
mod outcome;
mod replies;
mod reporting;
mod running;
mod summary;

pub use carrying::carry_out;
pub use outcome::Outcome;
pub use running::{run, tell};
