//! From the command line to what a run carries out: the words, the scripts and the load files that they name are read,
//! or scripts are made; nothing is written yet.
//!
//! Which plan words and files give, or the first thing by which the run is stopped, is in `specs/Endings.antt`.
#![tactic(auto)]

mod accepting;
mod loading;
mod making;
mod needs;
mod parsing;
mod plan;
mod reading;
mod scripts;
mod stop;
mod telling;

pub use accepting::accept;
pub use needs::Limit;
pub use plan::Plan;
pub use scripts::ScriptList;
pub use stop::Stop;
