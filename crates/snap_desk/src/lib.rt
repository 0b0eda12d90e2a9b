//! What workers put out on its way to files: a worker's desk, from which it goes out in pieces, and the collector, which
//! writes them.
#![tactic(auto)]

mod bell;
mod collecting;
mod desk;

pub use bell::Bell;
pub use collecting::Collector;
pub use desk::{Desk, REPLY_PIECE_BYTES};
