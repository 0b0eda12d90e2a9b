//! Pieces of output on their way out of the workers: each has a sender of its own, and one taker takes the pieces of all.
#![tactic(auto)]

mod line;
mod outlet;
mod piece;
mod post;
mod view;

pub use outlet::{MOST_SENDERS, OutReceipt, OutSender, Outlet, Taker};
pub use piece::{Piece, PieceBytes};
pub use post::{Post, Put};
