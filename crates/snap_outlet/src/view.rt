//! What lies in an outlet's queue, and what each seat at it knows.
use crate::piece::Piece;
use std::collections::LinkedList;

/// A piece in the queue, with the number of its sender.
#[derive(Drop)]
pub struct Parcel {
    pub sender: u32,
    pub piece: Piece,
}

/// A sender's number, and the pieces that it has sent, in their order. No value of it is made.
pub struct Sent {
    pub sender: u32,
    pub pieces: LinkedList<Piece>,
}

/// What the taker knows. No value of it is made.
pub struct Tally {
    /// How many senders there are.
    pub senders: u32,
    /// What it has taken, in its order.
    pub taken: LinkedList<Parcel>,
    /// What it knows to wait in the queue.
    pub waiting: LinkedList<Parcel>,
    /// What each sender whose receipt it has gathered sent in all.
    pub finished: LinkedList<Sent>,
}

/// What a seat knows. No value of it is made.
pub enum View {
    Sends(Sent),
    Takes(Tally),
    /// The seat of a sender that was gathered.
    Gathered,
}
