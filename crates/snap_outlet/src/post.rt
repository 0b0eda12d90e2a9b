//! Where a worker puts its pieces: they go to its sender, and wait with it, in their order, where the outlet finds no
//! memory.
ghost use Rattle.std.specs.Prelude.{◌≡◌, ◌≢◌, ◌+◌, ◌≤◌, ◌∷◌, ◌++◌, [], All, IfOk, OnErr, OnOk, map, vec_capacity, vec_len};
ghost use Rattle.snap_outlet.specs.Outlets.{with_receipts};
ghost use Rattle.snap_outlet.specs.Posts.{IsPut, PutsOn, new_post};

use crate::outlet::{OutReceipt, OutSender, Outlet, Taker};
use crate::piece::Piece;
use snap_model::OutOfMemory;
use std::alloc::Global;
use std::collections::VecDeque;
use std::marker::Model;
use std::sync::Wait;

/// What became of a piece that was put at a post.
#[derive(Clone, Copy, Debug, PartialEq, Eq)]
pub enum Put {
    /// It is sent, with all that was put before it.
    Sent,
    /// It waits behind what the outlet found no memory for, or is that itself.
    Kept,
}

/// What one worker puts pieces out with. Contracts see what it has sent, and what waits for memory.
#[derive(Drop)]
pub struct Post {
    sender: OutSender,
    waiting: VecDeque<Piece>,
}

impl Model for Post {
    ghost use Rattle.snap_outlet.specs.Posts.{PostAt};

    ghost Value = { PostAt };

    ghost view = { λ p.
        record { outlet = p.sender.outlet; sent = p.sender.sent; waiting = p.waiting.items } };
}

impl Post {
    /// A post at which nothing waits. It takes no memory.
    pub fn new(alloc: Global, sender: OutSender) -> Post
        ensures { result ≡ new_post sender }
    {
        Post {
            sender,
            waiting: VecDeque::new(alloc),
        }
    }

    /// Ends a post: the sender's receipt, and the pieces that wait, in their order. It takes no memory.
    pub fn finish(self, outlet: &Outlet) -> (OutReceipt, VecDeque<Piece>)
        requires { self.outlet ≡ outlet.now }
        ensures outlet { result.0.outlet ≡ outlet.now }
        ensures sent { result.0.sent ≡ self.sent }
        ensures waiting { result.1.items ≡ self.waiting }
    {
        let Post { sender, waiting } = self;
        (outlet.finish(sender), waiting)
    }
}

impl Outlet {
    /// Puts a piece out behind all that the post has put: it is sent, and nothing waits any more; or the outlet found no
    /// memory for it or for one before it, and it waits. Want of memory comes only where it can't wait either; then it
    /// is lost, and nothing else.
    pub fn put_piece<R: Wait>(
        &self,
        rt: &R,
        post: &mut Post,
        piece: Piece,
    ) -> Result<Put, OutOfMemory>
        requires { post.old.outlet ≡ self.now }
        ensures put { OnOk result (PutsOn post.old (piece ∷ []) post.new) }
        ensures told { IfOk result (λ put. IsPut put post.new.waiting) }
        ensures stays { OnErr result (PutsOn post.old [] post.new) }
    {
        if self.put_waiting(rt, post).is_err() {
            post.waiting.push_back(piece)?;
            return Ok(Put::Kept);
        }
        self.send_or_keep(rt, post, piece)
    }

    // The same where nothing waits.
    fn send_or_keep<R: Wait>(
        &self,
        rt: &R,
        post: &mut Post,
        piece: Piece,
    ) -> Result<Put, OutOfMemory>
        requires outlet { post.old.outlet ≡ self.now }
        requires empty { post.old.waiting ≡ [] }
        ensures put { OnOk result (PutsOn post.old (piece ∷ []) post.new) }
        ensures told { IfOk result (λ put. IsPut put post.new.waiting) }
        ensures stays { OnErr result (post.new ≡ post.old) }
    {
        match self.send(rt, &mut post.sender, piece) {
            Ok(()) => Ok(Put::Sent),
            Err((piece, _)) => {
                post.waiting.push_back(piece)?;
                Ok(Put::Kept)
            }
        }
    }

    /// Sends what waits at a post: all of it, or up to the first piece for which the outlet finds no memory.
    pub fn put_waiting<R: Wait>(&self, rt: &R, post: &mut Post) -> Result<(), OutOfMemory>
        requires { post.old.outlet ≡ self.now }
        ensures stays { PutsOn post.old [] post.new }
        ensures all { OnOk result (post.new.waiting ≡ []) }
        ensures some { OnErr result (post.new.waiting ≢ []) }
    {
        while let Some(piece) = post.waiting.pop_front() {
            if let Err((piece, no_memory)) = self.send(rt, &mut post.sender, piece) {
                post.waiting.push_front_reserved(piece);
                return Err(no_memory);
            }
        }
        Ok(())
    }

    /// Ends the posts of all workers, in their order: the taker gets to know what each of them sent. What waits at them goes
    /// behind what waits already, to be put behind what the outlet holds. It takes no memory, which the list has to have.
    pub fn gather_posts(
        &self,
        taker: &mut Taker,
        posts: Vec<Post>,
        waiting: &mut Vec<VecDeque<Piece>>,
    )
        requires taker { taker.old.outlet ≡ self.now }
        requires posts { All (λ p. p.outlet ≡ self.now) posts.items }
        requires room { vec_len posts + vec_len waiting.old ≤ vec_capacity waiting.old }
        ensures outlet { taker.new.outlet ≡ self.now }
        ensures gathered { taker.new ≡ with_receipts taker.old (map (λ p. p.sent) posts.items) }
        ensures waiting { map (λ w. w.items) waiting.new.items
            ≡ map (λ w. w.items) waiting.old.items ++ map (λ p. p.waiting) posts.items }
    {
        for post in posts {
            let (receipt, rest) = post.finish(self);
            self.gather(taker, receipt);
            waiting.push_reserved(rest);
        }
    }
}
