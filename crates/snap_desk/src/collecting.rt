//! The collector: it takes pieces and writes each to its file.
ghost use Rattle.std.specs.Prelude.{◌≡◌, ◌∷◌, ◌≤◌, [], List, ℕ, OnOk, map};
ghost use Rattle.snap_desk.specs.Collecting.{AreThere, CanDrain, Collects, Drains, GoesOnWriting, IsCollected};
ghost use Rattle.snap_desk.specs.Collecting.{IsReadyToWrite, as_piece, rests_from};
ghost use Rattle.snap_io.specs.Causes.{Rose};
ghost use Rattle.snap_io.specs.Shelves.{IfTold};
ghost use Rattle.snap_outlet.specs.Posts.{AreAllPut, AreNumbered, PostAt, parcels};
ghost use Rattle.snap_write.specs.Outputs.{is_named};

use crate::bell::Bell;
use snap_io::Shelf;
use snap_model::Name;
use snap_outlet::{Outlet, Piece, Taker};
use snap_write::{Unwritten, put};
use std::alloc::Global;
use std::collections::VecDeque;
use std::mem;
use std::sync::Wait;

/// What takes the pieces of all workers and writes them.
#[derive(Drop)]
pub struct Collector<'a> {
    pub taker: Taker,
    /// The reply files, which were made before. Without them no piece is written.
    pub names: Option<&'a [Name]>,
    /// Why nothing more is written, once something could not be.
    pub written: Result<(), Unwritten>,
}

impl Collector<'_> {
    /// Takes pieces until none is there, and writes each.
    pub fn drain<R: Wait, S: Shelf>(
        &mut self,
        rt: &R,
        alloc: Global,
        outlet: &Outlet,
        shelf: &mut S,
    )
        requires { CanDrain self.old outlet.now (S.files shelf.old) }
        ensures drains { Drains self.old self.new (S.files shelf.old) (S.files shelf.new)
            (S.write_faults shelf.old) (S.write_faults shelf.new) }
        ensures goes_on { GoesOnWriting S.files S.read_faults self.old self.new
            shelf.old shelf.new }
        ensures all_put { (posts : List PostAt)
            → self.old.taker.tally.finished ≡ map (λ p. p.sent) posts
            → AreNumbered 0 posts → AreAllPut self.new.taker.tally.taken posts }
    {
        for _ in rt.forever() {
            let Some(piece) = outlet.take(rt, &mut self.taker) else {
                return;
            };
            self.collect(alloc, shelf, &piece);
        }
        unreachable!()
    }

    /// Takes pieces and writes them while workers run beside this call. It returns once the bell has told that they have
    /// ended, or if they do not begin.
    pub fn take_beside<R: Wait, S: Shelf>(
        &mut self,
        rt: &R,
        alloc: Global,
        outlet: &Outlet,
        shelf: &mut S,
        bell: &Bell,
    )
        requires { CanDrain self.old outlet.now (S.files shelf.old) }
        ensures drains { Drains self.old self.new (S.files shelf.old) (S.files shelf.new)
            (S.write_faults shelf.old) (S.write_faults shelf.new) }
        ensures goes_on { GoesOnWriting S.files S.read_faults self.old self.new
            shelf.old shelf.new }
    {
        if !bell.has_begun(rt) {
            return;
        }
        for _ in rt.forever() {
            let ended = bell.has_ended();
            self.drain(rt, alloc, outlet, shelf);
            if ended {
                return;
            }
            bell.nap(rt);
        }
        unreachable!()
    }

    /// Writes what waited at the posts of all workers, post by post.
    pub fn collect_rests<S: Shelf>(
        &mut self,
        alloc: Global,
        shelf: &mut S,
        rests: Vec<VecDeque<Piece>>,
    )
        requires { IsReadyToWrite self.old (S.files shelf.old) }
        ensures taker { self.new.taker ≡ self.old.taker }
        ensures collects { Collects self.old self.new
            (rests_from 0 (map (λ r. r.items) rests.items))
            (S.files shelf.old) (S.files shelf.new)
            (S.write_faults shelf.old) (S.write_faults shelf.new) }
        ensures goes_on { GoesOnWriting S.files S.read_faults self.old self.new
            shelf.old shelf.new }
    {
        for rest in rests {
            self.collect_rest(alloc, shelf, rest);
        }
    }

    // Writes what waited at one post.
    fn collect_rest<S: Shelf>(&mut self, alloc: Global, shelf: &mut S, rest: VecDeque<Piece>)
        requires { IsReadyToWrite self.old (S.files shelf.old) }
        ensures taker { self.new.taker ≡ self.old.taker }
        ensures collects { (sender : ℕ)
            → Collects self.old self.new (parcels sender rest.items)
            (S.files shelf.old) (S.files shelf.new)
            (S.write_faults shelf.old) (S.write_faults shelf.new) }
        ensures goes_on { GoesOnWriting S.files S.read_faults self.old self.new
            shelf.old shelf.new }
    {
        let mut left = rest;
        while let Some(piece) = left.pop_front() {
            self.collect(alloc, shelf, &piece);
        }
    }

    /// Writes a piece to its file, where there are reply files and everything before it was written.
    pub fn collect<S: Shelf>(&mut self, alloc: Global, shelf: &mut S, piece: &Piece)
        requires { IsReadyToWrite self.old (S.files shelf.old) }
        ensures taker { self.new.taker ≡ self.old.taker }
        ensures collects { (sender : ℕ)
            → Collects self.old self.new ((record { sender = sender; piece = piece.now }) ∷ [])
            (S.files shelf.old) (S.files shelf.new)
            (S.write_faults shelf.old) (S.write_faults shelf.new) }
        ensures goes_on { GoesOnWriting S.files S.read_faults self.old self.new
            shelf.old shelf.new }
    {
        if let Some(names) = self.names {
            let written = mem::replace(&mut self.written, Ok(()));
            self.written = write_piece(alloc, shelf, names, written, piece);
        }
    }
}

// Writes a piece unless something could not be written before: to a reply file it is added, each other file it makes.
fn write_piece<S: Shelf>(
    alloc: Global,
    shelf: &mut S,
    names: &[Name],
    written: Result<(), Unwritten>,
    piece: &Piece,
) -> Result<(), Unwritten>
    requires { OnOk written (IfTold (S.files shelf.old) (AreThere names.now)) }
    ensures collected { (sender : ℕ)
        → IsCollected written result ((sender, as_piece names.now piece.now) ∷ [])
        (S.files shelf.old) (S.files shelf.new)
        (Rose (S.write_faults shelf.old) (S.write_faults shelf.new)) }
    ensures ready { OnOk result (IfTold (S.files shelf.new) (AreThere names.now)) }
    ensures later { S.write_faults shelf.old ≤ S.write_faults shelf.new }
    ensures reads { S.read_faults shelf.new ≡ S.read_faults shelf.old }
{
    match written {
        Err(why) => Err(why),
        Ok(()) => {
            let makes = !is_among(names, &piece.file);
            put(alloc, shelf, &piece.file, makes, piece.bytes.list())
        }
    }
}

// Whether the name is one of these.
fn is_among(names: &[Name], name: &Name) -> bool
    ensures { result ≡ is_named names.now name.now }
{
    names.iter().any(|known| known.same(name))
}
