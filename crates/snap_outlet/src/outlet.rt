//! The outlet, its senders and its taker.
ghost use Rattle.std.specs.Prelude.{◌≡◌, ◌+◌, ◌++◌, ◌∷◌, ◌≤◌, [], All, IfErr, IfNone, IfOk, IfSome, List, OnOk, map};
ghost use Rattle.snap_outlet.specs.Outlets.{IsAll, IsInOrder, TakesNext, and_piece, new_sender, new_senders, new_taker};
ghost use Rattle.snap_outlet.specs.Posts.{AreAllPut, AreNumbered, PostAt};

use crate::line::{Fetches, Gathers, Line, LinePass, Makes, Posts};
use crate::piece::Piece;
use crate::view::Parcel;
use snap_model::OutOfMemory;
use std::alloc::Global;
use std::marker::Model;
use std::sync::Wait;

/// The most senders of an outlet.
pub const MOST_SENDERS: u32 = 32;

/// A queue by which senders hand pieces to one taker. Contracts see which one it is.
pub struct Outlet {
    line: Line,
}

impl Model for Outlet {
    ghost use Rattle.snap_outlet.specs.Outlets.{OutletId};

    ghost Value = { OutletId };

    ghost view = { λ o. o.line.web };
}

impl Drop for Outlet {
    fn drop(self) {
        let Outlet { line } = self;
        line.destroy();
    }
}

/// What one worker sends pieces with. Contracts see its number and what it has sent.
#[derive(Drop)]
pub struct OutSender {
    pass: LinePass,
    number: u32,
}

impl Model for OutSender {
    ghost use Rattle.std.specs.Prelude.{◌≡◌, None};
    ghost use Rattle.snap_outlet.specs.Outlets.{SenderAt};
    ghost use Rattle.snap_outlet.specs.Rule.{sent_in};
    ghost use Rattle.snap_outlet.specs.Seats.{IsNumbered, IsSenders};

    ghost Value = { SenderAt };

    ghost view = { λ s. record { outlet = s.pass.web; sent = sent_in s.pass.me.view.client } };

    ghost invariant = { λ s. (s.pass.me.hand ≡ None) × (s.pass.me.spare ≡ None)
        × IsSenders s.pass.me.view.client × IsNumbered s.pass.me.view.client s.number };
}

/// A sender that has ended. Contracts see what it sent in all.
#[derive(Drop)]
pub struct OutReceipt {
    pass: LinePass,
}

impl Model for OutReceipt {
    ghost use Rattle.std.specs.Prelude.{◌≡◌, None};
    ghost use Rattle.snap_outlet.specs.Outlets.{SenderAt};
    ghost use Rattle.snap_outlet.specs.Rule.{sent_in};
    ghost use Rattle.snap_outlet.specs.Seats.{IsSenders};

    ghost Value = { SenderAt };

    ghost view = { λ s. record { outlet = s.pass.web; sent = sent_in s.pass.me.view.client } };

    ghost invariant = { λ s. (s.pass.me.hand ≡ None) × (s.pass.me.spare ≡ None)
        × IsSenders s.pass.me.view.client };
}

/// What takes the pieces of all senders. Contracts see what it has taken, and what each sender sent whose receipt it has
/// gathered.
#[derive(Drop)]
pub struct Taker {
    pass: LinePass,
}

impl Model for Taker {
    ghost use Rattle.std.specs.Prelude.{◌≡◌, None};
    ghost use Rattle.snap_outlet.specs.Outlets.{TakerAt};
    ghost use Rattle.snap_outlet.specs.Rule.{tally_in};
    ghost use Rattle.snap_outlet.specs.Seats.{IsTakers};

    ghost Value = { TakerAt };

    ghost view = { λ t. record { outlet = t.pass.web; tally = tally_in t.pass.me.view.client } };

    ghost invariant = { λ t. (t.pass.me.hand ≡ None) × (t.pass.me.spare ≡ None)
        × IsTakers t.pass.me.view.client };
}

impl Outlet {
    /// An empty outlet with so many senders, at most 32, and its taker. It takes memory for the list of senders
    /// and for the first pieces.
    pub fn open(alloc: Global, senders: u32) -> Result<(Outlet, Vec<OutSender>, Taker), OutOfMemory>
        requires a_sender { 1 ≤ senders }
        requires few_senders { senders ≤ MOST_SENDERS }
        ensures senders { IfOk result (λ opened. opened.1.items ≡ new_senders opened.0 senders) }
        ensures taker { IfOk result (λ opened. opened.2 ≡ new_taker opened.0 senders) }
    {
        let (outlet, mut taker) = Outlet::without_senders(alloc)?;
        let mut made = Vec::new(alloc);
        for number in 0..senders {
            made.push(outlet.make(&mut taker, number))?;
        }
        Ok((outlet, made, taker))
    }

    fn without_senders(alloc: Global) -> Result<(Outlet, Taker), OutOfMemory>
        ensures { IfOk result (λ opened. opened.1 ≡ new_taker opened.0 0) }
    {
        let (line, pass) = Line::with_rule(alloc)?;
        Ok((Outlet { line }, Taker { pass }))
    }

    // The sender of the next number.
    fn make(&self, taker: &mut Taker, number: u32) -> OutSender
        requires taker { taker.old ≡ new_taker self.now number }
        ensures taker { taker.new ≡ new_taker self.now (number + 1) }
        ensures sender { result ≡ new_sender self.now number }
    {
        let pass = self.line.another::<Makes>(&mut taker.pass);
        OutSender { pass, number }
    }

    /// Sends a piece, behind those that the sender has sent. Want of memory hands it back, and changes nothing. Few
    /// sends take memory, one in 31 or so. It may wait for a thread that is in the midst of sending.
    pub fn send<R: Wait>(
        &self,
        rt: &R,
        sender: &mut OutSender,
        piece: Piece,
    ) -> Result<(), (Piece, OutOfMemory)>
        requires sender { sender.old.outlet ≡ self.now }
        ensures sent { OnOk result
            (sender.new ≡ record sender.old { sent = and_piece sender.old.sent piece }) }
        ensures refused { IfErr result (λ refused. refused.0 ≡ piece) }
        ensures stays { IfErr result (λ _. sender.new ≡ sender.old) }
    {
        let parcel = Parcel {
            sender: sender.number,
            piece,
        };
        match self.line.push_as::<Posts, R>(rt, &mut sender.pass, parcel) {
            Ok(()) => Ok(()),
            Err(Parcel { sender: _, piece }) => Err((piece, OutOfMemory)),
        }
    }

    /// Takes the next piece. `None` comes only where everything that gathered senders sent was taken; by the code, where
    /// the outlet was empty at a moment of this call. It takes no memory, and may wait for a thread that is in the midst
    /// of sending.
    pub fn take<R: Wait>(&self, rt: &R, taker: &mut Taker) -> Option<Piece>
        requires taker { taker.old.outlet ≡ self.now }
        ensures outlet { taker.new.outlet ≡ self.now }
        ensures next { IfSome result (λ piece. TakesNext taker.old.tally piece taker.new.tally) }
        ensures in_order { All (IsInOrder taker.new.tally.taken) taker.new.tally.finished }
        ensures stays { IfNone result (taker.new ≡ taker.old) }
        ensures empty { IfNone result (taker.old.tally.waiting ≡ []) }
        ensures all { IfNone result (All (IsAll taker.new.tally.taken) taker.new.tally.finished) }
        ensures all_put { IfNone result
            ((posts : List PostAt) → taker.old.tally.finished ≡ map (λ p. p.sent) posts
            → AreNumbered 0 posts → AreAllPut taker.new.tally.taken posts) }
    {
        let parcel = self.line.pop_as::<Fetches, R>(rt, &mut taker.pass)?;
        Some(parcel.piece)
    }

    /// Ends a sender: what is left of it is what it sent. It takes no memory.
    pub fn finish(&self, sender: OutSender) -> OutReceipt
        requires { sender.outlet ≡ self.now }
        ensures { result ≡ sender }
    {
        let OutSender { pass, number: _ } = sender;
        OutReceipt { pass }
    }

    /// The taker gets to know what an ended sender sent. It takes no memory. Once every sender was gathered, a `None` of
    /// `take` says that everything was taken.
    pub fn gather(&self, taker: &mut Taker, receipt: OutReceipt)
        requires taker { taker.old.outlet ≡ self.now }
        requires receipt { receipt.outlet ≡ self.now }
        ensures { taker.new
            ≡ record taker.old {
              tally = record taker.old.tally
                  { finished = taker.old.tally.finished ++ receipt.sent ∷ [] };
            } }
    {
        let OutReceipt { pass } = receipt;
        self.line.absorb::<Gathers>(&mut taker.pass, pass);
    }
}
