//! Pieces that a test sends, and the text of those that it takes.
ghost use Rattle.std.specs.Prelude.{◌≡◌};
ghost use Rattle.snap_outlet.specs.Outlets.{SenderAt, TakerAt, new_sender, new_taker};

use snap_model::{Name, OutOfMemory};
use snap_outlet::{OutReceipt, OutSender, Outlet, Piece, PieceBytes, Taker};
use std::alloc::{AllocError, Global};
use std::process::Abort;
use std::sync::Wait;

/// More than one block of the queue has room for.
pub(crate) const PIECES: u64 = 100;

/// An outlet with two senders.
pub(crate) struct Open {
    pub outlet: Outlet,
    pub first: OutSender,
    pub second: OutSender,
    pub taker: Taker,
}

pub(crate) fn open_two<R: Abort>(rt: &R, alloc: Global) -> Open
    ensures first { result.first ≡ new_sender result.outlet 0 }
    ensures second { result.second ≡ new_sender result.outlet 1 }
    ensures taker { result.taker ≡ new_taker result.outlet 2 }
{
    let (outlet, mut senders, taker) = Outlet::open(alloc, 2).expect(rt, "no memory");
    let second = senders.pop().expect(rt, "no second sender");
    let first = senders.pop().expect(rt, "no first sender");
    Open {
        outlet,
        first,
        second,
        taker,
    }
}

pub(crate) fn is_text<R: Abort>(rt: &R, found: &str, want: &str) {
    assert_eq!(rt; found, want);
}

/// The worker's piece of this number.
pub(crate) fn piece_of(alloc: Global, worker: u32, number: u64) -> Result<Piece, OutOfMemory> {
    let mut bytes = Vec::new(alloc);
    bytes.extend_from_slice(b"bytes")?;
    Ok(Piece {
        worker,
        number,
        file: Name::new(alloc, "file")?,
        bytes: PieceBytes::of(bytes),
    })
}

/// Sends the worker's piece of this number.
pub(crate) fn send_piece<R: Wait + Abort>(
    rt: &R,
    alloc: Global,
    outlet: &Outlet,
    sender: &mut OutSender,
    worker: u32,
    number: u64,
)
    requires { sender.old.outlet ≡ outlet.now }
    ensures { sender.new.outlet ≡ outlet.now }
{
    let piece = piece_of(alloc, worker, number).expect(rt, "no memory");
    let sent = outlet.send(rt, sender, piece).is_ok();
    assert!(rt; sent);
}

/// Sends so many pieces, numbered from 0.
pub(crate) fn send_all<R: Wait + Abort>(
    rt: &R,
    alloc: Global,
    outlet: &Outlet,
    mut sender: OutSender,
    worker: u32,
) -> OutSender
    requires { sender.outlet ≡ outlet.now }
    ensures { result.outlet ≡ outlet.now }
{
    for number in 0..PIECES {
        send_piece(rt, alloc, outlet, &mut sender, worker, number);
    }
    sender
}

/// Ends a sender, and lets the taker know.
pub(crate) fn end_sender(outlet: &Outlet, taker: &mut Taker, sender: OutSender)
    requires sender { sender.outlet ≡ outlet.now }
    requires taker { taker.old.outlet ≡ outlet.now }
    ensures { taker.new.outlet ≡ outlet.now }
{
    let receipt = outlet.finish(sender);
    outlet.gather(taker, receipt);
}

/// Takes a piece, and adds its worker and its number to the text, or a dash where there is none.
pub(crate) fn take_into<R: Wait + Abort>(
    rt: &R,
    alloc: Global,
    outlet: &Outlet,
    taker: &mut Taker,
    text: &mut String,
)
    requires { taker.old.outlet ≡ outlet.now }
    ensures { taker.new.outlet ≡ outlet.now }
{
    let taken = match outlet.take(rt, taker) {
        Some(piece) => shown(alloc, &piece),
        None => String::from_str(alloc, "- "),
    };
    let shown = taken.expect(rt, "no memory");
    text.push_str(shown.as_str()).expect(rt, "no memory");
}

fn shown(alloc: Global, piece: &Piece) -> Result<String, AllocError> {
    format!(in alloc; "{}.{} ", piece.worker, piece.number)
}
