//! A worker's desk: its post, and the lines of replies that are not put out yet. They go out in pieces of some length, an
//! export as one piece.
ghost use Rattle.std.specs.Prelude.{◌≡◌, ◌≢◌, ◌<◌, ◌^◌, ◌+◌, ◌∷◌, ◌++◌, [], None, List, ℕ, OnErr, OnOk, length};
ghost use Rattle.snap_desk.specs.Answers.{Answered, and_answer, exported_file, full_of};
ghost use Rattle.snap_desk.specs.Puts.{AreFor, AreIn, AreOthers, GoesOnPutting, HoldsAnswered, IsCounted, IsEnded};
ghost use Rattle.snap_desk.specs.Puts.{IsSame, KeepsShort, PutsBehind, PutsOne};
ghost use Rattle.snap_outlet.specs.Posts.{PutsOn, put_at};
ghost use Rattle.snap_text.specs.Replies.{IsReplyOf, reply_text};

use snap_model::{Command, Name, OutOfMemory, Reply};
use snap_outlet::{Outlet, Piece, PieceBytes, Post};
use snap_text::reply_line;
use std::alloc::Global;
use std::mem;
use std::sync::Wait;

/// The reply text at which a piece of it is put out before the worker has ended.
pub const REPLY_PIECE_BYTES: usize = 65_536;

/// Where one worker leaves what its commands come to.
#[derive(Drop)]
pub struct Desk {
    pub post: Post,
    /// The reply file. Without one nothing is put out.
    pub reply: Option<Name>,
    /// The worker's number.
    pub who: u32,
    /// How many pieces were put out.
    pub pieces: u64,
    /// The reply lines that are not put out yet.
    pub lines: Vec<u8>,
    /// How many replies are `full` or `full after N`.
    pub full: u64,
}

impl Desk {
    /// A desk at which nothing was put yet.
    pub fn new(alloc: Global, post: Post, reply: Option<Name>, who: u32) -> Desk
        ensures post { result.post ≡ post }
        ensures reply { result.reply ≡ reply }
        ensures who { result.who ≡ who }
        ensures pieces { result.pieces ≡ 0 }
        ensures lines { result.lines.items ≡ [] }
        ensures full { result.full ≡ 0 }
    {
        Desk {
            post,
            reply,
            who,
            pieces: 0,
            lines: Vec::new(alloc),
            full: 0,
        }
    }

    /// Adds the reply of a command, and the text that it exports.
    pub fn add<R: Wait>(
        &mut self,
        rt: &R,
        alloc: Global,
        outlet: &Outlet,
        command: &Command,
        reply: &Reply,
        text: Vec<u8>,
    ) -> Result<(), OutOfMemory>
        requires outlet { self.old.post.outlet ≡ outlet.now }
        requires reply { IsReplyOf command.now reply.now }
        requires others { AreOthers self.old.reply (exported_file command.now text.items) }
        requires few { self.old.full < 2 ^ 63 }
        ensures goes_on { GoesOnPutting self.old self.new (exported_file command.now text.items) }
        ensures answer { OnOk result
            ((a : Answered) → HoldsAnswered self.old a
            → HoldsAnswered self.new (and_answer a command.now reply.now text.items)) }
        ensures short { OnOk result
            (self.new.reply ≢ None → length self.new.lines.items < REPLY_PIECE_BYTES) }
        ensures kept { OnOk result
            (self.new.reply ≢ None
            → KeepsShort self.old self.new (reply_text command.now reply.now) REPLY_PIECE_BYTES) }
        ensures none { self.old.reply ≡ None
            → (put_at self.new.post ≡ put_at self.old.post) × (self.new.lines ≡ self.old.lines) }
    {
        self.full += full_of(reply);
        if self.reply.is_none() {
            return Ok(());
        }
        self.add_lines(rt, alloc, outlet, command, reply)?;
        self.put_export(rt, alloc, outlet, command, text)
    }

    /// Puts out the lines that are left. It is for the worker's end.
    pub fn finish<R: Wait>(
        &mut self,
        rt: &R,
        alloc: Global,
        outlet: &Outlet,
    ) -> Result<(), OutOfMemory>
        requires { self.old.post.outlet ≡ outlet.now }
        ensures goes_on { GoesOnPutting self.old self.new [] }
        ensures ended { OnOk result
            ((a : Answered) → HoldsAnswered self.old a → IsEnded self.new a) }
        ensures none { self.old.reply ≡ None → put_at self.new.post ≡ put_at self.old.post }
    {
        if self.lines.is_empty() {
            return Ok(());
        }
        self.put_lines(rt, alloc, outlet)
    }

    // Adds the line of a reply, and puts the lines out once they are long enough.
    fn add_lines<R: Wait>(
        &mut self,
        rt: &R,
        alloc: Global,
        outlet: &Outlet,
        command: &Command,
        reply: &Reply,
    ) -> Result<(), OutOfMemory>
        requires outlet { self.old.post.outlet ≡ outlet.now }
        requires reply { IsReplyOf command.now reply.now }
        ensures goes_on { GoesOnPutting self.old self.new [] }
        ensures adds { OnOk result
            (PutsBehind self.old self.new (reply_text command.now reply.now) []) }
        ensures short { OnOk result
            (self.new.reply ≢ None → length self.new.lines.items < REPLY_PIECE_BYTES) }
        ensures kept { OnOk result
            (KeepsShort self.old self.new (reply_text command.now reply.now) REPLY_PIECE_BYTES) }
    {
        reply_line(alloc, command, reply, &mut self.lines)?;
        if self.lines.len() < REPLY_PIECE_BYTES {
            return Ok(());
        }
        self.put_lines(rt, alloc, outlet)
    }

    // Puts the lines out as one piece.
    fn put_lines<R: Wait>(
        &mut self,
        rt: &R,
        alloc: Global,
        outlet: &Outlet,
    ) -> Result<(), OutOfMemory>
        requires { self.old.post.outlet ≡ outlet.now }
        ensures goes_on { GoesOnPutting self.old self.new [] }
        ensures adds { OnOk result (PutsBehind self.old self.new [] []) }
        ensures lines { OnOk result (self.new.reply ≢ None → self.new.lines.items ≡ []) }
        ensures none { self.old.reply ≡ None → put_at self.new.post ≡ put_at self.old.post }
    {
        let Some(reply) = &self.reply else {
            return Ok(());
        };
        let file = Name::new(alloc, reply.text())?;
        let lines = mem::replace(&mut self.lines, Vec::new(alloc));
        self.put(rt, outlet, file, lines)
    }

    // Puts out what a command exports, as one piece.
    fn put_export<R: Wait>(
        &mut self,
        rt: &R,
        alloc: Global,
        outlet: &Outlet,
        command: &Command,
        text: Vec<u8>,
    ) -> Result<(), OutOfMemory>
        requires outlet { self.old.post.outlet ≡ outlet.now }
        requires some { self.old.reply ≢ None }
        requires others { AreOthers self.old.reply (exported_file command.now text.items) }
        ensures same { IsSame self.old self.new }
        ensures adds { OnOk result
            (PutsBehind self.old self.new [] (exported_file command.now text.items)) }
        ensures lines { self.new.lines.items ≡ self.old.lines.items }
        ensures counted { IsCounted self.old → IsCounted self.new }
        ensures pieces { (names : List (List ℕ))
            → AreIn names (exported_file command.now text.items)
            → AreFor names (put_at self.old.post) → AreFor names (put_at self.new.post) }
    {
        if let Command::Export { file, .. } = command {
            let file = Name::new(alloc, file.text())?;
            return self.put(rt, outlet, file, text);
        }
        Ok(())
    }

    // Puts out a piece.
    fn put<R: Wait>(
        &mut self,
        rt: &R,
        outlet: &Outlet,
        file: Name,
        text: Vec<u8>,
    ) -> Result<(), OutOfMemory>
        requires { self.old.post.outlet ≡ outlet.now }
        ensures same { IsSame self.old self.new }
        ensures put { OnOk result (PutsOne self.old self.new file text.items) }
        ensures counted { IsCounted self.old → IsCounted self.new }
        ensures stays { OnErr result (put_at self.new.post ≡ put_at self.old.post) }
        ensures lines { self.new.lines.items ≡ self.old.lines.items }
        ensures full { self.new.full ≡ self.old.full }
    {
        let number = self.pieces.saturating_add(1);
        let piece = Piece {
            worker: self.who,
            number,
            file,
            bytes: PieceBytes::of(text),
        };
        outlet.put_piece(rt, &mut self.post, piece)?;
        self.pieces = number;
        Ok(())
    }
}

// One for a reply of a full table, none for each other.
fn full_of(reply: &Reply) -> u64
    ensures { result ≡ full_of reply.now }
{
    match reply {
        Reply::Full | Reply::FullAfter { .. } => 1,
        _ => 0,
    }
}
