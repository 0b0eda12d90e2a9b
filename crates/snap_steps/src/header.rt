//! Loads of the header. Each leaves a note of what it found.
ghost use Rattle.std.specs.Prelude.{◌≡◌, ◌≤◌, ℕ};
ghost use Rattle.snap_steps.specs.Counting.{Among};
ghost use Rattle.snap_steps.specs.Seen.{IsOf, Becomes};
ghost use Rattle.snap_steps.specs.Steps.Header.{word_noted, left_seen, epoch_noted, next_loaded, gate_loaded, left_loaded, epoch_loaded};
ghost use Rattle.snap_steps.specs.declared.view.WordNote.TheVariants.{Next, Gate};

use crate::pass::Pass;
use crate::rows::Rows;
use crate::view::View;
use atomic_table::Play;

struct LoadNext;

impl Play<(), View> for LoadNext {
    ghost then = { next_loaded };
}

struct LoadGate;

impl Play<(), View> for LoadGate {
    ghost then = { gate_loaded };
}

struct LoadLeft;

impl Play<(), View> for LoadLeft {
    ghost then = { left_loaded };
}

struct LoadEpoch;

impl Play<(), View> for LoadEpoch {
    ghost then = { epoch_loaded };
}

/// How many rows were handed out, which are no fewer than at the cut of a clone.
pub fn load_next(rows: &Rows, pass: &mut Pass) -> u32
    requires { IsOf pass.old rows.now }
    ensures range { result ≤ rows.now.rows }
    ensures since { pass.old.view.base.drawn ≤ result }
    ensures pass { Becomes pass.old pass.new (word_noted pass.old.view (Next result)) }
{
    let found = rows.table.shared.load::<LoadNext>(&mut pass.seat, 0);
    found as u32
}

/// Twice the writes that were entered, plus 1 while the gate is closed.
pub fn load_gate(rows: &Rows, pass: &mut Pass) -> u64
    requires { IsOf pass.old rows.now }
    ensures { Becomes pass.old pass.new (word_noted pass.old.view (Gate result)) }
{
    rows.table.shared.load::<LoadGate>(&mut pass.seat, 1)
}

/// How many writes have ended. A closing pass that finds half of the gate knows that no write is in progress.
pub fn load_left(rows: &Rows, pass: &mut Pass) -> u64
    requires { IsOf pass.old rows.now }
    ensures { Becomes pass.old pass.new (left_seen pass.old.view result) }
{
    rows.table.shared.load::<LoadLeft>(&mut pass.seat, 2)
}

/// How many clones were cut. A pass in a write knows from then on that this is the epoch until it leaves, and finds
/// the same again.
pub fn load_epoch(rows: &Rows, pass: &mut Pass) -> u64
    requires { IsOf pass.old rows.now }
    ensures pass { Becomes pass.old pass.new (epoch_noted pass.old.view result) }
    ensures same { (e : ℕ) → Among e pass.old.view.words.present → result ≡ e }
{
    rows.table.shared.load::<LoadEpoch>(&mut pass.seat, 4)
}
