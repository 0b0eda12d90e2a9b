//! The commands of one worker, one after another.
ghost use Rattle.std.specs.Prelude.{◌≡◌, OnOk};
ghost use Rattle.snap_crew.specs.{Seats.CanSit, Seats.HasAnswered, Seats.HasPutOut, Seats.KeepsTo};
ghost use Rattle.snap_crew.specs.Works.{script_commands};

use crate::seats::Seat;
use snap_io::Turn;
use snap_model::OutOfMemory;
use snap_outlet::Outlet;
use snap_text::Loads;
use std::alloc::Global;
use std::sync::Wait;

/// Runs the commands of the worker at a seat, in their order, and puts out what they come to. Before each, `turn` is
/// called with the worker's number and that of the command, counted from 1.
pub fn work<R: Wait, T: Turn>(
    rt: &R,
    alloc: Global,
    loads: &Loads,
    turn: &T,
    outlet: &Outlet,
    seat: &mut Seat<'_>,
) -> Result<(), OutOfMemory>
    requires { CanSit loads.now outlet.now seat.old }
    ensures put_out { OnOk result
        (HasPutOut loads.now seat.old.job.who (script_commands seat.old.job.script.now)
        seat.old.job.session seat.new.job.session seat.new.desk) }
    ensures keeps { KeepsTo (script_commands seat.old.job.script.now) seat.old.desk seat.new.desk }
    ensures tables { seat.new.job.session.tables ≡ seat.old.job.session.tables }
{
    answer_all(rt, alloc, loads, turn, outlet, seat)?;
    seat.desk.finish(rt, alloc, outlet)
}

// Runs the commands, and keeps the last of their lines.
fn answer_all<R: Wait, T: Turn>(
    rt: &R,
    alloc: Global,
    loads: &Loads,
    turn: &T,
    outlet: &Outlet,
    seat: &mut Seat<'_>,
) -> Result<(), OutOfMemory>
    requires { CanSit loads.now outlet.now seat.old }
    ensures answered { OnOk result
        (HasAnswered loads.now seat.old.job.who (script_commands seat.old.job.script.now)
        seat.old.job.session seat.new.job.session seat.new.desk) }
    ensures keeps { KeepsTo (script_commands seat.old.job.script.now) seat.old.desk seat.new.desk }
    ensures tables { seat.new.job.session.tables ≡ seat.old.job.session.tables }
{
    let script = seat.job.script;
    let who = seat.job.who;
    let mut number = 0u64;
    for line in script {
        number = number.saturating_add(1);
        turn.before(who, number);
        let mut text = Vec::new(alloc);
        let reply = seat
            .job
            .session
            .run(rt, alloc, &line.command, loads, &mut text)?;
        seat.desk
            .add(rt, alloc, outlet, &line.command, &reply, text)?;
    }
    Ok(())
}
