//! The jobs of a run: a session for each script.
ghost use Rattle.std.specs.Prelude.{◌≡◌, ◌<◌, ℕ, IfOk, length, slice_index_or};
ghost use Rattle.snap_crew.specs.{Jobs.AreKits, Jobs.IsJob, Works.script_commands};
ghost use Rattle.snap_service.specs.Prelude.{AreSeated, IsFresh, new_session};

use crate::crew::Job;
use snap_model::OutOfMemory;
use snap_service::{Kit, Service, Session};
use snap_text::{Loads, Script};
use std::alloc::Global;

/// A job for each script, by the kit of its number.
pub fn open_jobs<'t>(
    alloc: Global,
    service: &'t Service,
    kits: Vec<Kit>,
    scripts: &'t [Script],
    loads: &Loads,
) -> Result<Vec<Job<'t>>, OutOfMemory>
    requires { AreKits service.now loads.now scripts.now kits.items }
    ensures many { IfOk result (λ jobs. length jobs.items ≡ length scripts.now) }
    ensures each { IfOk result
        (λ jobs. (i : ℕ) (d : _) (e : _) → i < length scripts.now
        → IsJob loads.now service.now (script_commands (slice_index_or scripts.now i d)) i
        (slice_index_or jobs.items i e)) }
{
    let mut jobs = Vec::new(alloc);
    let mut left = kits;
    while let Some(kit) = left.pop() {
        let place = left.len();
        let job = open_job(alloc, service, kit, &scripts[place], place as u32)?;
        jobs.push(job)?;
    }
    jobs.reverse();
    Ok(jobs)
}

// A worker's job: a new session by its kit, and its script.
fn open_job<'t>(
    alloc: Global,
    service: &'t Service,
    kit: Kit,
    script: &'t Script,
    who: u32,
) -> Result<Job<'t>, OutOfMemory>
    requires { AreSeated service.now kit }
    ensures session { IfOk result (λ job. job.session ≡ new_session service.now kit) }
    ensures begins { IfOk result (λ job. IsFresh service.now kit job.session) }
    ensures script { IfOk result (λ job. job.script.now ≡ script.now) }
    ensures who { IfOk result (λ job. job.who ≡ who) }
{
    match Session::open(alloc, service, kit) {
        Ok(session) => Ok(Job {
            session,
            script: script.lines(),
            who,
        }),
        Err((_, want)) => Err(want),
    }
}
