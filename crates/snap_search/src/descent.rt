//! The way down to the place of a key, for a write and for a repair.
ghost use Rattle.std.specs.Prelude.{◌≡◌, MatchResult, false};
ghost use Rattle.snap_prelude.specs.{Among, IsOf, On};
ghost use Rattle.snap_search.specs.{Kept.IsStep, Kept.IsWay, Kept.step_at, Leads.stand, Places.Comes, Places.Goes};
ghost use Rattle.snap_search.specs.{Walk.at_top, Work.IsPresent};

use crate::down::{Spot, top};
use crate::kept::Way;
use crate::places::Place;
use crate::search::{child_of, reach_child};
use snap_stamp::Key;
use snap_steps::{Pass, Rows, note_birth};
use std::sync::Wait;

/// A place, the spot from which the last step led there, and the one before that, which counts only where the last
/// isn't row 0.
#[derive(Clone, Copy)]
pub struct Descent {
    pub place: Place,
    pub spot: Spot,
    pub above: Spot,
}

/// Goes down from row 0 to the place of a key. In place of what `way` has it keeps there the rows above the last spot,
/// up to row 0. Before that may stand those of tries of which a check failed.
pub(crate) fn descend<R: Wait>(
    rows: &Rows,
    rt: &R,
    pass: &mut Pass,
    key: Key,
    epoch: u64,
    way: &mut Way,
) -> Descent
    requires table { IsOf pass.old rows.now }
    requires epoch { Among epoch pass.old.view.words.present }
    requires way { pass.old.view.way.reads ≡ at_top key }
    ensures comes { Comes rows.now.rows pass.old pass.new key epoch result.spot result.place }
    ensures spot { IsStep rows.now.rows pass.new.view (step_at result.spot) }
    ensures above { IsStep rows.now.rows pass.new.view (step_at result.above) }
    ensures way { IsWay rows.now.rows pass.new.view way.new }
    ensures stayed { way.new.stayed ≡ false }
{
    way.clear();
    let mut above = top();
    let mut spot = top();
    for _ in rt.forever() {
        match look_for_place(rows, pass, key, epoch, &spot) {
            Ok(place) => return Descent { place, spot, above },
            Err(next) => {
                way.meet(&spot);
                above = spot;
                spot = next;
            }
        }
    }
    unreachable!()
}

// One step down: the place, or where the search goes on.
fn look_for_place(
    rows: &Rows,
    pass: &mut Pass,
    key: Key,
    epoch: u64,
    spot: &Spot,
) -> Result<Place, Spot>
    requires table { IsOf pass.old rows.now }
    requires step { IsStep rows.now.rows pass.old.view (step_at spot.now) }
    requires present { IsPresent pass.old.view spot.now.row epoch }
    requires epoch { Among epoch pass.old.view.words.present }
    requires way { pass.old.view.way.reads ≡ On key (stand spot.now) }
    ensures { MatchResult result (λ p. Comes rows.now.rows pass.old pass.new key epoch spot.now p)
        (λ s. Goes rows.now.rows pass.old pass.new key epoch s) }
{
    let child = child_of(rows, pass, key, spot);
    if child.is_none() {
        return Ok(Place::Below { at: *spot });
    }
    let Some(next) = reach_child(rows, pass, key, spot, child) else {
        return Err(top());
    };
    let birth = note_birth(rows, pass, key, child);
    if birth < epoch {
        return Ok(Place::Shared { at: *spot });
    }
    match next {
        Some(next) => Err(next),
        None => Ok(Place::Here { row: child }),
    }
}
