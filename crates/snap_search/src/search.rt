//! One step down, for each way to search: the child on the way of the key, the checks by which the way leads to it,
//! and its key.
ghost use Rattle.std.specs.Prelude.{◌≡◌, ◌≤◌, ◌⊎◌, ℕ, MatchBool, MatchOption, MatchResult, None, Option};
ghost use Rattle.snap_prelude.specs.{Confirmed, IsOf, Known, Matched, Point};
ghost use Rattle.snap_steps.specs.Steps.Way.{IsLast, IsNext};
ghost use Rattle.snap_search.specs.Leads.{IsOnWay, LeadsTo, LeadsLast, linked, no_link, stand};
ghost use Rattle.snap_search.specs.declared.down.Spot.{Spot};

use crate::down::Spot;
use snap_stamp::{Field, Key, RowNo, Stamp};
use snap_steps::{Pass, Rows, value_of};

/// A search at a spot: how it loads its words, and what it makes of a check that fails. What it has come to is told
/// since any earlier moment.
pub(crate) trait Search: Copy {
    /// Where it stands.
    ghost spot: { Self → Spot };

    /// The pass has come to this point of the way of the key.
    ghost comes: { Self → Known → Known → ℕ → Point → Type 0 };

    /// A check on its way has failed.
    ghost fails: { Self → Known → Known → ℕ → Type 0 };

    /// The check at its end has failed.
    ghost misses: { Self → Known → Known → ℕ → Type 0 };

    /// The way has ended with this answer.
    ghost ends: { Self → Known → Known → ℕ → Option ℕ → Type 0 };

    /// The key of this child was passed, and it goes on from there.
    ghost passes: { Self → Known → Known → ℕ → ℕ → Self → Type 0 };

    fn spot(&self) -> Spot
        ensures { result ≡ spot self.now };

    /// Loads the next word.
    fn load_next(&self, rows: &Rows, pass: &mut Pass, key: Key, row: RowNo, field: Field) -> u64
        requires table { IsOf pass.old rows.now }
        requires row { row ≤ rows.now.rows }
        requires way { (from : Known) × (point : Point) × comes self.now from pass.old key point
            × IsNext point row field }
        ensures table { IsOf pass.new rows.now }
        ensures leads { (from : Known) → (point : Point) → comes self.now from pass.old key point
            → LeadsTo rows.now.rows (comes self.now from pass.new key)
            (fails self.now from pass.new key) point result };

    /// Loads the last word.
    fn load_last(&self, rows: &Rows, pass: &mut Pass, key: Key, row: RowNo, field: Field) -> u64
        requires table { IsOf pass.old rows.now }
        requires row { row ≤ rows.now.rows }
        requires way { (from : Known) × (point : Point) × comes self.now from pass.old key point
            × IsLast point row field }
        ensures { (from : Known) → (point : Point) → comes self.now from pass.old key point
            → LeadsLast (ends self.now from pass.new key) (misses self.now from pass.new key)
            point result };

    /// Loads the key of a child to which the way leads: the key itself, or where the search goes on. None where a check
    /// fails.
    fn pass_by(
        &self,
        rows: &Rows,
        pass: &mut Pass,
        key: Key,
        child: RowNo,
        stamp: Stamp,
    ) -> Option<Option<Self>>
        requires table { IsOf pass.old rows.now }
        requires child { child ≤ rows.now.rows }
        requires way { IsOnWay (comes self.now) pass.old key (Confirmed child stamp) }
        ensures table { IsOf pass.new rows.now }
        ensures passes { (from : Known) → comes self.now from pass.old key (Confirmed child stamp)
            → MatchOption result (fails self.now from pass.new key)
            (λ o. MatchOption o (comes self.now from pass.new key (Matched child))
            (λ s. passes self.now from pass.new key child s)) };
}

/// The child on the way of the key, 0 for none.
pub(crate) fn child_of<S: Search>(rows: &Rows, pass: &mut Pass, key: Key, search: &S) -> RowNo
    requires table { IsOf pass.old rows.now }
    requires row { (S.spot search.now).row ≤ rows.now.rows }
    requires way { IsOnWay (S.comes search.now) pass.old key (stand (S.spot search.now)) }
    ensures table { IsOf pass.new rows.now }
    ensures row { result ≤ rows.now.rows }
    ensures leads { (from : Known)
        → S.comes search.now from pass.old key (stand (S.spot search.now))
        → LeadsTo rows.now.rows (S.comes search.now from pass.new key)
        (S.fails search.now from pass.new key) (stand (S.spot search.now)) result }
{
    let spot = search.spot();
    let word = search.load_next(rows, pass, key, spot.row, spot.side.link());
    rows.row_of(word)
}

/// Goes to the child, once the checks say that the way leads there: that it has the key, or where the search goes on
/// from it. None where a check fails.
pub(crate) fn reach_child<S: Search>(
    rows: &Rows,
    pass: &mut Pass,
    key: Key,
    search: &S,
    child: RowNo,
) -> Option<Option<S>>
    requires table { IsOf pass.old rows.now }
    requires row { (S.spot search.now).row ≤ rows.now.rows }
    requires child { child ≤ rows.now.rows }
    requires way { IsOnWay (S.comes search.now) pass.old key (linked (S.spot search.now) child) }
    ensures table { IsOf pass.new rows.now }
    ensures passes { (from : Known)
        → S.comes search.now from pass.old key (linked (S.spot search.now) child)
        → MatchOption result (S.fails search.now from pass.new key)
        (λ o. MatchOption o (S.comes search.now from pass.new key (Matched child))
        (λ s. S.passes search.now from pass.new key child s)) }
{
    let spot = search.spot();
    let mark = search.load_next(rows, pass, key, child, Field::Stamp);
    let stamp = Stamp::of(mark);
    if !stamp.is_unmarked() {
        return None;
    }
    // By the link the child was one while it had this stamp, and by the row's own stamp the row was on the way then.
    let again = search.load_next(rows, pass, key, spot.row, spot.side.link());
    if again != child.number() as u64 {
        return None;
    }
    let still = search.load_next(rows, pass, key, spot.row, Field::Stamp);
    if still != spot.stamp.word() {
        return None;
    }
    search.pass_by(rows, pass, key, child, stamp)
}

/// One step down: the answer, or where the search goes on. None where a check fails.
pub(crate) fn look<S: Search>(
    rows: &Rows,
    pass: &mut Pass,
    key: Key,
    search: &S,
) -> Option<Result<Option<u64>, S>>
    requires table { IsOf pass.old rows.now }
    requires row { (S.spot search.now).row ≤ rows.now.rows }
    requires way { IsOnWay (S.comes search.now) pass.old key (stand (S.spot search.now)) }
    ensures { (from : Known) → S.comes search.now from pass.old key (stand (S.spot search.now))
        → MatchOption result
        (S.fails search.now from pass.new key ⊎ S.misses search.now from pass.new key)
        (λ r. MatchResult r (λ a. S.ends search.now from pass.new key a)
        (λ s. (child : ℕ) × (child ≤ rows.now.rows)
        × S.passes search.now from pass.new key child s)) }
{
    let child = child_of(rows, pass, key, search);
    if child.is_none() {
        return if ends_here(rows, pass, key, search) {
            Some(Ok(None))
        } else {
            None
        };
    }
    match reach_child(rows, pass, key, search, child) {
        None => None,
        Some(Some(next)) => Some(Err(next)),
        Some(None) => Some(Ok(value(rows, pass, key, search, child))),
    }
}

// Whether the way of the key still ends at the row, whose link was 0.
fn ends_here<S: Search>(rows: &Rows, pass: &mut Pass, key: Key, search: &S) -> bool
    requires table { IsOf pass.old rows.now }
    requires row { (S.spot search.now).row ≤ rows.now.rows }
    requires way { IsOnWay (S.comes search.now) pass.old key (no_link (S.spot search.now)) }
    ensures { (from : Known) → S.comes search.now from pass.old key (no_link (S.spot search.now))
        → MatchBool result (S.ends search.now from pass.new key None)
        (S.misses search.now from pass.new key) }
{
    let spot = search.spot();
    let still = search.load_last(rows, pass, key, spot.row, Field::Stamp);
    still == spot.stamp.word()
}

// The value of the row with the key.
fn value<S: Search>(rows: &Rows, pass: &mut Pass, key: Key, search: &S, row: RowNo) -> Option<u64>
    requires table { IsOf pass.old rows.now }
    requires row { row ≤ rows.now.rows }
    requires way { IsOnWay (S.comes search.now) pass.old key (Matched row) }
    ensures { (from : Known) → S.comes search.now from pass.old key (Matched row)
        → S.ends search.now from pass.new key result }
{
    value_of(search.load_last(rows, pass, key, row, Field::Value))
}
