//! When a worker's commands, with their replies, fit the histories of the tables, and how a session comes to know it.
//!
//! Each command is met at a moment of its table: a write by an entry of its own, a get by the map there, a clone by a
//! cut. `specs/Fits` has the definition; it stands on calls, maps and histories alone, and for the depth of a clone on the
//! least number of nodes of an AVL tree. The functions here are its laws.
#![tactic(auto)]

ghost use Rattle.snap_fits.specs.Alone.{AloneAnswers};
ghost use Rattle.snap_fits.specs.Example.{ExampleFits};
ghost use Rattle.snap_fits.specs.Laws.{ServedBegins, ServedEnds, ServedGoesOn};
ghost use Rattle.snap_fits.specs.Wrong.{CauselessFitsNothing, NewValueFitsNothing, OlderGetFitsNothing, OtherPairsFitNothing, StaleCloneFitsNothing, TooDeepFitsNothing};

/// A new session has served no commands.
pub fn served_begins()
    ensures { ServedBegins }
{}

/// A session that has served some commands and serves one more has served them all.
pub fn served_goes_on()
    ensures { ServedGoesOn }
{}

/// Where the closed tables cover what a session knows, the commands that it has served fit them.
pub fn served_ends()
    ensures { ServedEnds }
{}

/// The commands of a worker that has the tables for itself are answered as by one sorted map for each table, with
/// copies of these maps as clones; but a write may be refused as full.
pub fn alone_answers()
    ensures { AloneAnswers }
{}

/// A put over another worker's, a get, a clone, a removal of an absent key, an answer and the depth of the clone fit.
pub fn example_fits()
    ensures { ExampleFits }
{}

/// The new value as the reply of a put, a get that misses the worker's own put, and a clone from before it fit nothing;
/// nor does a depth with another number of pairs, one that is too great for a settled tree, or an unsettled tree where
/// rows are left and no stamp is at its greatest count.
pub fn wrong_replies_fit_nothing()
    ensures put { NewValueFitsNothing }
    ensures get { OlderGetFitsNothing }
    ensures clone { StaleCloneFitsNothing }
    ensures pairs { OtherPairsFitNothing }
    ensures deep { TooDeepFitsNothing }
    ensures causeless { CauselessFitsNothing }
{}
