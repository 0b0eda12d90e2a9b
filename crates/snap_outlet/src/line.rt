//! The queue's rule: what was taken of each sender, and then what the queue holds of it, is what it sent, in its order.
use crate::view::{Parcel, View};
use crossbeam_queue::protocol::{Join, Lesson, Outcome, Protocol, Split};
use crossbeam_queue::{RuledSegQueue, SegPass};

pub(crate) struct InOrder;

impl Protocol<Parcel, View> for InOrder {
    ghost use Rattle.snap_outlet.specs.Rule.{Delivers, first};

    ghost holds = { Delivers };

    ghost first = { first };
}

/// A sender sends a parcel.
pub(crate) struct Posts;

impl Outcome<Parcel, View> for Posts {
    ghost use Rattle.snap_outlet.specs.Rule.{posted};
    ghost use Rattle.std.specs.Prelude.{◌≡◌};

    ghost then = { λ v x w. w ≡ posted v x };
}

/// The taker takes a parcel, or finds none.
pub(crate) struct Fetches;

impl Outcome<Parcel, View> for Fetches {
    ghost use Rattle.snap_outlet.specs.Rule.{Fetched};

    ghost then = { Fetched };
}

impl Lesson<Parcel, View> for Fetches {
    ghost use Rattle.snap_outlet.specs.Rule.{FoundNone};
    ghost use Rattle.std.specs.Prelude.{◌≡◌, []};

    ghost fact = { λ v items. items ≡ [] → FoundNone v };
}

/// The taker gets to know what a sender sent, which sends no more.
pub(crate) struct Gathers;

impl Join<View> for Gathers {
    ghost use Rattle.snap_outlet.specs.Rule.{gathered};
    ghost use Rattle.snap_outlet.specs.declared.view.View.TheVariants.{Gathered};

    ghost both = { gathered };

    ghost spent = { Gathered };
}

/// The taker makes the sender of the next number.
pub(crate) struct Makes;

impl Split<View> for Makes {
    ghost use Rattle.snap_outlet.specs.Rule.{after_making, made_sender};

    ghost left = { after_making };

    ghost right = { made_sender };
}

pub(crate) type Line = RuledSegQueue<Parcel, View, InOrder>;

pub(crate) type LinePass = SegPass<Parcel, View>;
