//! Questions to a clone, each with its reply.
ghost use Rattle.std.specs.Prelude.{◌≡◌, ◌-◌, ◌^◌, min};
ghost use Rattle.snap_fits.specs.Fits.{pair_reply, value_reply};
ghost use Rattle.snap_prelude.specs.{after, at, ceiling, count, first_pair, floor};
ghost use Rattle.snap_prelude.specs.{higher, image, IsCloneOf, last_pair, lower};
ghost use Rattle.snap_service.specs.Serving.{Measures};

use crate::replies::{pair_reply, value_reply};
use snap_model::{Key, Reply};
use snap_table::TableView;
use snap_view::Settled;

pub(crate) fn see(mut view: TableView<'_>, key: Key) -> Reply
    ensures { result ≡ value_reply (at (after view.entry.base) key) }
{
    value_reply(view.get(key))
}

pub(crate) fn first(mut view: TableView<'_>) -> Reply
    ensures { result ≡ pair_reply (first_pair (after view.entry.base)) }
{
    pair_reply(view.first())
}

pub(crate) fn last(mut view: TableView<'_>) -> Reply
    ensures { result ≡ pair_reply (last_pair (after view.entry.base)) }
{
    pair_reply(view.last())
}

pub(crate) fn floor(mut view: TableView<'_>, key: Key) -> Reply
    ensures { result ≡ pair_reply (floor (after view.entry.base) key) }
{
    pair_reply(view.floor(key))
}

pub(crate) fn lower(mut view: TableView<'_>, key: Key) -> Reply
    ensures { result ≡ pair_reply (lower (after view.entry.base) key) }
{
    pair_reply(view.lower(key))
}

pub(crate) fn ceiling(mut view: TableView<'_>, key: Key) -> Reply
    ensures { result ≡ pair_reply (ceiling (after view.entry.base) key) }
{
    pair_reply(view.ceiling(key))
}

pub(crate) fn higher(mut view: TableView<'_>, key: Key) -> Reply
    ensures { result ≡ pair_reply (higher (after view.entry.base) key) }
{
    pair_reply(view.higher(key))
}

/// How deep the clone's tree is, how many pairs it has, and whether it is settled. Where a stamp at its greatest count
/// kept it from being so, the view has noted it.
pub(crate) fn measure(view: &mut TableView<'_>) -> Reply
    requires { IsCloneOf view.old.base (image view.old) }
    ensures { Measures view.old view.new result }
{
    let depth = view.depth();
    let pairs = view.count(0, Key::MAX);
    let settled = matches!(view.settled(), Settled::Yes);
    Reply::Depth {
        depth,
        pairs,
        settled,
    }
}

pub(crate) fn count(mut view: TableView<'_>, lo: Key, hi: Key) -> Reply
    ensures { result ≡ Reply.Count (min (count (after view.entry.base) lo hi) (2 ^ 64 - 1)) }
{
    Reply::Count {
        n: view.count(lo, hi),
    }
}
