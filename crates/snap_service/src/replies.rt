//! Replies by what a table or a clone has found.
ghost use Rattle.std.specs.Prelude.{◌≡◌};
ghost use Rattle.snap_fits.specs.Fits.{pair_reply, put_reply, remove_reply, value_reply};

use snap_model::{Key, Reply};

/// The reply of a put, by the value that was there.
pub(crate) fn put_reply(was: Option<u64>) -> Reply
    ensures { result ≡ put_reply was }
{
    was.map_or(Reply::New, |value| Reply::Old { value })
}

/// The reply of a removal, by the value that was there.
pub(crate) fn remove_reply(was: Option<u64>) -> Reply
    ensures { result ≡ remove_reply was }
{
    was.map_or(Reply::Absent, |value| Reply::Old { value })
}

/// The reply of a look-up, by the value that was found.
pub(crate) fn value_reply(found: Option<u64>) -> Reply
    ensures { result ≡ value_reply found }
{
    found.map_or(Reply::Absent, |value| Reply::Value { value })
}

/// The reply of a question for a pair, by the pair that was found.
pub(crate) fn pair_reply(found: Option<(Key, u64)>) -> Reply
    ensures { result ≡ pair_reply found }
{
    found.map_or(Reply::Absent, |(key, value)| Reply::Pair { key, value })
}
