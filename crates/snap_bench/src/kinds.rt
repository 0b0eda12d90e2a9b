//! The calls that are timed.
use crate::fault::Fault;
use crate::workers::Worker;

/// A kind of calls.
#[derive(Clone, Copy)]
pub enum Kind {
    Get,
    Put,
    /// A removal, and a put of the same key behind it.
    Renew,
    Remove,
}

impl Kind {
    /// Makes one call, and answers the value before.
    pub fn call<R, W: Worker<R>>(
        self,
        rt: &R,
        worker: &mut W,
        key: u64,
        value: u64,
    ) -> Result<Option<u64>, Fault> {
        match self {
            Kind::Get => Ok(worker.get(rt, key)),
            Kind::Put => worker.put(rt, key, value),
            Kind::Renew => {
                worker.remove(rt, key)?;
                worker.put(rt, key, value)
            }
            Kind::Remove => worker.remove(rt, key),
        }
    }
}
