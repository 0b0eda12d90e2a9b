//! What a try to write comes to.
use snap_steps::Full;

/// A try of a write, once its place was found.
pub enum Attempt {
    /// The entry was made, with this reply.
    Made(Option<u64>),
    /// The place is one no longer.
    Again,
    /// A put wants a row, and every row was handed out.
    Refused(Full),
}
