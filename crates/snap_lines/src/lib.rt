//! An allocator over another, whose blocks begin on a cache line where the blocks of the other lie
//! 16 bytes behind one, as those do that `malloc` maps for themselves.
#![tactic(auto)]

mod shifted;

pub use shifted::Shifted;
