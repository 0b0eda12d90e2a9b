//! The search for a key beside the writes of other passes. Each step down is validated by stamps that are loaded
//! again; where a check fails, the search begins again at row 0.
#![tactic(auto)]

mod descent;
mod down;
mod endings;
mod kept;
mod places;
mod reading;
mod search;
mod trying;

pub use down::Spot;
pub use endings::{Ending, find_to_repair};
pub use kept::{Step, Way};
pub use places::{Found, Place, find_for_write};
pub use reading::get;
pub use snap_steps::Busy;
pub use trying::try_get;
