//! Tables by name, and the sessions that run scripts' commands on them, many at once.
//!
//! A service has the tables, and a kit one pass of each. A session runs commands one by one with the passes of its
//! kit. It keeps the table in use and up to 64 clones. What every command replies is told by the promises of the
//! tables' calls; and whatever the tables come to until they are closed, the commands of a session fit them.
#![tactic(auto)]

mod asking;
mod replies;
mod service;
mod session;

pub use service::{Fronts, Kit, KitReceipt, Service};
pub use session::Session;
pub use snap_text::Loads;
