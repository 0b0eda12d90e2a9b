//! Workers over the tables of one service, each in a thread of its own where one can be made; and what their commands
//! came to, once all have ended and the tables are closed.
#![tactic(auto)]

mod crew;
mod ending;
mod jobs;
mod leaving;
mod scripts;
mod seats;
mod worker;

pub use crew::{Job, do_all, do_beside, do_job};
pub use ending::{Ending, end_run};
pub use jobs::open_jobs;
pub use leaving::{Done, Room, run_all};
pub use scripts::{Crew, Finished, Ran, Task, run_scripts};
pub use seats::{Seat, open_seats};
pub use worker::work;
