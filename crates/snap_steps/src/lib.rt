//! One public call for each kind of atomic step on the words of a table, and the rule that every step keeps.
//!
//! A table's words lie in one `atomic_table`: a header and rows. Each pass has a seat there, and no other crate
//! touches a word but by the calls of this one. `specs/Rule.antt` has the rule, `specs/Steps` what each kind of
//! step asks, tells and makes of what its pass knows.
#![tactic(auto)]

mod absences;
mod access;
mod aiming;
mod births;
mod changes;
mod clones;
mod copies;
mod counter;
mod draws;
mod fields;
mod front;
mod gate;
mod header;
mod locks;
mod owed;
mod pass;
mod rotating;
mod rows;
mod rule;
mod seats;
mod settling;
mod trying;
mod turning;
mod unlinking;
mod view;
mod way;
mod writes;

pub use absences::confirm_absent_below;
pub use aiming::{aim, pass_up, settle_last};
pub use births::{load_birth, note_birth};
pub use changes::mark_shrinking;
pub use clones::{
    RowCopy, ViewSeat, count_writes, fetch_row, load_root, load_row, load_stamp, split_view, twin,
};
pub use copies::{link_copy, load_shared};
pub use counter::Steps;
pub use draws::{Full, draw, try_draw};
pub use fields::{load_key, load_word, store_own, value_of};
pub use front::{Front, close_rows};
pub use gate::{count_left, cut, open_gate, try_close, try_enter};
pub use header::{load_epoch, load_gate, load_left, load_next};
pub use locks::{free_lock, try_lock};
pub use pass::{Note, Pass, Receipt};
pub use rotating::{clear_shrinking, link_lowered, link_raised};
pub use rows::Rows;
pub use seats::{admit, finish, learn, note, take_back};
pub use settling::{load_height, store_height};
pub use trying::{Busy, begin_try, load_busy_gate, try_last_word, try_next_word};
pub use turning::link_parent;
pub use unlinking::{mark_unlinked, splice};
pub use view::{Admitted, Base, ChildHeight, Fact, Part, Role, Stage, View, WordNote};
pub use way::{load_last_word, load_next_word, set_out, set_out_again};
pub use writes::{confirm_absent, count_done, link_leaf, store_value};
