//! A recorded run in rows of a page: what a line of its schedule takes, what that changes in memory, where the observer
//! then stands, and what is there after the last line. It judges nothing, and reads what it shows from configurations
//! of runs. The layer above takes the lines.
#![tactic(auto)]

mod changes;
mod events;
mod history;
mod pieces;
mod rows;
mod standing;
mod store;
mod taken;
mod traced;
mod watching;

pub use history::{last_free, last_retirement, note, push_line_of};
pub use pieces::{push_cell, push_name, push_numbered, push_place, push_prim, push_taken_step};
pub use rows::{Row, push_first, push_heads, push_row};
pub use standing::push_standing;
pub use taken::{Taken, step_of, taken_by};
pub use traced::{Traced, Written};
pub use watching::push_forbidding;
