//! The words of a run: its moves, where its threads stand and what each of them holds, over the points and steps of a
//! flow. Runs with a reclaimer and garbage-collected runs take their moves by it, since nothing here says what memory
//! does: the layers above ask what an idle thread begins, which step a busy one takes, and whether it is at its
//! operation's exit.
#![tactic(auto)]

mod entries;
mod standing;
mod table;
mod words;

pub use entries::{entry_or, find_entry};
pub use standing::{arrival, at_exit, begun, indexed_step_at, point_at, set_point, step_at};
pub use table::{TryCopy, copy_held, held, none_held};
pub use words::{Move, Place, StartFault};
