//! The command line of `plc-hunt`: a run of a file's program that races, as a schedule, by the words that are given.
//! Runs are drawn (`plc_explore`), and what is answered was followed once more: as a schedule that `replay` under the
//! same reclaimer answers with a race, or, where any allowed free may come, as a run of the definition.
//! For all words, `hunt` promises which text is due, with which status, and how far it was written. An answer goes to
//! one output, and what keeps from an answer to the other.
#![tactic(auto)]

mod account;
mod asking;
mod drawing;
mod hunting;
mod laws;
mod racing;
mod words;
mod writing;

pub use asking::hunt;
pub use hunting::{Hunted, hunt_freely, hunt_under};
pub use laws::safe_files_have_no_hunted_race;
