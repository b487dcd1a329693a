//! Runs: the moves of threads and of the reclaimer over memory, for any number of threads, any
//! interleaving, any reuse of addresses, and any frees that the observer allows.
#![tactic(auto)]

mod config;
mod execute;
mod laws;
mod moved;
mod refusal;
mod refusing;

pub use config::Config;
pub use laws::{init_is_quiet, runs_are_observed, runs_go_on, threads_hold_their_locals};
pub use moved::Moved;
pub use refusal::Refusal;
