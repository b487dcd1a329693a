//! Garbage-collected runs, the second meaning of a program, in which no node is taken back: what each
//! primitive and each move does, and which clauses and claims are true. A move leads where the definition
//! says, and a clause is true exactly where some literal is.
#![tactic(auto)]

mod clauses;
mod config;
mod execute;
mod laws;
mod locals;
mod pointers;
mod primitives;
mod row;
mod slot;
mod state;

pub use clauses::holds;
pub use config::{GcConfig, GcMoved};
pub use laws::{
    claims_are_reached, collected_accesses_agree, collected_runs_go_on, collected_runs_keep_values,
    collected_runs_stay_in_range, collected_runs_stay_unmarked, collected_state_reads_back,
    collected_tests_have_opposites, collected_threads_hold_their_locals,
};
