//! Held outlines are true: where no obligation's ground set has a model, whatever the outline says holds in
//! every state of every garbage-collected run, with any number of threads.
#![tactic(auto)]

mod laws;

pub use laws::{held_claims_are_true, held_outlines_are_true};
