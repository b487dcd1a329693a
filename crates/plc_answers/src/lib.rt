//! The texts of answers, on the types of which they speak. The layer above uses that each text is the
//! written line, byte for byte. Who makes other texts of the same things has here the pieces of which these are made.
#![tactic(auto)]

mod certificates;
mod claims;
mod counts;
mod names;
mod pieces;
mod refusals;
mod replays;
mod samples;
mod steps;
mod suggestions;
mod typings;
mod unproved;
mod untyped;

pub use certificates::{certificate_fault_text, certificate_line, invalid_text, verified_text};
pub use claims::{claim_fault_text, located_text, unlocated_text};
pub use names::variable_in;
pub use pieces::{push, push_bytes, push_number, push_numbered};
pub use refusals::{
    lex_fault_text, limit_text, parse_fault_text, read_failed_text, read_too_long_text,
    words_refused_text,
};
pub use replays::{end_text, schedule_fault_text};
pub use samples::summary_text;
pub use steps::line_of;
pub use suggestions::{insufficient_text, spots_limit_text, suggested_text};
pub use typings::safe_text;
pub use unproved::{unproved_text, value_text};
pub use untyped::{FailedCondition, untyped_text};
