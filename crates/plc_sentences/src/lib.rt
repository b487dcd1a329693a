//! What answers say, in plain words and in those of the file: primitives, steps and points, types of pointers, why a
//! step is untyped, and what of an outline isn't shown. It judges nothing. The layer above uses that each text stands
//! at the end of what it is given, and that the clause which is named is the one that an obligation asks for.
#![tactic(auto)]

mod clauses;
mod obligations;
mod points;
mod primitives;
mod source;
mod steps;
mod types;
mod untyped;

pub use clauses::{ClauseId, Clauses, clause_of, clauses_at};
pub use obligations::push_obligation;
pub use points::push_point;
pub use primitives::push_primitive;
pub use source::{Placed, Source};
pub use steps::{nth_of, push_step};
pub use types::{push_anywhere, push_type};
pub use untyped::{advice, push_untyped};
