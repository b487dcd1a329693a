//! Proof obligations of outlines: which there are, in which order, how many, and the ground set of each, whose
//! having no model is what it means that the obligation is kept.
//!
//! An outline holds where each obligation is kept: after `init`, at the entry of each operation, after each
//! step of the thread that takes it, at each point of another thread meanwhile, and at each claim.
//! The layers above go over them by a walk; no list of them is made. Still obligations need no ground set, and of
//! obligations that are alike one set serves all.
#![tactic(auto)]

mod alike;
mod annotated;
mod counting;
mod excess;
mod grounding;
mod prefixes;
mod refuted;
mod runs;
mod size;
mod stillness;
mod touching;
mod trees;
mod walk;

pub use alike::{AlikeObligations, alike_obligations_have_one_set};
pub use annotated::{Annotated, annotate};
pub use counting::count;
pub use excess::has_large_set;
pub use grounding::{Grounding, ground};
pub use plc_vocabulary::{Obligation, program_uses_marks};
pub use size::clauses;
pub use stillness::{still, still_obligations_are_kept};
pub use touching::{Part, untouched, untouched_obligations_are_kept};
pub use trees::direct;
pub use walk::{Walk, nth};
