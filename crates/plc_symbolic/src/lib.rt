//! Clauses over symbolic terms, and their numbering as a ground set.
//!
//! Whoever writes a ground set names terms by what they are: a constant, or a version of a map at a node. A
//! [`Draft`] lists each term where it is first met, its arguments before it, and keeps clauses over the
//! places of their terms, so that the order of places is decided here alone.
#![tactic(auto)]

mod draft;
mod laws;
mod listing;
mod recent;
mod symbolic;
mod terms;

pub use draft::Draft;
pub use laws::drafts_are_well_formed;
pub use symbolic::{NodeTerm, SymbolicLit, SymbolicTerm};
pub use terms::{applied, is, is_not, term_of};
