//! The canonical text of a unit, on the grammar's trees, over which it is defined; the layer above uses
//! that `print` gives that text, and that it is read back as the same unit but for its lines.
#![tactic(auto)]

mod clauses;
mod declarations;
mod laws;
mod names;
mod outlines;
mod primitives;
mod printing;
mod statements;
mod tokens;

pub use laws::{canonical_texts_read_back, canonical_trees_read_back, tokens_read_back};
pub use printing::{print, print_parts};
