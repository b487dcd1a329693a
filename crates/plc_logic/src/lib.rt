//! Outlines as the layers above see them: clauses of invariants and of points, where every name of the
//! file is a number; the layers above use that a negated literal is the same literal with its truth turned.
#![tactic(auto)]

mod clause;
mod equality;
mod marks;
mod negation;
mod sites;

pub use clause::{Base, Clause, Item, Literal, Outline, Site, Sort, Term};
pub use equality::same_sort_is_equality;
pub use marks::outline_uses_marks;
pub use negation::{negated, negation_turns_the_truth};
pub use sites::op_of_site;
