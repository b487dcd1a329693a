//! What an outline means, on `plc_tree`'s trees; the layer above uses that `outline_meaning` answers the
//! outline that a tree means, or its fault at the least token, and that `read_outline` does so of the tokens
//! of one, with `Syntax` where they are no tree's, at the token that says so.
#![tactic(auto)]

mod clause;
mod context;
mod fit;
mod item;
mod kind;
mod one_outline;
mod outline;
mod reach;
mod site;
mod term;

pub use fit::outlines_fit;
pub use one_outline::outlines_are_one;
pub use outline::{outline_meaning, read_outline};
