//! The solver of ground sets: `refute` answers Open with a ground model exactly where one exists, and
//! else Closed with a tree that closes the set.
//!
//! It stands on the definitions of `plc_ground` and on its table of classes, and knows nothing of how
//! a tree is judged.
#![tactic(auto)]

mod apart;
mod chain;
mod choice;
mod cores;
mod explain;
mod frame;
mod needless;
mod place;
mod search;
mod split;
mod survey;
mod workspace;

pub use search::{Answer, find_model, refute};
