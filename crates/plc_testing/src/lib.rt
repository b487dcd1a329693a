//! What several crates of tests share: the texts of two stacks, files that are loaded, and texts that are put together.
//! It has no tests of its own.
#![tactic(auto)]

mod loading;
mod stacks;
mod texts;

pub use loading::loaded;
pub use stacks::{EPOCHS, HAZARDS};
pub use texts::put;
