//! Memory in which addresses are used again, with the mark and the validity of each pointer: what each
//! primitive does to it, over the syntax and the observers' events. A primitive is a race, is blocked,
//! or leads to a next state exactly as the table of the primitives says.
#![tactic(auto)]

mod apply;
mod cell;
mod cells;
mod laws;
mod locals;
mod memory;
mod node;
mod undo;

pub use cell::{Cell, Outcome, RaceKind};
pub use laws::{accesses_agree, coherence_is_kept, memory_reads_back, tests_have_opposites};
pub use locals::Locals;
pub use memory::Memory;
pub use undo::Undo;
