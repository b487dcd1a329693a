//! Pages that show a recorded run line by line: what each thread did, what that changed in memory, where the observer
//! stands, and what ends the run. It judges nothing: the answer on a page is the text that `plc replay` writes
//! (`replay_page`), with the status of it, and what follows is read from the same run, taken once more.
#![tactic(auto)]

mod ending;
mod log;
mod page;
mod racing;
mod refused;
mod running;
mod walk;

pub use page::replay_page;
