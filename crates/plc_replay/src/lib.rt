//! What a recorded schedule comes to: its lines, one after the other, over the runs of `plc_run`,
//! with the frees that a reclaimer picks. `replay` gives the one end that the definition gives:
//! the first race, impossible line or forbidden free, or else the counts of the whole. Under a
//! reclaimer that serves the file's observer no end is a forbidden free.
//!
//! A replay may also be followed line by line, to look at memory and threads after each: `begin_reclaimer`, then
//! `Config::start` for line 1, from which a replay may go on (`starts_stand`), then `take_line` for each further line,
//! until one of them answers an end or none is left. Who has to know the move of a line calls `ask` and `take_move`,
//! of which `take_line` is made.
#![tactic(auto)]

mod beginning;
mod end;
mod laws;
mod lines;
mod moving;
mod replaying;
mod wanted;

pub use beginning::begin_reclaimer;
pub use end::End;
pub use laws::{schedules_come_to_one_end, served_replays_forbid_nothing, starts_stand};
pub use lines::take_line;
pub use moving::take_move;
pub use replaying::replay;
pub use wanted::{Wanted, ask};
