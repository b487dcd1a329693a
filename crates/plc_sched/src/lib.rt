//! From bytes to schedules: `read_schedule` gives exactly the schedule that the lines spell, or the
//! first line that spells nothing.
//!
//! A schedule is a recorded run of a program, as text: lines that line feeds end, the last line feed free,
//! and words parted by one space. Numbers are decimal without leading zeros. Line 1 is `threads N`, N from 1
//! to 64. Each further line is one of
//!
//! - `start T OP D..`: thread T begins the operation OP, a name of 1 to 64 bytes, with at most 32 numbers D
//!   below 2^32;
//! - `step T K` or `step T K A`: thread T takes its step K, at most 65535, and A, 1 to 4096, is the address of
//!   the node that the step allocates;
//! - `return T`: thread T returns from its operation;
//! - `tick`: the reclaimer is asked for an address to free;
//!
//! with T below N. There are at most 100,000 lines. `Entries.antt` of the definitions spells each entry,
//! `Schedules.antt` says which file is which schedule, and which line is the first that isn't so. Whether an
//! entry is possible in a program isn't asked here.
//!
//! `number_of` reads one word alone, as numbers of the command line are written in the same way.
#![tactic(auto)]

mod entries;
mod fault;
mod lines;
mod numbers;
mod reading;
mod schedule;
mod words;

pub use fault::SchedFault;
pub use numbers::number_of;
pub use reading::{read_schedule, schedules_are_unique, schedules_are_within_limits};
pub use schedule::{Entry, Schedule};
