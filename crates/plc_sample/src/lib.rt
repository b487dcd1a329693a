//! Samples: files of any size from one to sixteen times that of a stack, by which the growth of a verdict's time is
//! measured. `text` makes one, on nothing but the numbers of its operations, and may leave out one line, so
//! that wrong files of each size are there too.
#![tactic(auto)]

mod numbering;
mod parts;
mod sample;

pub use sample::{lines_of, text};
