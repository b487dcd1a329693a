//! Tests of the program, of files and of outputs: that there is memory for an answer, which no contract can
//! promise, and whole answers from outside of the definitions. A row has words and files, and what is wanted.
//!
//! Tests stand in crates of their own on top, here and in the other crates whose names end so, since a crate with tests
//! of its own is proved twice. What costs is each way out of a function while a large value lives there: so a helper
//! owns a file, a flow or a memory, comes to its one end with a text, and a test goes over rows of texts.
#![tactic(auto)]

#[cfg(test)]
mod tests;
