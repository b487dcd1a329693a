//! Tests of pages: that there is memory for one, and what stands on it. A row has the words, the bytes of a file, and
//! the status; then a piece that the page has, and one that it hasn't.
#![tactic(auto)]

#[cfg(test)]
mod tests;
