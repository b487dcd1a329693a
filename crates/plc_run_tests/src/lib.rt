//! Tests of observers, types, inference, memory, runs, reclaimers and replays: whole answers to rows of texts, with
//! memory enough. They stand on top of the crates that they test, as plc_tests says.
#![tactic(auto)]

#[cfg(test)]
mod tests;
