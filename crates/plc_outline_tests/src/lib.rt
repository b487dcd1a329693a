//! Tests of what outlines need: garbage-collected configurations, alone and beside those of memory, obligations, as an
//! independent reading of the lists gives them, ground sets, the solver, and certificates. Whole answers to rows of
//! texts, with memory enough. They stand on top of the crates that they test, as plc_tests says.
#![tactic(auto)]

#[cfg(test)]
mod tests;
