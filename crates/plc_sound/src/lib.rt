//! The law of types, over the definitions of memory, runs and typings alone: under a typing no step whose claims are
//! true is a pointer race or a second retire, and so no run is in which each claim that it reaches is true.
//! `plc_safety` cites it.
#![tactic(auto)]

mod laws;

pub use laws::{true_claims_suffice, types_are_sound};
