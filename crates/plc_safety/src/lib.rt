//! The joint law of erasure, types and outlines: a flow with a typing and an outline that holds is safe, in
//! every run. The headline of the program (`plc_cli`) rests on this statement, for `check` and for `verify`.
//! Claims of locations that follow from the two are true in every run as well.
#![tactic(auto)]

mod laws;

pub use laws::{
    active_words_agree, claims_of_one_run_suffice, located_claims_are_true, true_gc_claims_suffice,
    typed_and_held_programs_are_safe,
};
