//! What every item of an obligation's ground set rests on: what is executed, whose locals are named, what
//! holds before and what is to hold after, and from these the variables, the constants, the nodes and the sorts.
#![tactic(auto)]

mod acts;
mod constants;
mod laws;
mod marks;
mod nodes;
mod numbers;
mod obligations;
mod parts;
mod points;
mod setting;
mod sorts;
mod symbols;

pub use acts::{Act, mark_of, pointer_symbol};
pub use constants::constants_of;
pub use laws::{numbers_fit, settings_are_well_sorted};
pub use marks::program_uses_marks;
pub use obligations::Obligation;
pub use parts::{
    acting_locals, acting_point, claim_made, conclusion, executed, has_owner, has_point,
    invariants_before, owner_locals, owner_point,
};
pub use points::{clause_at, count_at, is_labelled, stands_at};
pub use setting::{Setting, Variables, bound_of, local_symbol, setting_of};
pub use sorts::sort_of;
