//! Type inference over control flows and the typing rules: `infer` answers Ok exactly where a
//! typing exists, with the strongest one, and else names the condition that no typing meets; `pretyping` gives the
//! environments whether or not conditions hold; `resume` goes on from environments that were reached before some steps
//! changed.
#![tactic(auto)]

mod faults;
mod fixpoint;
mod flow_lists;
mod program;
mod resuming;
mod starts;
mod typing;
mod work_list;

pub use program::{Edge, Program, edges, entries, pointers_by_point};
pub use resuming::resume;
pub use typing::{InferFault, Typing, infer, infer_program, pretyping};
