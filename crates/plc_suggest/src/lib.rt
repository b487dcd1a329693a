//! Claims that a program lacks: `suggest` names claims in front of steps that make it typable, none of which can be
//! left out, or says that none in front of steps do. It judges no outline: whether the claims are true is for the check
//! of a file to say.
#![tactic(auto)]

mod laws;
mod marking;
mod parts;
mod search;
mod spot;
mod spots;
mod suggesting;
mod suggestion;
mod trial;

pub use laws::suggestions_are_minimal;
pub use spot::Spot;
pub use suggesting::suggest;
pub use suggestion::{SuggestFault, Suggestion};
