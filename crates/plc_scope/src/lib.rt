//! Which names are in reach, and what primitives, conditions and calls mean, over `plc_syntax`'s forms;
//! the layer above uses that each answer is the one that the definitions give for the form's tree, or
//! their fault at the least token.
#![tactic(auto)]

mod assignments;
mod binding;
mod calls;
mod conditions;
mod fault;
mod lookup;
mod numbers;
mod primitives;
mod refreshes;
mod scope;

pub use binding::{Binding, Found, Role};
pub use calls::{Called, call};
pub use conditions::condition;
pub use fault::{ParseFault, Resolved};
pub use primitives::{initial, primitive};
pub use scope::{Scope, add_name};
