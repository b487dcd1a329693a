//! The typing rules: what a primitive asks of an environment, what it makes of it, and what other
//! threads and the reclaimer make of it between steps; over the syntax, types and observers. Each
//! call is the written rule, and the rules keep the order of environments.
#![tactic(auto)]

mod calls;
mod conditions;
mod effects;
mod fault;
mod interference;
mod laws;
mod types;

pub use conditions::condition;
pub use effects::apply;
pub use fault::TypeFault;
pub use interference::interfere;
pub use laws::{conditions_go_by_facts, rules_keep_order};
