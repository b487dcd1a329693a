//! The clauses of an obligation's ground set, item by item: values, marks, the beginning, the new node, premises,
//! what is executed, and the negated conclusion. Each item is written into a draft in the order of the format, so that
//! what `push_prefix` and then `push_conclusion` write is the list of the definition.
#![tactic(auto)]

mod beginning;
mod conclusion;
mod execution;
mod freshness;
mod instances;
mod items;
mod marks;
mod reading;
mod subject;
mod values;

pub use conclusion::push_conclusion;
pub use execution::{Execution, current, execution_of, version};
pub use items::push_prefix;
pub use subject::Subject;
