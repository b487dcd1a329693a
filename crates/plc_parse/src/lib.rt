//! From tokens to the unit that they spell: the meaning is defined on the grammar's trees of `plc_syntax`, and
//! worked out on `plc_tree`'s, which are their form in memory; the layer above uses that `parse` answers the one
//! unit that the tokens spell, or their fault at the least token.
#![tactic(auto)]

mod auxiliary;
mod block;
mod declaration;
mod file;
mod lines;
mod lists;
mod local;
mod marks;
mod operation;
mod reading;
mod statement;
mod step;
mod unit;

pub use lines::line_at;
pub use marks::units_use_their_marks;
pub use plc_scope::ParseFault;
pub use reading::{faults_are_one, parse, units_are_unique, units_fit};
pub use unit::Unit;
