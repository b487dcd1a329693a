//! From syntax to control flow, on the syntax types alone: `lower` gives the points, steps and
//! labels that the lowering's definition makes of a file, in its order.
#![tactic(auto)]

mod builder;
mod flow;
mod laws;
mod lowering;
mod marks;
mod points;
mod sides;
mod statements;
mod steps_by_point;

pub use flow::{Flow, FlowFault, Gate, Step};
pub use laws::{flows_fit, lowering_keeps_marks, opposites_are_tests, steps_stay_in_their_gate};
pub use lowering::lower;
pub use marks::uses_marks;
pub use points::{Point, names_rightly, nth_step};
pub use steps_by_point::StepsByPoint;
