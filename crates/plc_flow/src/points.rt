// Where a busy thread stands, and the steps that leave there. Runs with a reclaimer and runs with a
// garbage collector take the same steps, so both find them here.
ghost use Rattle.std.specs.Prelude.{◌≡◌, slice_get};
ghost use Rattle.std.specs.Option.{option_copied};
ghost use Rattle.plc_flow.specs.Points.{steps_from, names_rightly};

use crate::flow::{Flow, Step};
use plc_lang::has_new;

/// The operation and the point of a thread.
#[derive(Clone, Copy)]
pub struct Point {
    pub op: u16,
    pub at: u16,
}

/// The nth of the steps that leave a point, in order of the flow's steps, if there are so many.
pub fn nth_step(flow: &Flow, at: u16, nth: u16) -> Option<&Step>
    ensures { option_copied result ≡ slice_get (steps_from flow.now at) nth }
{
    let mut left = nth;
    for step in flow.steps.as_slice() {
        if step.from.0 == at {
            if left == 0 {
                return Some(step);
            }
            left -= 1;
        }
    }
    None
}

/// Whether an address is named exactly where the step has a `new`.
pub fn names_rightly(step: &Step, addr: Option<u32>) -> bool
    ensures { result ≡ names_rightly addr step.now }
{
    let allocates = has_new(step.prims.as_slice());
    if addr.is_some() {
        allocates
    } else {
        !allocates
    }
}
