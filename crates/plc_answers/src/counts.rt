// How large a flow is, as answers to certificates and samples say it.
ghost use Rattle.std.specs.Prelude.{◌≡◌, ◌++◌, OnOk};
ghost use Rattle.plc_answers.specs.Counts.{counts_text};

use crate::pieces::{push, push_number};
use plc_flow::Flow;
use std::alloc::AllocError;

/// The numbers of points, steps and obligations.
pub(crate) fn push_counts(
    out: &mut Vec<u8>,
    flow: &Flow,
    obligations: u64,
) -> Result<(), AllocError>
    ensures { OnOk result (out.new.items ≡ out.old.items ++ counts_text flow.now obligations) }
{
    push(out, " points ")?;
    push_number(out, u64::from(flow.points))?;
    push(out, " steps ")?;
    push_number(out, flow.steps.len() as u64)?;
    push(out, " obligations ")?;
    push_number(out, obligations)
}
