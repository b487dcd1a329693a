// The line and the operation of a step, by which answers name what stands in it.
ghost use Rattle.std.specs.Prelude.{◌≡◌, slice_get};
ghost use Rattle.plc_answers.specs.Steps.{step_line, step_operation};

use plc_flow::Flow;

/// The line of the file at which a step stands, by its number among the steps of the flow; 0 where there is no such
/// step.
pub fn line_of(flow: &Flow, step: u16) -> u32
    ensures { result ≡ step_line (slice_get flow.now.steps step) }
{
    match flow.steps.get(step as usize) {
        Some(step) => step.line,
        None => 0,
    }
}

/// The number of the operation of a step.
pub(crate) fn operation_of(flow: &Flow, step: u16) -> u16
    ensures { result ≡ step_operation (slice_get flow.now.steps step) }
{
    match flow.steps.get(step as usize) {
        Some(step) => step.op.0,
        None => 0,
    }
}
