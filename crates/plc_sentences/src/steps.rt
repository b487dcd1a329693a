// A step in words: its number, its line and its primitives; and the number by which a schedule takes it.
ghost use Rattle.std.specs.Prelude.{◌≡◌, ◌≤◌, Some, length, slice_get, take, count_by};
ghost use Rattle.plc_flow.specs.declared.flow.Step.{Step as AStep};
ghost use Rattle.plc_flow.specs.Points.{leaves, steps_from};

use crate::primitives::push_primitive;
use plc_answers::{push, push_bytes, push_numbered};
use plc_base::{PointId, StepId};
use plc_flow::{Flow, Step};
use plc_lang::{File, Local, Prim, locals_of, operation_name};
use std::alloc::AllocError;

/// The first steps of a flow, so many.
pub(crate) fn first_steps(flow: &Flow, count: usize) -> &[Step]
    ensures first { result.now ≡ take count flow.now.steps }
    ensures few { length result.now ≤ count }
{
    let steps = flow.steps.as_slice();
    if count < steps.len() {
        &steps[..count]
    } else {
        steps
    }
}

/// How many of these steps leave a point.
pub(crate) fn count_leaving(steps: &[Step], from: PointId) -> usize
    ensures count { result ≡ count_by (leaves from.0) steps.now }
    ensures few { result ≤ length steps.now }
{
    steps.iter().filter(|s| s.from.0 == from.0).count()
}

/// The number by which a schedule takes a step: how many earlier steps leave the same point. It is 0 where there is no
/// such step.
pub fn nth_of(flow: &Flow, step: StepId) -> u16
    ensures { (s : AStep) → slice_get flow.now.steps step.0 ≡ Some s
        → slice_get (steps_from flow.now s.from.0) result ≡ Some s }
{
    match flow.steps.get(step.0 as usize) {
        Some(taken) => count_leaving(first_steps(flow, step.0 as usize), taken.from) as u16,
        None => 0,
    }
}

/// Primitives, one after another.
fn push_prims(
    out: &mut Vec<u8>,
    file: &File,
    locals: &[Local],
    prims: &[Prim],
) -> Result<(), AllocError> {
    for (k, prim) in prims.iter().enumerate() {
        if k > 0 {
            push(out, "; ")?;
        }
        push_primitive(out, file, locals, prim)?;
    }
    Ok(())
}

/// Where a step goes that does nothing else.
fn push_going(out: &mut Vec<u8>, flow: &Flow, step: &Step) -> Result<(), AllocError> {
    match flow.gates.get(step.op.0 as usize) {
        Some(gate) if gate.exit.0 == step.to.0 => {
            push(out, "goes to the exit of ")?;
            push_bytes(out, operation_name(&flow.file, step.op))
        }
        _ => push(out, "goes on"),
    }
}

/// The locals of the operation of a step.
pub(crate) fn locals_of_step<'a>(flow: &'a Flow, step: &Step) -> &'a [Local] {
    locals_of(flow.file.ops.as_slice(), step.op.0 as usize)
}

/// What a step does: its primitives, parted by semicolons. One that has none goes on, or goes to the exit.
pub(crate) fn push_deeds(out: &mut Vec<u8>, flow: &Flow, step: &Step) -> Result<(), AllocError> {
    let prims = step.prims.as_slice();
    if prims.is_empty() {
        push_going(out, flow, step)
    } else {
        push_prims(out, &flow.file, locals_of_step(flow, step), prims)
    }
}

/// A step with its line and what it does: `step 24, line 32: s := t.next`. Primitives are parted by semicolons. A step
/// that has none `goes on`, or `goes to the exit of pop`. Where there is no such step its number stands alone. The one
/// error is that memory runs out.
pub fn push_step(out: &mut Vec<u8>, flow: &Flow, step: StepId) -> Result<(), AllocError> {
    push_numbered(out, "step ", u32::from(step.0))?;
    match flow.steps.get(step.0 as usize) {
        Some(step) => {
            push_numbered(out, ", line ", step.line)?;
            push(out, ": ")?;
            push_deeds(out, flow, step)
        }
        None => Ok(()),
    }
}
