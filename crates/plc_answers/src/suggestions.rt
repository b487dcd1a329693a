// The texts of suggested claims: the spots in their order, then how many there are; or the condition that no claims in
// front of steps make hold; or that there are too many places to put claims.
ghost use Rattle.std.specs.Prelude.{◌≡◌, ◌++◌, IfOk, OnOk};
ghost use Rattle.plc_answers.specs.Suggestions.{spot_line, spot_lines, suggested_text};
ghost use Rattle.plc_answers.specs.Suggestions.{insufficient_text, spots_limit_text};

use crate::names::variable_in;
use crate::pieces::{push, push_bytes, push_number, push_numbered};
use crate::refusals::numbered_text;
use crate::steps::{line_of, operation_of};
use crate::untyped::{FailedCondition, condition_text};
use plc_flow::Flow;
use plc_suggest::Spot;
use std::alloc::{AllocError, Global};

/// The line of a spot: its pointer, the step in front of which the claim would stand, and that step's line.
fn push_spot(out: &mut Vec<u8>, flow: &Flow, spot: Spot) -> Result<(), AllocError>
    ensures { OnOk result (out.new.items ≡ out.old.items ++ spot_line flow.now spot) }
{
    let step = spot.step.0;
    push(out, "active ")?;
    push_bytes(
        out,
        variable_in(&flow.file, operation_of(flow, step), spot.var),
    )?;
    push_numbered(out, " step ", u32::from(step))?;
    push_numbered(out, " line ", line_of(flow, step))?;
    push(out, "\n")
}

/// The lines of spots.
fn push_spots(out: &mut Vec<u8>, flow: &Flow, spots: &[Spot]) -> Result<(), AllocError>
    ensures { OnOk result (out.new.items ≡ out.old.items ++ spot_lines flow.now spots.now) }
{
    for spot in spots {
        push_spot(out, flow, *spot)?;
    }
    Ok(())
}

/// The claims that a file needs, each in front of the step that it names, and how many they are.
pub fn suggested_text(alloc: Global, flow: &Flow, spots: &[Spot]) -> Result<Vec<u8>, AllocError>
    ensures { IfOk result (λ v. v.items ≡ suggested_text flow.now spots.now) }
{
    let mut out = Vec::new(alloc);
    push_spots(&mut out, flow, spots)?;
    push(&mut out, "suggested ")?;
    push_number(&mut out, spots.len() as u64)?;
    push(&mut out, "\n")?;
    Ok(out)
}

/// The text of a file that no claims in front of steps make typable: the step and primitive whose condition fails, its
/// line, and the variable that lacks what is asked.
pub fn insufficient_text(
    alloc: Global,
    flow: &Flow,
    failed: FailedCondition,
) -> Result<Vec<u8>, AllocError>
    ensures { IfOk result (λ v. v.items ≡ insufficient_text flow.now failed.step.0 failed.prim failed.fault) }
{
    condition_text(alloc, "insufficient", flow, failed)
}

/// More places for claims than are tried, with the limit plus one.
pub fn spots_limit_text(alloc: Global, count: u32) -> Result<Vec<u8>, AllocError>
    ensures { IfOk result (λ v. v.items ≡ spots_limit_text count) }
{
    numbered_text(alloc, "refused limit places ", count)
}
