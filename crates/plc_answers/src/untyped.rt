// The text of a condition that fails: in an untyped file, or in one that no claims in front of steps make typable.
ghost use Rattle.std.specs.Prelude.{◌≡◌, ◌++◌, IfOk, OnOk, codes, decimal, slice_get};
ghost use Rattle.plc_answers.specs.Names.{variable_in};
ghost use Rattle.plc_answers.specs.Steps.{step_line, step_operation};
ghost use Rattle.plc_answers.specs.Untyped.{condition_text, untyped_text, fault_word, fault_variable};

use crate::names::variable_in;
use crate::pieces::{push, push_bytes, push_numbered};
use crate::refusals::fixed_text;
use crate::steps::{line_of, operation_of};
use plc_base::StepId;
use plc_flow::Flow;
use plc_lang::Var;
use plc_xfer::TypeFault;
use std::alloc::{AllocError, Global};

/// The word for the kind of condition that fails.
fn fault_word(fault: TypeFault) -> &'static str
    ensures { result.now ≡ fault_word fault }
{
    match fault {
        TypeFault::DerefNotSafe { .. } => "deref",
        TypeFault::CompareNotSafe { .. } => "compare",
        TypeFault::RetireNotActive { .. } => "retire",
    }
}

/// The variable that lacks what a condition asks.
fn fault_variable(fault: TypeFault) -> Var
    ensures { result ≡ fault_variable fault }
{
    match fault {
        TypeFault::DerefNotSafe { var } => var,
        TypeFault::CompareNotSafe { var } => var,
        TypeFault::RetireNotActive { var } => var,
    }
}

/// A condition that fails: that of a primitive, by its step and its number there, and what is lacking.
#[derive(Clone, Copy)]
pub struct FailedCondition {
    pub step: StepId,
    pub prim: u16,
    pub fault: TypeFault,
}

/// The step and the primitive whose condition fails, and its line.
fn push_place(out: &mut Vec<u8>, flow: &Flow, failed: FailedCondition) -> Result<(), AllocError>
    ensures { OnOk result (out.new.items ≡ out.old.items ++ codes " step " ++ decimal failed.step.0
        ++ codes " prim " ++ decimal failed.prim
        ++ codes " line " ++ decimal (step_line (slice_get flow.now.steps failed.step.0))) }
{
    push_numbered(out, " step ", u32::from(failed.step.0))?;
    push_numbered(out, " prim ", u32::from(failed.prim))?;
    push_numbered(out, " line ", line_of(flow, failed.step.0))
}

/// What is lacking: the kind of the condition, and the variable of which it asks.
fn push_lack(out: &mut Vec<u8>, flow: &Flow, failed: FailedCondition) -> Result<(), AllocError>
    ensures { OnOk result (out.new.items ≡ out.old.items ++ codes " " ++ fault_word failed.fault ++ codes " "
        ++ variable_in flow.now.file (step_operation (slice_get flow.now.steps failed.step.0))
        (fault_variable failed.fault) ++ codes "\n") }
{
    let operation = operation_of(flow, failed.step.0);
    push(out, " ")?;
    push(out, fault_word(failed.fault))?;
    push(out, " ")?;
    push_bytes(
        out,
        variable_in(&flow.file, operation, fault_variable(failed.fault)),
    )?;
    push(out, "\n")
}

/// The text of a condition that fails, after `word`, which says what that makes of the file.
pub(crate) fn condition_text(
    alloc: Global,
    word: &str,
    flow: &Flow,
    failed: FailedCondition,
) -> Result<Vec<u8>, AllocError>
    ensures { IfOk result (λ v. v.items ≡ condition_text word.now flow.now failed.step.0 failed.prim failed.fault) }
{
    let mut out = fixed_text(alloc, word)?;
    push_place(&mut out, flow, failed)?;
    push_lack(&mut out, flow, failed)?;
    Ok(out)
}

/// The text of a file without a typing: the step and primitive whose condition fails, its line, and the variable that
/// lacks what is asked.
pub fn untyped_text(
    alloc: Global,
    flow: &Flow,
    failed: FailedCondition,
) -> Result<Vec<u8>, AllocError>
    ensures { IfOk result (λ v. v.items ≡ untyped_text flow.now failed.step.0 failed.prim failed.fault) }
{
    condition_text(alloc, "untyped", flow, failed)
}
