// Why a step has no types, in a sentence, and what an author may ask about it.
use crate::primitives::push_primitive;
use crate::steps::locals_of_step;
use plc_answers::{push, push_bytes, variable_in};
use plc_base::StepId;
use plc_flow::{Flow, Step};
use plc_lang::{Prim, Var};
use plc_xfer::TypeFault;
use std::alloc::AllocError;

/// What a condition asks: what the primitive does with which variable, and what has to be known of it.
#[derive(Clone, Copy)]
struct Asked {
    var: Var,
    deed: &'static str,
    asks: &'static str,
}

/// What a primitive does with a pointer through which it goes.
fn through(prim: Prim) -> &'static str {
    match prim {
        Prim::Store { .. }
        | Prim::StoreNull { .. }
        | Prim::DataStore { .. }
        | Prim::RefreshStore { .. } => " writes through ",
        _ => " looks through ",
    }
}

/// What the condition asks that fails.
fn what_is_asked(prim: Prim, fault: TypeFault) -> Asked {
    match fault {
        TypeFault::DerefNotSafe { var } => Asked {
            var,
            deed: through(prim),
            asks: ", which has to be safe here",
        },
        TypeFault::CompareNotSafe { var } => Asked {
            var,
            deed: " compares ",
            asks: ", which has to be safe here",
        },
        TypeFault::RetireNotActive { var } => Asked {
            var,
            deed: " retires ",
            asks: ", which has to be active here: safe, and not retired yet",
        },
    }
}

/// What a primitive does, and what its condition asks.
fn push_condition(
    out: &mut Vec<u8>,
    flow: &Flow,
    step: &Step,
    prim: Prim,
    fault: TypeFault,
) -> Result<(), AllocError> {
    let asked = what_is_asked(prim, fault);
    push_primitive(out, &flow.file, locals_of_step(flow, step), &prim)?;
    push(out, asked.deed)?;
    push_bytes(out, variable_in(&flow.file, step.op.0, asked.var))?;
    push(out, asked.asks)
}

/// A primitive whose condition fails: what it does with which variable, and what has to be known of that.
/// `s := t.next looks through t, which has to be safe here`. Nothing where there is no such step. The one
/// error is that memory runs out.
pub fn push_untyped(
    out: &mut Vec<u8>,
    flow: &Flow,
    step: StepId,
    prim: u16,
    fault: TypeFault,
) -> Result<(), AllocError> {
    let Some(step) = flow.steps.get(step.0 as usize) else {
        return Ok(());
    };
    match step.prims.get(prim as usize) {
        Some(prim) => push_condition(out, flow, step, *prim, fault),
        None => Ok(()),
    }
}

const DEREF: [(&str, &str); 3] = [
    (
        "is the node in the container at this moment?",
        "`active v` in the same block as the step that saw it there",
    ),
    (
        "was it in the container when it was protected?",
        "look again after `protect(v)`, in one block with `active v`",
    ),
    (
        "did I give it away before, or leave the epoch?",
        "move the access before that",
    ),
];

const COMPARE: [(&str, &str); 2] = [
    (
        "do I mean the node, or the number?",
        "the node: `active v` in the block. The number: a refresh, `?=`",
    ),
    (
        "is v a shared pointer?",
        "`active v` in the block, or `cas(active v, ..)`",
    ),
];

const RETIRE: [(&str, &str); 1] = [(
    "why is it not retired yet?",
    "`retire(active v)`; who unlinked it owns it",
)];

/// What to do about a condition that fails: what the author may ask, and what to write if that is so. `v` stands for
/// the variable, and what the file would say stands between backquotes. (The table of the guide.)
pub fn advice(fault: TypeFault) -> &'static [(&'static str, &'static str)] {
    match fault {
        TypeFault::DerefNotSafe { .. } => &DEREF,
        TypeFault::CompareNotSafe { .. } => &COMPARE,
        TypeFault::RetireNotActive { .. } => &RETIRE,
    }
}
