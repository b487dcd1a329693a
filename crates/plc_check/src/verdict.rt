// The verdict on what is judged, by its types and by its outline.
ghost use Rattle.std.specs.Prelude.{◌≡◌, IfOk};
ghost use Rattle.plc_vocabulary.specs.Fit.{Fits};
ghost use Rattle.plc_check.specs.declared.verdict.Verdict.TheVariants.{Unproved};
ghost use Rattle.plc_check.specs.Strongest.{IsStrongestTyping, IsTypedAs};
ghost use Rattle.plc_check.specs.Verdicts.{IsVerdictOn};

use crate::counterexample::Counterexample;
use crate::judged::Judged;
use crate::open::first_counterexample;
use plc_base::{NoMemory, StepId};
use plc_ground::{GroundModel, GroundSet};
use plc_infer::{InferFault, Typing, infer};
use plc_oblig::{Obligation, count};
use plc_xfer::TypeFault;
use std::alloc::Global;

/// What the checker says of a file.
#[derive(Drop)]
pub enum Verdict {
    /// It has a typing, of which the strongest is given, and its outline holds, with so many obligations.
    Safe {
        typing: Typing,
        obligations: u64,
    },
    /// The condition of this primitive fails under every pre-typing, as no earlier one does.
    Untyped {
        step: StepId,
        prim: u16,
        fault: TypeFault,
    },
    /// It has a typing, but its outline doesn't hold: the least obligation that isn't kept, with its ground
    /// set and a model of that.
    Unproved {
        obligation: Obligation,
        set: GroundSet,
        model: GroundModel,
    },
}

/// What the types of a file come to.
#[derive(Drop)]
pub enum Typed {
    /// The strongest of its typings.
    Typing(Typing),
    /// It has none: the condition of this primitive fails under every pre-typing, as no earlier one does.
    Untyped {
        step: StepId,
        prim: u16,
        fault: TypeFault,
    },
}

/// The strongest typing of what [`crate::load`] gave, or the condition that none meets. The one error is that memory
/// runs out.
pub fn strongest_typing(alloc: Global, judged: &Judged) -> Result<Typed, NoMemory>
    requires { Fits judged.now.flow judged.now.unit_outline }
    ensures { IfOk result (IsTypedAs judged.now) }
{
    match infer(alloc, &judged.flow, &judged.observer) {
        Ok(typing) => Ok(Typed::Typing(typing)),
        Err(InferFault::Stuck { step, prim, fault }) => Ok(Typed::Untyped { step, prim, fault }),
        Err(InferFault::Memory) => Err(NoMemory),
    }
}

/// The verdict that an obligation isn't kept.
pub(crate) fn unproved_verdict(found: Counterexample) -> Verdict
    ensures { result ≡ Unproved found.obligation found.set found.model }
{
    Verdict::Unproved {
        obligation: found.obligation,
        set: found.set,
        model: found.model,
    }
}

/// The verdict where there is a typing: by the outline alone.
fn judge_outline(alloc: Global, judged: &Judged, typing: Typing) -> Result<Verdict, NoMemory>
    requires fits { Fits judged.now.flow judged.now.unit_outline }
    requires typing { IsStrongestTyping judged.now typing.env }
    ensures { IfOk result (IsVerdictOn judged.now) }
{
    match first_counterexample(alloc, judged)? {
        None => Ok(Verdict::Safe {
            typing,
            obligations: count(&judged.flow, &judged.unit_outline),
        }),
        Some(found) => Ok(unproved_verdict(found)),
    }
}

/// The verdict on what [`crate::load`] gave: `Untyped` where it has no typing, else `Unproved` where its outline
/// doesn't hold, else `Safe`. The ground sets are made one at a time. The one error is that memory runs out,
/// which 2^32 terms or clauses of a ground set count as.
pub fn check(alloc: Global, judged: &Judged) -> Result<Verdict, NoMemory>
    requires { Fits judged.now.flow judged.now.unit_outline }
    ensures { IfOk result (IsVerdictOn judged.now) }
{
    match strongest_typing(alloc, judged)? {
        Typed::Typing(typing) => judge_outline(alloc, judged, typing),
        Typed::Untyped { step, prim, fault } => Ok(Verdict::Untyped { step, prim, fault }),
    }
}
