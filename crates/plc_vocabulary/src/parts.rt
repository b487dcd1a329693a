// The parts of an obligation: which primitives are executed, whose locals they name, at which points the
// threads stand before, and the clause that is to hold after.
ghost use Rattle.std.specs.Prelude.{◌≡◌, ◌++◌, take, slice_get, option_copied};
ghost use Rattle.plc_lang.specs.Locals.{locals_of};
ghost use Rattle.plc_flow.specs.declared.flow.Flow.{Flow as AFlow};
ghost use Rattle.plc_logic.specs.declared.clause.Outline.{Outline as AnOutline};
ghost use Rattle.plc_vocabulary.specs.Fit.{Fits};
ghost use Rattle.plc_vocabulary.specs.Parts.{prims_of, executed, locals_of_step, acting_locals};
ghost use Rattle.plc_vocabulary.specs.Parts.{has_point, point_locals};
ghost use Rattle.plc_vocabulary.specs.Parts.{owner_locals, has_owner, first_point, acting_point, owner_point};
ghost use Rattle.plc_vocabulary.specs.Parts.{invariants_before, clauses_of, acting_premises, owner_premises};
ghost use Rattle.plc_vocabulary.specs.Parts.{clauses_after, conclusion, claim_made};

use crate::obligations::Obligation;
use crate::points::clause_at;
use plc_base::{OpId, PointId, StepId};
use plc_flow::{Flow, Gate, Step};
use plc_lang::{Local, Prim, locals_of};
use plc_logic::{Clause, Outline};

/// The step, if there is one with this number.
fn step_at(flow: &Flow, step: StepId) -> Option<&Step>
    ensures { option_copied result ≡ slice_get flow.now.steps step.0 }
{
    flow.steps.get(step.0 as usize)
}

/// The primitives of a step.
fn prims_of(step: Option<&Step>) -> &[Prim]
    ensures { result.now ≡ prims_of (option_copied step.entry) }
{
    match step {
        None => &[],
        Some(step) => step.prims.as_slice(),
    }
}

/// The first primitives, so many.
fn first_prims(prims: &[Prim], k: usize) -> &[Prim]
    ensures { result.now ≡ take k prims.now }
{
    if k < prims.len() { &prims[..k] } else { prims }
}

/// The primitives that are executed.
pub fn executed<'a>(flow: &'a Flow, o: &Obligation) -> &'a [Prim]
    ensures { result.now ≡ executed flow.now o.now }
{
    match *o {
        Obligation::Start { .. } => flow.file.init.as_slice(),
        Obligation::Enter { .. } => &[],
        Obligation::Own { step, .. } => prims_of(step_at(flow, step)),
        Obligation::Other { step, .. } => prims_of(step_at(flow, step)),
        Obligation::Claim { step, prim } => first_prims(
            prims_of(step_at(flow, step)),
            prim as usize,
        ),
    }
}

/// The locals of an operation.
fn op_locals(flow: &Flow, op: OpId) -> &[Local]
    ensures { result.now ≡ locals_of flow.now.file.ops op.0 }
{
    locals_of(flow.file.ops.as_slice(), op.0 as usize)
}

/// The locals of the operation of a step.
fn step_locals<'a>(flow: &'a Flow, step: Option<&Step>) -> &'a [Local]
    ensures { result.now ≡ locals_of_step flow.now (option_copied step.entry) }
{
    match step {
        None => &[],
        Some(step) => op_locals(flow, step.op),
    }
}

/// The locals of the acting thread; `init` has none.
pub fn acting_locals<'a>(flow: &'a Flow, o: &Obligation) -> &'a [Local]
    ensures { result.now ≡ acting_locals flow.now o.now }
{
    match *o {
        Obligation::Start { .. } => &[],
        Obligation::Enter { op, .. } => op_locals(flow, op),
        Obligation::Own { step, .. } => step_locals(flow, step_at(flow, step)),
        Obligation::Other { step, .. } => step_locals(flow, step_at(flow, step)),
        Obligation::Claim { step, .. } => step_locals(flow, step_at(flow, step)),
    }
}

/// Whether the point belongs to the operation.
pub fn has_point(gate: &Gate, p: u16) -> bool
    ensures { result ≡ has_point p gate.now }
{
    gate.first <= p && p < gate.after
}

/// The locals of the operation that has the point.
fn point_locals(flow: &Flow, point: PointId) -> &[Local]
    ensures { result.now ≡ point_locals flow.now point.0 }
{
    for (op, gate) in flow.gates.as_slice().iter().enumerate() {
        if has_point(gate, point.0) {
            return locals_of(flow.file.ops.as_slice(), op);
        }
    }
    &[]
}

/// The locals of the thread whose clause is looked at, where that is another.
pub fn owner_locals<'a>(flow: &'a Flow, o: &Obligation) -> &'a [Local]
    ensures { result.now ≡ owner_locals flow.now o.now }
{
    match owner_point(o) {
        None => &[],
        Some(point) => point_locals(flow, point),
    }
}

/// Whether the clause is another thread's.
pub fn has_owner(o: &Obligation) -> bool
    ensures { result ≡ has_owner o.now }
{
    owner_point(o).is_some()
}

/// The point from which a step goes.
fn first_point(step: Option<&Step>) -> Option<PointId>
    ensures { result ≡ first_point (option_copied step.entry) }
{
    match step {
        None => None,
        Some(step) => Some(step.from),
    }
}

/// The point at which the acting thread stands before, if it stands at one.
pub fn acting_point(flow: &Flow, o: &Obligation) -> Option<PointId>
    ensures point { result ≡ acting_point flow.now o.now }
    ensures premises { (outline : AnOutline) → acting_premises flow.now outline o.now
        ≡ invariants_before outline o.now ++ clauses_of flow.now outline result }
{
    match *o {
        Obligation::Start { .. } => None,
        Obligation::Enter { .. } => None,
        Obligation::Own { step, .. } => first_point(step_at(flow, step)),
        Obligation::Other { step, .. } => first_point(step_at(flow, step)),
        Obligation::Claim { step, .. } => first_point(step_at(flow, step)),
    }
}

/// The point at which another thread stands, if its clause is looked at.
pub fn owner_point(o: &Obligation) -> Option<PointId>
    ensures point { result ≡ owner_point o.now }
    ensures premises { (flow : AFlow) (outline : AnOutline) → owner_premises flow outline o.now
        ≡ clauses_of flow outline result }
{
    match *o {
        Obligation::Other { point, .. } => Some(point),
        _ => None,
    }
}

/// The invariants that hold before; before `init` there are none.
pub fn invariants_before<'a>(outline: &'a Outline, o: &Obligation) -> &'a [Clause]
    ensures { result.now ≡ invariants_before outline.now o.now }
{
    match o {
        Obligation::Start { .. } => &[],
        _ => outline.invariants.as_slice(),
    }
}

/// An invariant, or, where the number is past theirs, a clause of the step's last point.
fn own_clause<'a>(
    flow: &Flow,
    outline: &'a Outline,
    step: StepId,
    clause: u16,
) -> Option<&'a Clause>
    requires { Fits flow.now outline.now }
    ensures { option_copied result ≡ slice_get (outline.now.invariants
        ++ clauses_after flow.now outline.now (slice_get flow.now.steps step.0)) clause }
{
    let invariants = outline.invariants.len() as u16;
    if clause < invariants {
        return outline.invariants.get(clause as usize);
    }
    let step = step_at(flow, step)?;
    clause_at(flow, outline, step.to.0, clause - invariants)
}

/// The clause that is to hold after, if it isn't a claim.
pub fn conclusion<'a>(flow: &Flow, outline: &'a Outline, o: &Obligation) -> Option<&'a Clause>
    requires { Fits flow.now outline.now }
    ensures { option_copied result ≡ conclusion flow.now outline.now o.now }
{
    match *o {
        Obligation::Start { inv } => outline.invariants.get(inv as usize),
        Obligation::Enter { op, clause } => {
            let gate = flow.gates.get(op.0 as usize)?;
            clause_at(flow, outline, gate.entry.0, clause)
        }
        Obligation::Own { step, clause } => own_clause(flow, outline, step, clause),
        Obligation::Other { point, clause, .. } => clause_at(flow, outline, point.0, clause),
        Obligation::Claim { .. } => None,
    }
}

/// The primitive that makes the claim, if the conclusion is one.
pub fn claim_made(flow: &Flow, o: &Obligation) -> Option<Prim>
    ensures { result ≡ claim_made flow.now o.now }
{
    match *o {
        Obligation::Claim { step, prim } => prims_of(step_at(flow, step))
            .get(prim as usize)
            .copied(),
        _ => None,
    }
}
