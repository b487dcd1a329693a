// What of an outline isn't shown, a sentence for each kind of obligation. That a clause may be broken says no more than
// that: a model is a state in which all that the outline says is true, and no run needs to come to it. Many clauses are
// lost at a point that has no label, so that nothing can be said there; the sentence then says so.
use crate::clauses::{ClauseId, Clauses, clause_of};
use crate::points::{operation_of, push_point};
use crate::primitives::push_primitive;
use crate::steps::{locals_of_step, push_deeds};
use plc_answers::{push, push_bytes, push_numbered};
use plc_base::{OpId, PointId, StepId};
use plc_flow::{Flow, Step};
use plc_lang::operation_name;
use plc_logic::{Outline, Site};
use plc_vocabulary::{Obligation, count_at, is_labelled, stands_at};
use std::alloc::AllocError;

/// What writing a part of a sentence answers: nothing, or that memory runs out.
type Written = Result<(), AllocError>;

/// What sentences are about.
#[derive(Clone, Copy)]
struct Subject<'a> {
    flow: &'a Flow,
    outline: &'a Outline,
    clauses: &'a Clauses<'a>,
}

/// The line of a clause, and its text.
fn push_placed(out: &mut Vec<u8>, about: &Subject, id: ClauseId) -> Written {
    match about.clauses.placed(id) {
        Some(placed) => {
            push_numbered(out, " in line ", placed.line)?;
            push(out, " (`")?;
            about.clauses.push_text(out, placed)?;
            push(out, "`)")
        }
        None => Ok(()),
    }
}

/// A clause, by its operation if it isn't an invariant, with its line and its text.
fn push_clause(
    out: &mut Vec<u8>,
    about: &Subject,
    operation: &[u8],
    id: Option<ClauseId>,
) -> Written {
    match id {
        None => push(out, "a clause"),
        Some(ClauseId::Invariant(_)) => push(out, "the invariant"),
        Some(ClauseId::Item(_)) => {
            push(out, "the clause of ")?;
            push_bytes(out, operation)
        }
    }?;
    match id {
        None => Ok(()),
        Some(id) => push_placed(out, about, id),
    }
}

/// An invariant that may be wrong where a run begins.
fn push_start(out: &mut Vec<u8>, about: &Subject, id: Option<ClauseId>) -> Written {
    push(out, "where a run begins, ")?;
    push_clause(out, about, &[], id)?;
    push(out, " may be wrong")
}

/// A clause that may be wrong where an operation begins.
fn push_enter(out: &mut Vec<u8>, about: &Subject, op: OpId, id: Option<ClauseId>) -> Written {
    let operation = operation_name(&about.flow.file, op);
    push(out, "where ")?;
    push_bytes(out, operation)?;
    push(out, " begins, with all its pointers null, ")?;
    push_clause(out, about, operation, id)?;
    push(out, " may be wrong")
}

/// Whether the clause of this step's last point stands at its first point, too. An invariant stands everywhere.
fn stands_before(about: &Subject, from: PointId, id: Option<ClauseId>) -> bool {
    match id {
        Some(ClauseId::Item(k)) => match about.outline.items.get(k as usize) {
            Some(item) => stands_at(about.flow, from.0, is_labelled(about.flow, from.0), item),
            None => true,
        },
        _ => true,
    }
}

/// Whether a clause stands at the point by a label.
fn is_said_at_label(about: &Subject, from: PointId) -> bool {
    if !is_labelled(about.flow, from.0) {
        return false;
    }
    for item in about.outline.items.as_slice() {
        if matches!(item.site, Site::At(_)) && stands_at(about.flow, from.0, true, item) {
            return true;
        }
    }
    false
}

/// What is missing at the point before a step, where `stands` says whether the clause that is asked for stands there.
fn missing(about: &Subject, from: PointId, stands: bool) -> Option<&'static str> {
    if count_at(about.flow, about.outline, from.0) == 0 {
        Some("; no clause stands")
    } else if !stands {
        Some("; this clause doesn't stand")
    } else if !is_said_at_label(about, from) {
        Some("; only clauses with `over` stand")
    } else {
        None
    }
}

/// What is missing at the point before a step, if something is.
fn push_before(out: &mut Vec<u8>, about: &Subject, from: PointId, stands: bool) -> Written {
    let Some(words) = missing(about, from, stands) else {
        return Ok(());
    };
    push(out, words)?;
    push(out, " at the point before this step")?;
    if !is_labelled(about.flow, from.0) {
        push(out, ", which has no label")?;
    }
    push(out, ": ")?;
    push_point(out, about.flow, from)
}

/// That a step may break a clause of its own thread, or doesn't lead to it.
fn push_own(out: &mut Vec<u8>, about: &Subject, step: &Step, id: Option<ClauseId>) -> Written {
    let stands = stands_before(about, step.from, id);
    push(
        out,
        if stands {
            " may break "
        } else {
            " doesn't lead to "
        },
    )?;
    push_clause(out, about, operation_name(&about.flow.file, step.op), id)?;
    push_before(out, about, step.from, stands)
}

/// That a step may break a clause of another thread, which stands at a point.
fn push_other(out: &mut Vec<u8>, about: &Subject, id: Option<ClauseId>, point: PointId) -> Written {
    push(out, " of another thread may break ")?;
    push_clause(out, about, operation_of(about.flow, point), id)?;
    push(out, ", for a thread that stands here: ")?;
    push_point(out, about.flow, point)
}

/// That a step makes a claim by a primitive, of which the outline doesn't say why it is true.
fn push_claim(out: &mut Vec<u8>, about: &Subject, step: &Step, prim: u16) -> Written {
    push(out, " claims `")?;
    if let Some(prim) = step.prims.get(prim as usize) {
        push_primitive(
            out,
            &about.flow.file,
            locals_of_step(about.flow, step),
            prim,
        )?;
    }
    push(
        out,
        "`, and the outline doesn't say why that node isn't retired",
    )?;
    push_before(out, about, step.from, true)
}

/// The sentence on an obligation of a step: the step with its line and what it does, primitives between backquotes,
/// and then what may be wrong of it.
fn push_of_step(out: &mut Vec<u8>, about: &Subject, number: StepId, o: &Obligation) -> Written {
    let Some(step) = about.flow.steps.get(number.0 as usize) else {
        return Ok(());
    };
    let quote = if step.prims.is_empty() { "" } else { "`" };
    push_numbered(out, "step ", u32::from(number.0))?;
    push_numbered(out, ", line ", step.line)?;
    push(out, " (")?;
    push(out, quote)?;
    push_deeds(out, about.flow, step)?;
    push(out, quote)?;
    push(out, ")")?;
    let id = clause_of(about.flow, about.outline, o);
    match *o {
        Obligation::Other { point, .. } => push_other(out, about, id, point),
        Obligation::Claim { prim, .. } => push_claim(out, about, step, prim),
        _ => push_own(out, about, step, id),
    }
}

/// What isn't shown of an outline, in one sentence without a full stop, given where its clauses stand in the bytes of
/// the file. A clause is told by its operation, its line and its text, a step by its number, its line and what it
/// does.
///
/// - start: `where a run begins, the invariant in line 40 (`inv ..`) may be wrong`;
/// - enter: `where push begins, with all its pointers null, the clause of push in line 41 (`over push: ..`) may be
///   wrong`;
/// - own: `step 26, line 33 (`..`) may break the clause of pop in line 47 (`..`)`, and where the clause doesn't stand
///   at the point before the step, `doesn't lead to` in the place of `may break`;
/// - other: `step 27, line 36 (`..`) of another thread may break the clause of pop in line 52 (`..`), for a thread that
///   stands here: label unlinked`;
/// - claim: `step 23, line 27 (`..`) claims `active t`, and the outline doesn't say why that node isn't retired`.
///
/// Where clauses may have been lost before a thread's own step, that follows, with the point before it:
///
/// - `; no clause stands at the point before this step, which has no label: after line 24, before line 25`;
/// - `; this clause doesn't stand at the point before this step: label read`;
/// - `; only clauses with `over` stand at the point before this step: label swap`.
///
/// The one error is that memory runs out.
pub fn push_obligation(
    out: &mut Vec<u8>,
    flow: &Flow,
    outline: &Outline,
    clauses: &Clauses,
    o: &Obligation,
) -> Result<(), AllocError> {
    let about = Subject {
        flow,
        outline,
        clauses,
    };
    match *o {
        Obligation::Start { .. } => push_start(out, &about, clause_of(flow, outline, o)),
        Obligation::Enter { op, .. } => push_enter(out, &about, op, clause_of(flow, outline, o)),
        Obligation::Own { step, .. } => push_of_step(out, &about, step, o),
        Obligation::Other { step, .. } => push_of_step(out, &about, step, o),
        Obligation::Claim { step, .. } => push_of_step(out, &about, step, o),
    }
}
