// A point in words. It has a name where an operation begins or ends and where a label stands. Any other is told by what
// comes before it and after it: by lines, and where several steps leave one point by the side that was taken. A flow
// keeps no statements, so how steps lead to a point tells of what kind it is:
//
// - steps without primitives, all of one line, lead to the beginning of a loop, one of them back to it, and to the
//   place where the sides of an `if` or of a `choose` come together;
// - no step leads to the point after a `return` or a `break`, and after a loop that has no `break`;
// - a step without primitives and of an earlier line leaves the end of a block, which begins in that line.
use crate::clauses::number;
use crate::primitives::push_primitive;
use crate::steps::{count_leaving, first_steps, locals_of_step};
use plc_answers::{push, push_bytes, push_number, push_numbered};
use plc_base::{FuncId, OpId, PointId};
use plc_flow::{Flow, Step};
use plc_lang::{Prim, function_name, is_test, label_name, operation_name};
use plc_vocabulary::has_point;
use std::alloc::AllocError;

/// The steps that lead to a point.
#[derive(Clone, Copy)]
struct Arrivals {
    count: usize,
    /// The place of the first among the steps of the flow.
    first: usize,
    /// The line of the first.
    line: u32,
    /// The line of the first one that has another.
    other: Option<u32>,
    /// None of them has a primitive.
    bare: bool,
    /// One of them comes from this point or from one that was made later.
    back: bool,
}

/// The name of the operation that has a point.
pub(crate) fn operation_of(flow: &Flow, point: PointId) -> &[u8] {
    for (op, gate) in flow.gates.as_slice().iter().enumerate() {
        if has_point(gate, point.0) {
            return operation_name(&flow.file, OpId(number(op)));
        }
    }
    &[]
}

/// Words with the name of an operation.
fn push_of(out: &mut Vec<u8>, words: &str, flow: &Flow, op: usize) -> Result<bool, AllocError> {
    push(out, words)?;
    push_bytes(out, operation_name(&flow.file, OpId(number(op))))?;
    Ok(true)
}

/// The entry or the exit of an operation, and whether the point is one.
fn push_gate(out: &mut Vec<u8>, flow: &Flow, point: PointId) -> Result<bool, AllocError> {
    for (op, gate) in flow.gates.as_slice().iter().enumerate() {
        if gate.entry.0 == point.0 {
            return push_of(out, "the entry of ", flow, op);
        }
        if gate.exit.0 == point.0 {
            return push_of(out, "the exit of ", flow, op);
        }
    }
    Ok(false)
}

/// The labels of a point, where `named` says whether it has a name before them; and whether it has a name then.
fn push_labels(
    out: &mut Vec<u8>,
    flow: &Flow,
    point: PointId,
    mut named: bool,
) -> Result<bool, AllocError> {
    for (k, at) in flow.labels.as_slice().iter().enumerate() {
        if at.0 == point.0 {
            push(out, if named { ", label " } else { "label " })?;
            push_bytes(out, label_name(&flow.file, number(k)))?;
            named = true;
        }
    }
    Ok(named)
}

/// The steps that lead to a point, with one more.
fn with_step(before: Arrivals, place: usize, step: &Step) -> Arrivals {
    let is_first = before.count == 0;
    let line = if is_first { step.line } else { before.line };
    let other = match before.other {
        None if step.line != line => Some(step.line),
        other => other,
    };
    Arrivals {
        count: before.count.saturating_add(1),
        first: if is_first { place } else { before.first },
        line,
        other,
        bare: before.bare && step.prims.is_empty(),
        back: before.back || step.from.0 >= step.to.0,
    }
}

/// The steps that lead to a point.
fn arrivals_at(flow: &Flow, point: PointId) -> Arrivals {
    let mut found = Arrivals {
        count: 0,
        first: 0,
        line: 0,
        other: None,
        bare: true,
        back: false,
    };
    for (place, step) in flow.steps.as_slice().iter().enumerate() {
        if step.to.0 == point.0 {
            found = with_step(found, place, step);
        }
    }
    found
}

/// The test with which primitives begin, after claims.
fn first_test(prims: &[Prim]) -> Option<Prim> {
    for prim in prims {
        if !matches!(prim, Prim::Active { .. }) {
            return if is_test(prim) { Some(*prim) } else { None };
        }
    }
    None
}

/// Which of so many steps was taken.
fn push_nth(out: &mut Vec<u8>, nth: usize, sides: usize) -> Result<(), AllocError> {
    push(out, " (side ")?;
    push_number(out, nth.saturating_add(1) as u64)?;
    push(out, " of ")?;
    push_number(out, sides as u64)?;
    push(out, ")")
}

/// The side that a step takes, if it is one of several: by its test, or else by its number.
fn push_side(out: &mut Vec<u8>, flow: &Flow, place: usize, step: &Step) -> Result<(), AllocError> {
    let sides = count_leaving(flow.steps.as_slice(), step.from);
    if sides < 2 {
        return Ok(());
    }
    match first_test(step.prims.as_slice()) {
        Some(test) => {
            push(out, " where ")?;
            push_primitive(out, &flow.file, locals_of_step(flow, step), &test)
        }
        None => push_nth(
            out,
            count_leaving(first_steps(flow, place), step.from),
            sides,
        ),
    }
}

/// The lines after which a point stands, with the side of the first.
fn push_after(out: &mut Vec<u8>, flow: &Flow, found: &Arrivals) -> Result<(), AllocError> {
    push_numbered(out, "after line ", found.line)?;
    if let Some(step) = flow.steps.get(found.first) {
        push_side(out, flow, found.first, step)?;
    }
    match found.other {
        Some(line) => push_numbered(out, " or line ", line),
        None => Ok(()),
    }
}

/// What comes before a point.
fn push_arrivals(out: &mut Vec<u8>, flow: &Flow, found: &Arrivals) -> Result<(), AllocError> {
    if found.count < 2 || !found.bare || found.other.is_some() {
        push_after(out, flow, found)
    } else if found.back {
        push_numbered(out, "at the beginning of the loop in line ", found.line)
    } else {
        push_numbered(out, "where the sides of line ", found.line)?;
        push(out, " come together")
    }
}

/// What comes after a point, where it is of another line than what comes before it.
fn push_leaving(out: &mut Vec<u8>, step: &Step, sides: usize, line: u32) -> Result<(), AllocError> {
    if step.line == line {
        Ok(())
    } else if step.line < line && sides == 1 && step.prims.is_empty() {
        push_numbered(out, ", at the end of the block of line ", step.line)
    } else {
        push_numbered(out, ", before line ", step.line)
    }
}

/// The first step that leaves a point.
fn first_leaving(flow: &Flow, point: PointId) -> Option<&Step> {
    flow.steps.as_slice().iter().find(|s| s.from.0 == point.0)
}

/// The function that returns by a step, if that is what it does.
fn returning(step: &Step) -> Option<FuncId> {
    match step.prims.as_slice() {
        [Prim::Done { func }] => Some(*func),
        _ => None,
    }
}

/// A point between the call of a function and its return.
fn push_called(out: &mut Vec<u8>, flow: &Flow, func: FuncId, line: u32) -> Result<(), AllocError> {
    push(out, "in the call of ")?;
    push_bytes(out, function_name(&flow.file, func))?;
    push_numbered(out, " in line ", line)
}

/// A point that a step leaves, by what comes before it and after it.
fn push_before(
    out: &mut Vec<u8>,
    flow: &Flow,
    step: &Step,
    found: &Arrivals,
) -> Result<(), AllocError> {
    if let Some(func) = returning(step) {
        return push_called(out, flow, func, step.line);
    }
    push_arrivals(out, flow, found)?;
    let sides = count_leaving(flow.steps.as_slice(), step.from);
    push_leaving(out, step, sides, found.line)
}

/// A point without a name, by what comes before it and after it.
fn push_between(out: &mut Vec<u8>, flow: &Flow, point: PointId) -> Result<(), AllocError> {
    let found = arrivals_at(flow, point);
    if found.count == 0 {
        return push(
            out,
            "where no step leads, after `return`, `break` or a loop without `break`",
        );
    }
    match first_leaving(flow, point) {
        Some(step) => push_before(out, flow, step, &found),
        None => push_arrivals(out, flow, &found),
    }
}

/// Where a thread stands that is at a point: `the entry of pop`, `the exit of pop`, `label read`, each that fits,
/// parted by commas. A point without a name is told by what comes before it and after it:
///
/// - `after line 24, before line 25`, or `after line 24 or line 28, before line 30`, where steps of several lines lead
///   to it (two are named);
/// - `after line 24 where t == null, before line 25` and `after line 24 (side 2 of 2), before line 30`, where it is
///   the beginning of a side;
/// - `in the call of protect in line 35`;
/// - `at the beginning of the loop in line 21, before line 22`;
/// - `where the sides of line 24 come together, before line 30`, after an `if` or a `choose`;
/// - `after line 30, at the end of the block of line 24`;
/// - that no step leads there.
///
/// A line that is that of what comes before isn't said again. The one error is that memory runs out.
pub fn push_point(out: &mut Vec<u8>, flow: &Flow, point: PointId) -> Result<(), AllocError> {
    let is_gate = push_gate(out, flow, point)?;
    let named = push_labels(out, flow, point, is_gate)?;
    if named {
        Ok(())
    } else {
        push_between(out, flow, point)
    }
}
