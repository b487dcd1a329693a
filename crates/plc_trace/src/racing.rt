// Why the last line is a race: which primitive of the step is one, by which pointer, and when that pointer's node was
// retired and freed.
use crate::ending::Reached;
use plc_answers::variable_in;
use plc_base::StepId;
use plc_flow::Step;
use plc_html::Html;
use plc_lang::{Prim, Var, assigned, risked};
use plc_mem::{Cell, RaceKind};
use plc_moves::Place;
use plc_rows::{
    Traced, Written, last_free, last_retirement, push_cell, push_line_of, push_name, push_numbered,
    push_prim, push_taken_step,
};

/// Whether one of these primitives assigns the variable.
fn is_assigned(prims: &[Prim], var: Var) -> bool {
    for prim in prims {
        if assigned(prim) == Some(var) {
            return true;
        }
    }
    false
}

/// The place of a variable of a thread.
fn place_of(t: u32, var: Var) -> Place {
    match var {
        Var::Shared(i) => Place::Shared(i),
        Var::Local(v) => Place::Local { t, v },
    }
}

/// That something happened to an address by an event: these words say what.
fn push_happened(
    html: &mut Html,
    heard: &[u32],
    a: u32,
    words: &'static str,
    place: usize,
) -> Written {
    push_numbered(html, "; node ", a)?;
    html.markup(words)?;
    push_line_of(html, heard, place)
}

/// That an address was freed by an event, and when it had been retired.
fn push_freed(html: &mut Html, reached: Reached, a: u32, place: usize) -> Written {
    push_happened(html, reached.heard, a, " was last freed by ", place)?;
    let earlier = reached.config.history().get(..place).unwrap_or(&[]);
    if let Some(place) = last_retirement(earlier, a) {
        html.markup(", after ")?;
        push_line_of(html, reached.heard, place)?;
        html.markup(" had retired it")?;
    }
    Ok(())
}

/// What a pointer holds by which the step is a race, and what became of its node.
fn push_fate(html: &mut Html, reached: Reached, cell: Cell) -> Written {
    html.markup(" holds ")?;
    push_cell(html, cell)?;
    let history = reached.config.history();
    let a = cell.number;
    if !cell.valid {
        return match last_free(history, a) {
            Some(place) => push_freed(html, reached, a, place),
            None => Ok(()),
        };
    }
    match last_retirement(history, a) {
        Some(place) => push_happened(html, reached.heard, a, " was retired by ", place),
        None => Ok(()),
    }
}

/// A pointer by which a primitive may be a race, after the primitives before it.
fn push_risked(html: &mut Html, reached: Reached, before: &[Prim], t: u32, var: Var) -> Written {
    if is_assigned(before, var) {
        return html.markup(" is assigned earlier in the same step");
    }
    match reached.config.memory().cell(&place_of(t, var)) {
        Some(cell) => push_fate(html, reached, cell),
        None => Ok(()),
    }
}

/// The pointers by which a primitive of a thread's step may be a race.
fn push_pointers(html: &mut Html, reached: Reached, t: u32, step: &Step, prim: u16) -> Written {
    let prims = step.prims.as_slice();
    let Some(racing) = prims.get(prim as usize) else {
        return Ok(());
    };
    let before = prims.get(..prim as usize).unwrap_or(&[]);
    let (first, second) = risked(racing);
    html.markup("<ul>\n")?;
    for var in [first, second] {
        if let Some(var) = var {
            html.markup("<li>")?;
            push_name(html, variable_in(&reached.traced.flow.file, step.op.0, var))?;
            push_risked(html, reached, before, t, var)?;
            html.markup(".</li>\n")?;
        }
    }
    html.markup("</ul>\n")
}

/// What a race is.
fn words_of(kind: RaceKind) -> &'static str {
    match kind {
        RaceKind::Deref => " goes through a pointer that dangles",
        RaceKind::Compare => " compares a pointer that dangles",
        RaceKind::Pass => " hands a pointer that dangles to <code>retire</code>",
        RaceKind::Double => " retires a node that is retired already",
    }
}

/// The primitive of a step that is a race.
fn push_racing(
    html: &mut Html,
    traced: &Traced,
    step: &Step,
    prim: u16,
    kind: RaceKind,
) -> Written {
    html.markup(". Its primitive ")?;
    if let Some(prim) = step.prims.get(prim as usize) {
        push_prim(html, traced.flow, step, prim)?;
    }
    html.markup(words_of(kind))?;
    html.markup(":</p>\n")
}

/// Why a step of a thread is a race, by this primitive of it, in the configuration before it.
pub(crate) fn push_race(
    html: &mut Html,
    reached: Reached,
    t: u32,
    id: StepId,
    kind: RaceKind,
    prim: u16,
) -> Written {
    let flow = reached.traced.flow;
    push_numbered(html, " is a race. Thread ", t)?;
    html.markup(" takes ")?;
    push_taken_step(html, flow, id)?;
    match flow.steps.get(id.0 as usize) {
        Some(step) => {
            push_racing(html, reached.traced, step, prim, kind)?;
            push_pointers(html, reached, t, step, prim)
        }
        None => html.markup("</p>\n"),
    }
}
