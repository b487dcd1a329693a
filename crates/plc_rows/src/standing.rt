// What is there after the last line: memory, where each thread stands, and which steps leave there.
use crate::pieces::{push_name, push_numbered, push_place, push_prim, push_taken_step};
use crate::store::{push_locals, push_memory};
use crate::traced::{Traced, Written};
use plc_base::{OpId, StepId};
use plc_flow::{Flow, Point, Step};
use plc_html::Html;
use plc_lang::{Prim, operation_name};
use plc_mem::{Locals, Memory, Outcome};
use plc_run::Config;

/// The first primitive of a step that isn't a claim: claims change nothing.
fn first_deed(step: &Step) -> Option<Prim> {
    for prim in step.prims.as_slice() {
        if !matches!(*prim, Prim::Active { .. }) {
            return Some(*prim);
        }
    }
    None
}

/// What comes of the first primitive of a step, where it isn't that it succeeds.
fn push_outlook(
    html: &mut Html,
    flow: &Flow,
    memory: &Memory,
    me: &Locals,
    t: u32,
    step: &Step,
) -> Written {
    let Some(prim) = first_deed(step) else {
        return Ok(());
    };
    if let Prim::New { .. } = prim {
        return html.markup("; the line names the address");
    }
    let words = match memory.outcome(&prim, me, t, None) {
        Outcome::Next(_) => return Ok(()),
        Outcome::Blocked => "; blocked here by ",
        Outcome::Race(_) => "; a race by ",
    };
    html.markup(words)?;
    push_prim(html, flow, step, &prim)
}

/// A step that leaves the point of a thread.
fn push_choice(html: &mut Html, flow: &Flow, memory: &Memory, t: u32, id: StepId) -> Written {
    push_taken_step(html, flow, id)?;
    let Some(step) = flow.steps.get(id.0 as usize) else {
        return Ok(());
    };
    match memory.locals(t) {
        Some(me) => push_outlook(html, flow, memory, me, t, step),
        None => Ok(()),
    }
}

/// The steps that leave the point of a thread, each with its K.
fn push_choices(
    html: &mut Html,
    traced: &Traced,
    memory: &Memory,
    t: u32,
    point: Point,
) -> Written {
    html.markup("<ul>\n")?;
    for (nth, number) in traced.steps.leaving(point.at).iter().enumerate() {
        push_numbered(html, "<li><code>step ", t)?;
        html.markup(" ")?;
        html.number(nth as u64)?;
        html.markup("</code>: ")?;
        push_choice(html, traced.flow, memory, t, StepId(*number))?;
        html.markup("</li>\n")?;
    }
    html.markup("</ul>\n")
}

/// Whether a point is the exit of its operation.
fn is_exit(flow: &Flow, point: Point) -> bool {
    match flow.gates.get(point.op as usize) {
        Some(gate) => gate.exit.0 == point.at,
        None => false,
    }
}

/// A thread that is in an operation.
fn push_busy(html: &mut Html, traced: &Traced, memory: &Memory, t: u32, point: Point) -> Written {
    let flow = traced.flow;
    html.markup("<p>It is in ")?;
    push_name(html, operation_name(&flow.file, OpId(point.op)))?;
    push_numbered(html, ", at point ", u32::from(point.at))?;
    html.markup(": ")?;
    push_place(html, flow, point.at)?;
    html.markup(".</p>\n")?;
    push_locals(html, &flow.file, memory, t, point.op)?;
    if is_exit(flow, point) {
        push_numbered(html, "<p>It may return: <code>return ", t)?;
        return html.markup("</code>.</p>\n");
    }
    html.markup("<p>The steps that leave there:</p>\n")?;
    push_choices(html, traced, memory, t, point)
}

/// Where a thread stands.
fn push_thread(html: &mut Html, traced: &Traced, config: &Config, t: u32) -> Written {
    push_numbered(html, "<details open><summary>Thread ", t)?;
    html.markup("</summary>\n")?;
    match config.point(t) {
        Some(point) => push_busy(html, traced, config.memory(), t, point)?,
        None => html.markup("<p>It is in no operation, and may start any.</p>\n")?,
    }
    html.markup("</details>\n")
}

/// Memory and all threads, after the last line that was taken.
pub fn push_standing(html: &mut Html, traced: &Traced, config: &Config) -> Written {
    html.markup("<h2>After the last line that could be taken</h2>\n")?;
    push_memory(html, &traced.flow.file, config.memory())?;
    for t in 0..traced.threads {
        push_thread(html, traced, config, t)?;
    }
    Ok(())
}
