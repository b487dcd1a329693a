// Each point of each operation: where it is, which steps leave it, what is known there, and what the outline says.
use crate::shown::{Shown, Written, push_line_link, push_point_link, push_sentence};
use crate::types::push_types;
use plc_base::{OpId, PointId, StepId};
use plc_flow::{Flow, Gate, Step};
use plc_html::{Html, Tag};
use plc_lang::operation_name;
use plc_sentences::{ClauseId, clauses_at, nth_of, push_point, push_step};

/// A step that leaves a point.
fn push_leaving(html: &mut Html, flow: &Flow, id: StepId, step: &Step) -> Written {
    let mut words = Vec::new(html.alloc());
    push_step(&mut words, flow, id)?;
    html.numbered("<li>K ", u64::from(nth_of(flow, id)))?;
    html.markup(": <code>")?;
    html.text(&words)?;
    html.markup("</code> \u{2192} ")?;
    push_point_link(html, step.to.0)?;
    html.markup("</li>\n")
}

/// The steps that leave a point.
fn push_all_leaving(html: &mut Html, flow: &Flow, point: u16) -> Written {
    html.markup("<ul>\n")?;
    for (number, step) in flow.steps.as_slice().iter().enumerate() {
        if step.from.0 == point {
            if let Ok(number) = u16::try_from(number) {
                push_leaving(html, flow, StepId(number), step)?;
            }
        }
    }
    html.markup("</ul>\n")
}

/// A clause, in the file's own text, with its line.
pub(crate) fn push_clause(html: &mut Html, shown: &Shown, id: ClauseId) -> Written {
    let Some(placed) = shown.clauses.placed(id) else {
        return Ok(());
    };
    let mut text = Vec::new(html.alloc());
    shown.clauses.push_text(&mut text, placed)?;
    html.markup("<code>")?;
    html.text(&text)?;
    html.markup("</code> (")?;
    push_line_link(html, "line ", placed.line)?;
    html.markup(")")
}

/// The clauses that the outline puts at a point.
fn push_clauses(html: &mut Html, shown: &Shown, point: u16) -> Written {
    let judged = shown.judged;
    let items = clauses_at(html.alloc(), &judged.flow, &judged.unit_outline, point)?;
    if items.is_empty() {
        return html.markup("<p>The outline says nothing here but its invariants.</p>\n");
    }
    html.markup("<ul>\n")?;
    for item in &items {
        html.markup("<li>")?;
        push_clause(html, shown, ClauseId::Item(*item))?;
        html.markup("</li>\n")?;
    }
    html.markup("</ul>\n")
}

/// A point.
fn push_one(html: &mut Html, shown: &Shown, op: usize, point: u16) -> Written {
    let judged = shown.judged;
    let mut words = Vec::new(html.alloc());
    push_point(&mut words, &judged.flow, PointId(point))?;
    let number = u64::from(point);
    html.tag(Tag::DetailsOfPoint { number })?;
    html.numbered("<summary>point ", number)?;
    html.markup(": ")?;
    push_sentence(html, &words)?;
    html.markup("</summary>\n")?;
    push_all_leaving(html, &judged.flow, point)?;
    if let Some(env) = shown.typing.env.get(point as usize) {
        push_types(html, &judged.flow.file, &judged.observer, op, env)?;
    }
    push_clauses(html, shown, point)?;
    html.markup("</details>\n")
}

/// The points of an operation.
fn push_operation(html: &mut Html, shown: &Shown, op: usize, gate: Gate) -> Written {
    html.markup("<h3>")?;
    if let Ok(number) = u16::try_from(op) {
        html.text(operation_name(&shown.judged.flow.file, OpId(number)))?;
    }
    html.markup("</h3>\n")?;
    for point in gate.first..gate.after {
        push_one(html, shown, op, point)?;
    }
    Ok(())
}

/// The points of all operations.
pub(crate) fn push_points(html: &mut Html, shown: &Shown) -> Written {
    html.markup(
        "<h2 id=\"points\">The points</h2>\n<p>A thread stands at a point between two steps. Open one to see which \
         steps leave it, what the types know there, and what the outline says of it.</p>\n",
    )?;
    for (op, gate) in shown.judged.flow.gates.as_slice().iter().enumerate() {
        push_operation(html, shown, op, *gate)?;
    }
    Ok(())
}
