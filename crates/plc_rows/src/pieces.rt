// The pieces of which sentences on a run are made.
use crate::traced::Written;
use plc_answers::line_of;
use plc_base::{PointId, StepId};
use plc_flow::{Flow, Step};
use plc_html::{Html, Tag};
use plc_lang::{Prim, locals_of};
use plc_mem::Cell;
use plc_sentences::{push_point, push_primitive, push_step};

/// A word and a number.
pub fn push_numbered(html: &mut Html, word: &'static str, number: u32) -> Written {
    html.numbered(word, u64::from(number))
}

/// A name of the file.
pub fn push_name(html: &mut Html, name: &[u8]) -> Written {
    html.markup("<code>")?;
    html.text(name)?;
    html.markup("</code>")
}

/// What a pointer holds: `null` or an address, the mark, and that it dangles.
pub fn push_cell(html: &mut Html, cell: Cell) -> Written {
    if cell.is_null() {
        html.markup("null")?;
    } else {
        html.number(u64::from(cell.number))?;
    }
    html.markup(if cell.mark { " marked" } else { "" })?;
    html.markup(if cell.valid { "" } else { " (dangling)" })
}

/// A step, with its number, its line and its primitives; by it one comes to the line.
pub fn push_taken_step(html: &mut Html, flow: &Flow, id: StepId) -> Written {
    let mut words = Vec::new(html.alloc());
    push_step(&mut words, flow, id)?;
    let number = u64::from(line_of(flow, id.0));
    html.tag(Tag::LinkToLine { number })?;
    html.text(&words)?;
    html.markup("</a>")
}

/// A primitive of a step.
pub fn push_prim(html: &mut Html, flow: &Flow, step: &Step, prim: &Prim) -> Written {
    let locals = locals_of(flow.file.ops.as_slice(), step.op.0 as usize);
    let mut words = Vec::new(html.alloc());
    push_primitive(&mut words, &flow.file, locals, prim)?;
    push_name(html, &words)
}

/// Where a thread stands that is at a point.
pub fn push_place(html: &mut Html, flow: &Flow, at: u16) -> Written {
    let mut words = Vec::new(html.alloc());
    push_point(&mut words, flow, PointId(at))?;
    html.text(&words)
}
