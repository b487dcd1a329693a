// What a line of a schedule takes: the line in its own words, and what the thread did by it.
use crate::pieces::{push_name, push_numbered, push_taken_step};
use crate::traced::{Traced, Written};
use plc_base::{OpId, StepId};
use plc_flow::Flow;
use plc_html::Html;
use plc_lang::operation_name;
use plc_run::Config;
use plc_sched::Entry;

/// What a line takes, found before it is taken.
#[derive(Clone, Copy)]
pub enum Taken {
    /// What the line itself says.
    Told,
    /// A step of the flow.
    Step(StepId),
    /// The return from an operation.
    Return(OpId),
    /// No address is picked.
    Quiet,
}

/// The step that a thread takes, if there is one.
pub fn step_of(traced: &Traced, config: &Config, t: u32, nth: u16) -> Option<StepId> {
    let point = config.point(t)?;
    let number = traced.steps.leaving(point.at).get(nth as usize)?;
    Some(StepId(*number))
}

/// What a line takes in a configuration.
pub fn taken_by(traced: &Traced, config: &Config, entry: &Entry) -> Taken {
    match entry {
        Entry::Start { .. } | Entry::Tick => Taken::Told,
        Entry::Step { t, nth, .. } => match step_of(traced, config, *t, *nth) {
            Some(step) => Taken::Step(step),
            None => Taken::Told,
        },
        Entry::Return { t } => match config.point(*t) {
            Some(point) => Taken::Return(OpId(point.op)),
            None => Taken::Told,
        },
    }
}

/// The thread of a line.
pub(crate) fn thread_of(entry: &Entry) -> Option<u32> {
    match entry {
        Entry::Start { t, .. } => Some(*t),
        Entry::Step { t, .. } => Some(*t),
        Entry::Return { t } => Some(*t),
        Entry::Tick => None,
    }
}

/// Numbers, each after a blank.
fn push_numbers(html: &mut Html, numbers: &[u32]) -> Written {
    for number in numbers {
        push_numbered(html, " ", *number)?;
    }
    Ok(())
}

/// The start of an operation, as a schedule spells it.
fn push_start(html: &mut Html, t: u32, op: &[u8], args: &[u32]) -> Written {
    push_numbered(html, "start ", t)?;
    html.markup(" ")?;
    html.text(op)?;
    push_numbers(html, args)
}

/// A line, as a schedule spells it.
pub(crate) fn push_entry(html: &mut Html, entry: &Entry) -> Written {
    html.markup("<code>")?;
    match entry {
        Entry::Start { t, op, args } => push_start(html, *t, op.as_slice(), args.as_slice())?,
        Entry::Step { t, nth, addr } => {
            push_numbered(html, "step ", *t)?;
            push_numbered(html, " ", u32::from(*nth))?;
            if let Some(addr) = addr {
                push_numbered(html, " ", *addr)?;
            }
        }
        Entry::Return { t } => push_numbered(html, "return ", *t)?,
        Entry::Tick => html.markup("tick")?,
    }
    html.markup("</code>")
}

/// What the thread did by a line.
pub(crate) fn push_taken(html: &mut Html, flow: &Flow, entry: &Entry, taken: Taken) -> Written {
    match taken {
        Taken::Step(id) => push_taken_step(html, flow, id),
        Taken::Return(op) => {
            html.markup("returns from ")?;
            push_name(html, operation_name(&flow.file, op))
        }
        Taken::Told | Taken::Quiet => match entry {
            Entry::Start { op, .. } => {
                html.markup("starts ")?;
                push_name(html, op.as_slice())
            }
            _ => Ok(()),
        },
    }
}
