// Why the last line is impossible, in a sentence.
use plc_base::OpId;
use plc_flow::{Flow, Point, Step};
use plc_html::Html;
use plc_lang::{Prim, accessed, count_parameters, operation_name};
use plc_moves::Move;
use plc_rows::{Traced, Written, push_name, push_numbered, push_place, push_prim, step_of};
use plc_run::{Config, Refusal};

/// Why a primitive is blocked.
fn why_blocked(prim: &Prim) -> &'static str {
    match prim {
        Prim::New { .. } => ", since its address is in use",
        Prim::Call { .. } => ", since the pointer is null",
        Prim::Refresh { .. } => ", since the two aren't the same",
        Prim::RefreshLoad { .. } | Prim::RefreshStore { .. } => {
            ", since it goes through null, or the two aren't the same"
        }
        _ if accessed(prim).is_some() => ", since it goes through null",
        _ => ", since it isn't so",
    }
}

/// The primitive of a step that is blocked.
fn push_blocked(html: &mut Html, flow: &Flow, step: &Step, prim: u16) -> Written {
    match step.prims.get(prim as usize) {
        Some(prim) => {
            html.markup("its primitive ")?;
            push_prim(html, flow, step, prim)?;
            html.markup(" is blocked")?;
            html.markup(why_blocked(prim))
        }
        None => html.markup("it is blocked"),
    }
}

/// The primitive that is blocked of the step that a move takes.
fn push_blocked_by(
    html: &mut Html,
    traced: &Traced,
    config: &Config,
    m: &Move,
    prim: u16,
) -> Written {
    let flow = traced.flow;
    let found = match m {
        Move::Step { t, nth, .. } => step_of(traced, config, *t, *nth),
        _ => None,
    };
    match found {
        Some(id) => match flow.steps.get(id.0 as usize) {
            Some(step) => push_blocked(html, flow, step, prim),
            None => Ok(()),
        },
        None => Ok(()),
    }
}

/// Where the thread of a move stands.
fn point_of(config: &Config, m: &Move) -> Option<Point> {
    match m {
        Move::Start { t, .. } => config.point(*t),
        Move::Step { t, .. } => config.point(*t),
        Move::Return { t } => config.point(*t),
        Move::Free { .. } => None,
    }
}

/// Words, and where the thread of a move stands.
fn push_at(
    html: &mut Html,
    traced: &Traced,
    config: &Config,
    m: &Move,
    words: &'static str,
) -> Written {
    let flow = traced.flow;
    html.markup(words)?;
    if let Some(point) = point_of(config, m) {
        html.markup(" ")?;
        push_name(html, operation_name(&flow.file, OpId(point.op)))?;
        html.markup(", at ")?;
        push_place(html, flow, point.at)?;
    }
    Ok(())
}

/// How many steps leave the point of the thread of a move.
fn push_count(html: &mut Html, traced: &Traced, config: &Config, m: &Move) -> Written {
    let count = match point_of(config, m) {
        Some(point) => traced.steps.leaving(point.at).len(),
        None => 0,
    };
    html.markup("the steps that leave the point of the thread are ")?;
    html.number(count as u64)?;
    html.markup(", counted from 0")
}

/// How many parameters the operation of a move has.
fn push_parameters(html: &mut Html, traced: &Traced, m: &Move) -> Written {
    html.markup("the operation has another number of parameters")?;
    if let Move::Start { op, .. } = m {
        if let Some(operation) = traced.flow.file.ops.get(op.0 as usize) {
            html.markup(": ")?;
            html.number(count_parameters(operation) as u64)?;
        }
    }
    Ok(())
}

/// Why a move is refused.
pub(crate) fn push_refusal(
    html: &mut Html,
    traced: &Traced,
    config: &Config,
    m: &Move,
    refusal: Refusal,
) -> Written {
    match refusal {
        Refusal::Ended => html.markup("a race has ended the run"),
        Refusal::NoThread => html.markup("there is no such thread"),
        Refusal::Busy => push_at(html, traced, config, m, "the thread is busy: it is in"),
        Refusal::NoOperation => html.markup("the file has no such operation"),
        Refusal::Arguments => push_parameters(html, traced, m),
        Refusal::Idle => html.markup("the thread is idle: it is in no operation"),
        Refusal::NoStep => push_count(html, traced, config, m),
        Refusal::NoAddress => {
            html.markup("the step has a <code>new</code>, and the line names no address")
        }
        Refusal::NotAllocating => {
            html.markup("the line names an address, and the step has no <code>new</code>")
        }
        Refusal::Blocked { prim } => push_blocked_by(html, traced, config, m, prim),
        Refusal::NotAtExit => push_at(html, traced, config, m, "the thread isn't at the exit of"),
        Refusal::Null => push_numbered(html, "the reclaimer picked null, the address ", 0),
    }
}
