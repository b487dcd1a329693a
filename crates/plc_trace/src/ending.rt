// What is said of the last line: why it is a race, impossible, or a forbidden free.
ghost use Rattle.plc_flow.specs.WellFormed.{FlowFits};
ghost use Rattle.plc_run.specs.Position.{IsOfRun};

use crate::racing::push_race;
use crate::refused::push_refusal;
use plc_html::{Html, Tag};
use plc_mem::RaceKind;
use plc_moves::Move;
use plc_replay::End;
use plc_rows::{Traced, Written, push_forbidding, push_name, push_numbered, step_of};
use plc_run::Config;
use plc_sched::Entry;

/// A run up to its last line.
#[derive(Clone, Copy)]
pub(crate) struct Reached<'a, 't> {
    pub(crate) traced: &'a Traced<'t>,
    /// What is there before the line.
    pub(crate) config: &'a Config,
    /// By which line of the schedule each event was heard.
    pub(crate) heard: &'a [u32],
}

/// The line of which is spoken.
fn push_line(html: &mut Html, line: u32) -> Written {
    let number = u64::from(line);
    html.markup("<p>Line ")?;
    html.tag(Tag::LinkToEntry { number })?;
    html.number(number)?;
    html.markup("</a> of the schedule")
}

/// A step that is a race.
fn push_race_of(html: &mut Html, reached: Reached, m: &Move, kind: RaceKind, prim: u16) -> Written {
    if let Move::Step { t, nth, .. } = m {
        if let Some(id) = step_of(reached.traced, reached.config, *t, *nth) {
            return push_race(html, reached, *t, id, kind, prim);
        }
    }
    html.markup(" is a race.</p>\n")
}

/// A free that the observer forbids.
fn push_forbidden(html: &mut Html, traced: &Traced, config: &Config, a: u32) -> Written {
    push_numbered(html, " is a forbidden free: the reclaimer picks ", a)?;
    html.markup(", which the observer forbids, since it stands so:")?;
    html.markup("</p>\n")?;
    push_forbidding(html, traced, config.history(), a)
}

/// A line that is impossible.
fn push_impossible(html: &mut Html, reached: Reached, m: &Move) -> Written
    requires fits { FlowFits reached.traced.now.flow.now }
    requires of_run { IsOfRun reached.traced.now.flow.now reached.traced.now.observer.now reached.config.now }
{
    html.markup(" is impossible: ")?;
    if let Some(refusal) = reached.config.refusal(reached.traced.flow, m)? {
        push_refusal(html, reached.traced, reached.config, m, refusal)?;
    }
    html.markup(".</p>\n")
}

/// What is said of a move that is the last.
pub(crate) fn push_ending(html: &mut Html, reached: Reached, m: &Move, end: &End) -> Written
    requires fits { FlowFits reached.traced.now.flow.now }
    requires of_run { IsOfRun reached.traced.now.flow.now reached.traced.now.observer.now reached.config.now }
{
    match *end {
        End::Ended { .. } => Ok(()),
        End::Race { kind, line, prim } => {
            push_line(html, line)?;
            push_race_of(html, reached, m, kind, prim)
        }
        End::Impossible { line } => {
            push_line(html, line)?;
            push_impossible(html, reached, m)
        }
        End::ForbiddenFree { a, line } => {
            push_line(html, line)?;
            push_forbidden(html, reached.traced, reached.config, a)
        }
    }
}

/// What is said of a line whose operation the file lacks.
pub(crate) fn push_unknown(html: &mut Html, entry: &Entry, line: u32) -> Written {
    push_line(html, line)?;
    html.markup(" is impossible: the file has no operation ")?;
    if let Entry::Start { op, .. } = entry {
        push_name(html, op.as_slice())?;
    }
    html.markup(".</p>\n")
}
