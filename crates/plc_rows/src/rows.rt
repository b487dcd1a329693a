// A row for each line of the schedule: what its thread did, what the reclaimer did, what that changed, where the
// observer stands for the addresses of the events, and what is retired.
use crate::changes::{AFTER_ADDRESSES, push_changes, push_retired};
use crate::events::push_events;
use crate::history::concerned;
use crate::pieces::push_numbered;
use crate::taken::{Taken, push_entry, push_taken, thread_of};
use crate::traced::{MOST_COLUMNS, Traced, Written};
use crate::watching::push_watchers;
use plc_auto::{Event, Observer};
use plc_html::{Html, Tag};
use plc_mem::Memory;
use plc_replay::End;
use plc_run::Config;
use plc_sched::Entry;

/// For how many retired addresses a row says where the observer stands, at an event of an epoch.
const MOST_KEPT: u32 = 4;

/// A line that was taken.
#[derive(Clone, Copy)]
pub struct Row<'a> {
    /// Its number in the schedule.
    pub line: u32,
    pub entry: &'a Entry,
    pub taken: Taken,
    /// The memory before it.
    pub before: &'a Memory,
    /// How many events there were before it.
    pub heard: usize,
    /// What it ends, if it is the last.
    pub end: Option<End>,
}

/// The heads of the columns.
pub fn push_heads(html: &mut Html, threads: u32) -> Written {
    html.markup("<tr><th>line</th><th>schedule</th>")?;
    if threads > MOST_COLUMNS {
        html.markup("<th>its thread</th>")?;
    } else {
        for t in 0..threads {
            push_numbered(html, "<th>thread ", t)?;
            html.markup("</th>")?;
        }
    }
    html.markup("<th>reclaimer</th><th>what changed</th><th>retired, not freed</th></tr>\n")
}

/// The events of a row.
fn events_of<'a>(row: &Row, config: &'a Config) -> &'a [Event] {
    config.history().get(row.heard..).unwrap_or(&[])
}

/// What the thread of a row did.
fn push_deed(html: &mut Html, traced: &Traced, row: &Row, config: &Config) -> Written {
    let flow = traced.flow;
    push_taken(html, flow, row.entry, row.taken)?;
    push_events(html, &flow.file, events_of(row, config))
}

/// The cells of the threads.
fn push_threads(html: &mut Html, traced: &Traced, row: &Row, config: &Config) -> Written {
    let by = thread_of(row.entry);
    if traced.threads > MOST_COLUMNS {
        html.markup("<td>")?;
        if by.is_some() {
            push_deed(html, traced, row, config)?;
        }
        return html.markup("</td>");
    }
    for t in 0..traced.threads {
        html.markup("<td>")?;
        if by == Some(t) {
            push_deed(html, traced, row, config)?;
        }
        html.markup("</td>")?;
    }
    Ok(())
}

/// What the reclaimer did.
fn push_reclaimer(html: &mut Html, traced: &Traced, row: &Row, config: &Config) -> Written {
    html.markup("<td>")?;
    if let Entry::Tick = row.entry {
        match row.end {
            Some(End::ForbiddenFree { a, .. }) => push_numbered(html, "picks ", a)?,
            _ => {
                if let Taken::Quiet = row.taken {
                    html.markup("picks nothing")?;
                }
                push_events(html, &traced.flow.file, events_of(row, config))?;
            }
        }
    }
    html.markup("</td>")
}

/// Where the observer stands for an address.
fn push_address(html: &mut Html, traced: &Traced, config: &Config, a: u32) -> Written {
    if a == 0 {
        return Ok(());
    }
    push_watchers(html, traced, config.history(), a)
}

/// Where the observer stands for the first addresses that are retired.
fn push_kept(html: &mut Html, traced: &Traced, config: &Config) -> Written {
    let mut left = MOST_KEPT;
    for a in 1..AFTER_ADDRESSES {
        if left > 0 && config.memory().used(a) && config.memory().retired(a) {
            push_address(html, traced, config, a)?;
            left = left.saturating_sub(1);
        }
    }
    Ok(())
}

/// Where the observer stands for the addresses that an event concerns. One of an epoch concerns all that are retired.
fn push_event_observed(html: &mut Html, traced: &Traced, config: &Config, place: usize) -> Written {
    let (first, second) = concerned(config.history(), place);
    push_address(html, traced, config, first)?;
    if second != first {
        push_address(html, traced, config, second)?;
    }
    match *traced.observer {
        Observer::Epoch(_, _) if first == 0 => push_kept(html, traced, config),
        _ => Ok(()),
    }
}

/// Where the observer stands for the addresses that the events of a row concern.
fn push_observed(html: &mut Html, traced: &Traced, row: &Row, config: &Config) -> Written {
    for place in row.heard..config.history().len() {
        push_event_observed(html, traced, config, place)?;
    }
    Ok(())
}

/// What a row says of a line that is the last.
fn push_end(html: &mut Html, end: &End) -> Written {
    html.markup(match end {
        End::Ended { .. } => "",
        End::Race { .. } => "<b>a race</b>",
        End::Impossible { .. } => "<b>impossible</b>",
        End::ForbiddenFree { .. } => "<b>a forbidden free</b>",
    })
}

/// What a line changed.
fn push_changed(html: &mut Html, traced: &Traced, row: &Row, config: &Config) -> Written {
    html.markup("<td>")?;
    match &row.end {
        Some(end) => push_end(html, end)?,
        None => {
            push_changes(html, traced.flow, row.before, config, traced.threads)?;
            push_observed(html, traced, row, config)?;
        }
    }
    html.markup("</td>")
}

/// The end of a row: what is retired.
fn push_row_end(html: &mut Html, config: &Config) -> Written {
    html.markup("<td>")?;
    push_retired(html, config.memory())?;
    html.markup("</td></tr>\n")
}

/// A row, in the configuration after its line.
pub fn push_row(html: &mut Html, traced: &Traced, row: &Row, config: &Config) -> Written {
    let number = u64::from(row.line);
    html.tag(Tag::RowOfEntry { number })?;
    html.numbered("<td>", number)?;
    html.markup("</td><td>")?;
    push_entry(html, row.entry)?;
    html.markup("</td>")?;
    push_threads(html, traced, row, config)?;
    push_reclaimer(html, traced, row, config)?;
    push_changed(html, traced, row, config)?;
    push_row_end(html, config)
}

/// The row of the lines that aren't shown one by one, of which the start is the first: what they made of the memory
/// before `init`.
pub fn push_first(
    html: &mut Html,
    traced: &Traced,
    before: &Memory,
    config: &Config,
    lines: u32,
) -> Written {
    if lines == 1 {
        push_numbered(html, "<tr><td>1</td><td><code>threads ", traced.threads)?;
        html.markup("</code></td>")?;
    } else {
        push_numbered(html, "<tr><td>1 to ", lines)?;
        html.markup("</td><td>left out</td>")?;
    }
    for _ in 0..columns(traced.threads) {
        html.markup("<td></td>")?;
    }
    html.markup("<td></td><td>")?;
    push_changes(html, traced.flow, before, config, traced.threads)?;
    html.markup("</td>")?;
    push_row_end(html, config)
}

/// How many columns the threads have.
fn columns(threads: u32) -> u32 {
    if threads > MOST_COLUMNS { 1 } else { threads }
}
