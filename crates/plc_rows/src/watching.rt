// Where the observer stands for a thread and an address: the location to which the history leads, event by event, and
// its words.
use crate::pieces::{push_name, push_numbered};
use crate::traced::{MOST_COLUMNS, Traced, Written};
use plc_auto::{EvKind, Event, Observer};
use plc_base::{LocId, Mask};
use plc_html::Html;
use plc_sentences::push_anywhere;

/// Where an event leads from a location.
fn moved(observer: &Observer, at: LocId, event: &Event, t: u32, a: u32) -> Option<LocId> {
    let own = event.thread() == Some(t);
    let this = a != 0 && event.address() == a;
    if !own && !this {
        return Some(at);
    }
    if at.0 < observer.count() {
        observer.step(at, event.kind(), own, this)
    } else {
        None
    }
}

/// Where the observer stands for a thread and an address after a history; `None` for `bad`.
fn location_of(observer: &Observer, history: &[Event], t: u32, a: u32) -> Option<LocId> {
    let mut at = LocId(0);
    for event in history {
        at = moved(observer, at, event, t, a)?;
    }
    Some(at)
}

/// Whether a free of the address is allowed from a location.
fn bears_free(observer: &Observer, at: LocId) -> bool {
    if at.0 < observer.count() {
        observer.step(at, EvKind::Free, false, true).is_some()
    } else {
        false
    }
}

/// A location: its name and its words.
fn push_location(html: &mut Html, observer: &Observer, at: LocId) -> Written {
    if at.0 < observer.count() && at.0 < 8 {
        let mut set = Mask::empty();
        set.insert(at);
        let mut words = Vec::new(html.alloc());
        push_anywhere(&mut words, observer, set)?;
        push_name(html, observer.name(at))?;
        html.markup(" (")?;
        html.text(&words)?;
        html.markup(")")?;
    }
    Ok(())
}

/// Where a thread stands for an address.
fn push_watcher(html: &mut Html, t: u32, observer: &Observer, at: LocId) -> Written {
    push_numbered(html, "thread ", t)?;
    html.markup(" in ")?;
    push_location(html, observer, at)
}

/// Where the threads stand for an address, the first ones, as many as have columns.
pub(crate) fn push_watchers(
    html: &mut Html,
    traced: &Traced,
    history: &[Event],
    a: u32,
) -> Written {
    push_numbered(html, "<div>for node ", a)?;
    html.markup(": ")?;
    for t in 0..traced.threads.min(MOST_COLUMNS) {
        if let Some(at) = location_of(traced.observer, history, t, a) {
            html.markup(if t == 0 { "" } else { ", " })?;
            push_watcher(html, t, traced.observer, at)?;
        }
    }
    html.markup("</div>")
}

/// The threads that forbid to free an address, each with where it stands.
pub fn push_forbidding(html: &mut Html, traced: &Traced, history: &[Event], a: u32) -> Written {
    html.markup("<ul>\n")?;
    for t in 0..traced.threads {
        if let Some(at) = location_of(traced.observer, history, t, a) {
            if !bears_free(traced.observer, at) {
                html.markup("<li>")?;
                push_watcher(html, t, traced.observer, at)?;
                html.markup("</li>\n")?;
            }
        }
    }
    html.markup("</ul>\n")
}
