// Which event was the last one of an address, and by which line of the schedule it was heard.
use crate::pieces::push_numbered;
use crate::traced::Written;
use plc_auto::{EvKind, Event};
use plc_base::{FuncId, NoMemory};
use plc_html::Html;

/// Notes by which line the events were heard that aren't noted yet.
pub fn note(heard: &mut Vec<u32>, events: usize, line: u32) -> Result<(), NoMemory> {
    for _ in heard.len()..events {
        heard.push(line)?;
    }
    Ok(())
}

/// Whether an event hands over an address to the reclaimer.
fn is_retirement(event: &Event, a: u32) -> bool {
    match event.kind() {
        EvKind::Call(f) => f.is_retire() && event.address() == a,
        EvKind::Done(_) | EvKind::Free => false,
    }
}

/// The place of the last event that frees an address.
pub fn last_free(history: &[Event], a: u32) -> Option<usize> {
    let mut found = None;
    for (place, event) in history.iter().enumerate() {
        if event.kind() == EvKind::Free && event.address() == a {
            found = Some(place);
        }
    }
    found
}

/// The place of the last event that retires an address.
pub fn last_retirement(history: &[Event], a: u32) -> Option<usize> {
    let mut found = None;
    for (place, event) in history.iter().enumerate() {
        if is_retirement(event, a) {
            found = Some(place);
        }
    }
    found
}

/// The address of the last call of a function by a thread; 0 where there is none, or it names none.
fn last_argument(history: &[Event], t: u32, f: FuncId) -> u32 {
    let mut found = 0;
    for event in history {
        if event.thread() == Some(t) && event.kind() == EvKind::Call(f) {
            found = event.address();
        }
    }
    found
}

/// The addresses that an event concerns, 0 for none: that which it names, and that which its thread named in its last
/// call of the same function before.
pub(crate) fn concerned(history: &[Event], place: usize) -> (u32, u32) {
    let Some(event) = history.get(place) else {
        return (0, 0);
    };
    let before = history.get(..place).unwrap_or(&[]);
    match *event {
        Event::Call { t, f, a: _ } if !f.is_retire() => {
            (event.address(), last_argument(before, t, f))
        }
        Event::Done { t, f } if !f.is_retire() => (last_argument(before, t, f), 0),
        _ => (event.address(), 0),
    }
}

/// The line by which an event was heard.
pub fn push_line_of(html: &mut Html, heard: &[u32], place: usize) -> Written {
    push_numbered(html, "line ", heard.get(place).copied().unwrap_or(0))
}
