// Events in words.
use crate::pieces::{push_name, push_numbered};
use crate::traced::Written;
use plc_auto::Event;
use plc_base::FuncId;
use plc_html::Html;
use plc_lang::{File, function_name};

/// The address that a call names.
fn push_argument(html: &mut Html, a: Option<u32>) -> Written {
    match a {
        None => Ok(()),
        Some(0) => html.markup("null"),
        Some(a) => html.number(u64::from(a)),
    }
}

/// A call.
fn push_call(html: &mut Html, file: &File, f: FuncId, a: Option<u32>) -> Written {
    html.markup("calls <code>")?;
    html.text(function_name(file, f))?;
    html.markup("(")?;
    push_argument(html, a)?;
    html.markup(")</code>")
}

/// An event.
fn push_event(html: &mut Html, file: &File, event: &Event) -> Written {
    match *event {
        Event::Call { t: _, f, a } => push_call(html, file, f, a),
        Event::Done { t: _, f } => {
            push_name(html, function_name(file, f))?;
            html.markup(" returns")
        }
        Event::Free { a } => push_numbered(html, "frees ", a),
    }
}

/// Events, each on a line.
pub(crate) fn push_events(html: &mut Html, file: &File, events: &[Event]) -> Written {
    for event in events {
        html.markup("<div>")?;
        push_event(html, file, event)?;
        html.markup("</div>")?;
    }
    Ok(())
}
