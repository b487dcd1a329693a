// What is known of each pointer at a point, in words and as `plc check` writes it.
use crate::shown::Written;
use plc_auto::Observer;
use plc_html::Html;
use plc_lang::{File, Local, locals_of, name_at, shared_name};
use plc_sentences::{push_anywhere, push_type};
use plc_type::{Env, PtrType};

/// The row of a pointer.
fn push_row(html: &mut Html, observer: &Observer, name: &[u8], t: &PtrType) -> Written {
    let mut words = Vec::new(html.alloc());
    push_type(&mut words, observer, t)?;
    html.markup("<tr><td><code>")?;
    html.text(name)?;
    html.markup("</code></td><td>")?;
    html.text(&words)?;
    html.markup("</td></tr>\n")
}

/// The rows of the shared pointers.
fn push_shared(html: &mut Html, file: &File, observer: &Observer, types: &[PtrType]) -> Written {
    for (i, name) in file.shared.as_slice().iter().enumerate() {
        if let Some(t) = types.get(i) {
            push_row(html, observer, name_at(file, *name), t)?;
        }
    }
    Ok(())
}

/// The rows of the pointers among the locals of an operation.
fn push_locals(
    html: &mut Html,
    file: &File,
    observer: &Observer,
    locals: &[Local],
    types: &[PtrType],
) -> Written {
    let mut place = 0_usize;
    for local in locals {
        if local.pointer {
            if let Some(t) = types.get(place) {
                push_row(html, observer, name_at(file, local.name), t)?;
            }
            place = place.saturating_add(1);
        }
    }
    Ok(())
}

/// A table of what is known at a point of an operation to which some thread may come.
fn push_table(html: &mut Html, file: &File, observer: &Observer, op: usize, env: &Env) -> Written {
    let mut anywhere = Vec::new(html.alloc());
    push_anywhere(&mut anywhere, observer, env.w)?;
    html.markup(
        "<div class=\"wide\"><table>\n<tr><th>pointer</th><th>what is known of its node</th></tr>\n",
    )?;
    push_shared(html, file, observer, env.shared.as_slice())?;
    let locals = locals_of(file.ops.as_slice(), op);
    push_locals(html, file, observer, locals, env.locals.as_slice())?;
    html.markup("<tr><td>any node</td><td>")?;
    html.text(&anywhere)?;
    html.markup("</td></tr>\n</table></div>\n")
}

/// What is known at a point of an operation: a table, where a thread may come there by the types.
pub(crate) fn push_types(
    html: &mut Html,
    file: &File,
    observer: &Observer,
    op: usize,
    env: &Env,
) -> Written {
    if env.w.bits() == 0 {
        return html.markup("<p>No thread comes here.</p>\n");
    }
    push_table(html, file, observer, op, env)
}
