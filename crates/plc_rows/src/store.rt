// Memory as it is: what each shared pointer, each node and each local holds.
use crate::changes::{AFTER_ADDRESSES, value_of};
use crate::pieces::{push_cell, push_name, push_numbered};
use crate::traced::Written;
use plc_base::FieldId;
use plc_html::Html;
use plc_lang::{Field, File, Local, locals_of, name_at};
use plc_mem::Memory;
use plc_moves::Place;

/// What a pointer place holds.
fn push_held(html: &mut Html, memory: &Memory, place: &Place) -> Written {
    match memory.cell(place) {
        Some(cell) => push_cell(html, cell),
        None => Ok(()),
    }
}

/// The shared pointers.
fn push_shared(html: &mut Html, file: &File, memory: &Memory) -> Written {
    for (number, name) in file.shared.as_slice().iter().enumerate() {
        if let Ok(number) = u16::try_from(number) {
            html.markup("<tr><td>")?;
            push_name(html, name_at(file, *name))?;
            html.markup("</td><td>")?;
            push_held(html, memory, &Place::Shared(number))?;
            html.markup("</td></tr>\n")?;
        }
    }
    Ok(())
}

/// A field of a node.
fn push_field(html: &mut Html, memory: &Memory, a: u32, f: FieldId, field: &Field) -> Written {
    if field.pointer {
        push_held(html, memory, &Place::Cell { a, f })
    } else {
        html.number(u64::from(memory.field_value(a, f)))
    }
}

/// The fields of a node.
fn push_fields(html: &mut Html, file: &File, memory: &Memory, a: u32) -> Written {
    for (number, field) in file.fields.as_slice().iter().enumerate() {
        if let Ok(number) = u16::try_from(number) {
            html.markup("<code>.")?;
            html.text(name_at(file, field.name))?;
            html.markup("</code> ")?;
            push_field(html, memory, a, FieldId(number), field)?;
            html.markup(" ")?;
        }
    }
    Ok(())
}

/// The nodes that are used.
fn push_nodes(html: &mut Html, file: &File, memory: &Memory) -> Written {
    for a in 1..AFTER_ADDRESSES {
        if memory.used(a) {
            push_numbered(html, "<tr><td>node ", a)?;
            html.markup("</td><td>")?;
            push_fields(html, file, memory, a)?;
            html.markup(if memory.retired(a) { "retired" } else { "" })?;
            html.markup("</td></tr>\n")?;
        }
    }
    Ok(())
}

/// Memory: the shared pointers and the nodes, each with what it holds.
pub(crate) fn push_memory(html: &mut Html, file: &File, memory: &Memory) -> Written {
    html.markup(
        "<details open><summary>Memory</summary>\n<div class=\"wide\"><table>\n<tr><th>place</th><th>holds</th></tr>\n",
    )?;
    push_shared(html, file, memory)?;
    push_nodes(html, file, memory)?;
    html.markup("</table></div>\n</details>\n")
}

/// A local of a thread.
fn push_local(html: &mut Html, file: &File, local: &Local) -> Written {
    html.markup("<li>")?;
    push_name(html, name_at(file, local.name))?;
    html.markup(" holds ")
}

/// The locals of a thread that is in an operation.
pub(crate) fn push_locals(
    html: &mut Html,
    file: &File,
    memory: &Memory,
    t: u32,
    op: u16,
) -> Written {
    let mut pointers = 0_u16;
    let mut data = 0_u16;
    html.markup("<ul>\n")?;
    for local in locals_of(file.ops.as_slice(), op as usize) {
        push_local(html, file, local)?;
        if local.pointer {
            push_held(html, memory, &Place::Local { t, v: pointers })?;
            pointers = pointers.saturating_add(1);
        } else {
            html.number(u64::from(value_of(memory, t, data)))?;
            data = data.saturating_add(1);
        }
        html.markup("</li>\n")?;
    }
    html.markup("</ul>\n")
}
