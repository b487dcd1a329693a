// What a line changed in memory: what is otherwise than before it, place by place.
use crate::pieces::{push_cell, push_name, push_numbered};
use crate::traced::Written;
use plc_base::{FieldId, MOST_ADDRESSES, same_bool};
use plc_flow::Flow;
use plc_html::Html;
use plc_lang::{Field, File, Local, locals_of, name_at};
use plc_mem::{Cell, Memory};
use plc_moves::Place;
use plc_run::Config;

/// The number after that of the last address.
pub(crate) const AFTER_ADDRESSES: u32 = MOST_ADDRESSES + 1;

/// Memory before a line and after it, and whose names stand for what is in it.
#[derive(Clone, Copy)]
pub(crate) struct Change<'a> {
    pub(crate) file: &'a File,
    pub(crate) before: &'a Memory,
    pub(crate) after: &'a Memory,
}

/// What a place holds, or null where there is no such place.
fn cell_at(memory: &Memory, place: &Place) -> Cell {
    match memory.cell(place) {
        Some(cell) => cell,
        None => Cell::null(),
    }
}

/// Whether a pointer is as it was.
fn is_same(before: Cell, after: Cell) -> bool {
    before.same_pointer(after) && same_bool(before.valid, after.valid)
}

/// What a place held and what it holds, where that is otherwise.
fn changed_at(change: &Change, place: &Place) -> Option<(Cell, Cell)> {
    let before = cell_at(change.before, place);
    let after = cell_at(change.after, place);
    if is_same(before, after) {
        None
    } else {
        Some((before, after))
    }
}

/// What became of a pointer.
fn push_became(html: &mut Html, before: Cell, after: Cell) -> Written {
    if before.same_pointer(after) && !after.valid {
        return html.markup(" dangles</div>");
    }
    html.markup(": ")?;
    push_cell(html, before)?;
    html.markup(" \u{2192} ")?;
    push_cell(html, after)?;
    html.markup("</div>")
}

/// What became of a number.
fn push_number_became(html: &mut Html, before: u32, after: u32) -> Written {
    push_numbered(html, ": ", before)?;
    push_numbered(html, " \u{2192} ", after)?;
    html.markup("</div>")
}

/// What became of the shared pointers.
fn push_shared(html: &mut Html, change: &Change) -> Written {
    for (number, name) in change.file.shared.as_slice().iter().enumerate() {
        if let Ok(number) = u16::try_from(number) {
            if let Some((before, after)) = changed_at(change, &Place::Shared(number)) {
                html.markup("<div>")?;
                push_name(html, name_at(change.file, *name))?;
                push_became(html, before, after)?;
            }
        }
    }
    Ok(())
}

/// A field of a node.
fn push_field(html: &mut Html, file: &File, a: u32, field: &Field) -> Written {
    push_numbered(html, "<div>node ", a)?;
    html.markup(" ")?;
    html.markup("<code>.")?;
    html.text(name_at(file, field.name))?;
    html.markup("</code>")
}

/// What became of a field.
fn push_field_change(
    html: &mut Html,
    change: &Change,
    a: u32,
    f: FieldId,
    field: &Field,
) -> Written {
    if field.pointer {
        if let Some((before, after)) = changed_at(change, &Place::Cell { a, f }) {
            push_field(html, change.file, a, field)?;
            push_became(html, before, after)?;
        }
        return Ok(());
    }
    let before = change.before.field_value(a, f);
    let after = change.after.field_value(a, f);
    if before != after {
        push_field(html, change.file, a, field)?;
        push_number_became(html, before, after)?;
    }
    Ok(())
}

/// What became of the fields of a node.
fn push_fields(html: &mut Html, change: &Change, a: u32) -> Written {
    for (number, field) in change.file.fields.as_slice().iter().enumerate() {
        if let Ok(number) = u16::try_from(number) {
            push_field_change(html, change, a, FieldId(number), field)?;
        }
    }
    Ok(())
}

/// What became of a node that is there.
fn push_node(html: &mut Html, change: &Change, a: u32) -> Written {
    if !change.before.used(a) {
        push_numbered(html, "<div>node ", a)?;
        html.markup(" allocated</div>")?;
    }
    push_fields(html, change, a)?;
    if change.after.retired(a) && !change.before.retired(a) {
        push_numbered(html, "<div>node ", a)?;
        html.markup(" retired</div>")?;
    }
    Ok(())
}

/// What became of the nodes.
fn push_nodes(html: &mut Html, change: &Change) -> Written {
    for a in 1..AFTER_ADDRESSES {
        if change.after.used(a) {
            push_node(html, change, a)?;
        } else if change.before.used(a) {
            push_numbered(html, "<div>node ", a)?;
            html.markup(" freed</div>")?;
        }
    }
    Ok(())
}

/// A local of a thread.
fn push_local(html: &mut Html, file: &File, t: u32, local: &Local) -> Written {
    html.markup("<div>")?;
    push_name(html, name_at(file, local.name))?;
    push_numbered(html, " of thread ", t)
}

/// What became of a pointer local, by its number among the pointer locals.
fn push_pointer(html: &mut Html, change: &Change, t: u32, v: u16, local: &Local) -> Written {
    if let Some((before, after)) = changed_at(change, &Place::Local { t, v }) {
        push_local(html, change.file, t, local)?;
        push_became(html, before, after)?;
    }
    Ok(())
}

/// The number of a data local, and 0 where the thread has none.
pub(crate) fn value_of(memory: &Memory, t: u32, x: u16) -> u32 {
    match memory.locals(t) {
        Some(locals) => locals.value(x),
        None => 0,
    }
}

/// What became of a data local, by its number among the data locals.
fn push_data(html: &mut Html, change: &Change, t: u32, x: u16, local: &Local) -> Written {
    let before = value_of(change.before, t, x);
    let after = value_of(change.after, t, x);
    if before != after {
        push_local(html, change.file, t, local)?;
        push_number_became(html, before, after)?;
    }
    Ok(())
}

/// What became of the locals of a thread.
fn push_locals(html: &mut Html, change: &Change, t: u32, op: u16) -> Written {
    let mut pointers = 0_u16;
    let mut data = 0_u16;
    for local in locals_of(change.file.ops.as_slice(), op as usize) {
        if local.pointer {
            push_pointer(html, change, t, pointers, local)?;
            pointers = pointers.saturating_add(1);
        } else {
            push_data(html, change, t, data, local)?;
            data = data.saturating_add(1);
        }
    }
    Ok(())
}

/// What became of the locals of the threads that are in an operation.
fn push_all_locals(html: &mut Html, change: &Change, config: &Config, threads: u32) -> Written {
    for t in 0..threads {
        if let Some(point) = config.point(t) {
            push_locals(html, change, t, point.op)?;
        }
    }
    Ok(())
}

/// What is otherwise in the memory of a configuration than it was: shared pointers, nodes and locals.
pub(crate) fn push_changes(
    html: &mut Html,
    flow: &Flow,
    before: &Memory,
    config: &Config,
    threads: u32,
) -> Written {
    let change = Change {
        file: &flow.file,
        before,
        after: config.memory(),
    };
    push_shared(html, &change)?;
    push_nodes(html, &change)?;
    push_all_locals(html, &change, config, threads)
}

/// The addresses that are retired and not freed yet.
pub(crate) fn push_retired(html: &mut Html, memory: &Memory) -> Written {
    let mut begun = false;
    for a in 1..AFTER_ADDRESSES {
        if memory.used(a) && memory.retired(a) {
            push_numbered(html, if begun { ", " } else { "" }, a)?;
            begun = true;
        }
    }
    html.markup(if begun { "" } else { "none" })
}
