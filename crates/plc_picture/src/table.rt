// A picture as a table, for whoever reads without seeing a drawing: a row for each box, and one for null.
use crate::picture::{Name, NodeBox, Picture, Row, Value};
use crate::pieces::{push_box_number, push_mark, push_value};
use plc_base::NoMemory;
use plc_html::Html;

/// Begins what may have changed.
fn begin_changed(html: &mut Html, changed: bool) -> Result<(), NoMemory> {
    if changed {
        return html.markup("<span class=\"changed\">");
    }
    Ok(())
}

/// Ends what may have changed, with the word for it.
fn end_changed(html: &mut Html, changed: bool) -> Result<(), NoMemory> {
    if changed {
        return html.markup(" (changed)</span>");
    }
    Ok(())
}

/// Adds a name.
fn push_name(html: &mut Html, name: &Name, changed: bool) -> Result<(), NoMemory> {
    begin_changed(html, changed)?;
    html.text(name.text.as_slice())?;
    push_mark(html, name.marked)?;
    end_changed(html, changed)
}

/// Adds names one after another. Where `told`, what changed has the class `changed` and that word.
fn push_names(html: &mut Html, names: &[Name], told: bool) -> Result<(), NoMemory> {
    for (number, name) in names.iter().enumerate() {
        if number > 0 {
            html.markup(", ")?;
        }
        push_name(html, name, told && name.changed)?;
    }
    Ok(())
}

/// Adds names with markup before and after them, where there are any.
pub(crate) fn push_names_within(
    html: &mut Html,
    names: &[Name],
    told: bool,
    before: &'static str,
    after: &'static str,
) -> Result<(), NoMemory> {
    if names.is_empty() {
        return Ok(());
    }
    html.markup(before)?;
    push_names(html, names, told)?;
    html.markup(after)
}

/// Adds to which box a field leads.
fn push_target(html: &mut Html, boxes: &[NodeBox], to: usize) -> Result<(), NoMemory> {
    html.markup(" \u{2192} ")?;
    push_box_number(html, to)?;
    match boxes.get(to) {
        None => Ok(()),
        Some(node) => push_names_within(html, node.names.as_slice(), false, " (", ")"),
    }
}

/// Adds what a field holds, where these are the boxes of the picture.
fn push_field(html: &mut Html, boxes: &[NodeBox], row: &Row) -> Result<(), NoMemory> {
    begin_changed(html, row.changed)?;
    html.text(row.field.as_slice())?;
    match row.value {
        Value::Node(to) => push_target(html, boxes, to)?,
        _ => push_value(html, &row.value)?,
    }
    push_mark(html, row.marked)?;
    end_changed(html, row.changed)
}

/// Adds what the fields of a box hold, each in a line of its own.
fn push_fields(html: &mut Html, boxes: &[NodeBox], rows: &[Row]) -> Result<(), NoMemory> {
    for (number, row) in rows.iter().enumerate() {
        if number > 0 {
            html.markup("<br>")?;
        }
        push_field(html, boxes, row)?;
    }
    Ok(())
}

/// Adds the row of a box.
fn push_box(
    html: &mut Html,
    boxes: &[NodeBox],
    number: usize,
    node: &NodeBox,
) -> Result<(), NoMemory> {
    html.markup("<tr><th>")?;
    push_box_number(html, number)?;
    html.markup("</th><td>")?;
    push_names(html, node.names.as_slice(), true)?;
    html.markup("</td><td>")?;
    push_fields(html, boxes, node.rows.as_slice())?;
    html.markup("</td></tr>\n")
}

/// Adds the rows of the boxes.
fn push_boxes(html: &mut Html, boxes: &[NodeBox]) -> Result<(), NoMemory> {
    for (number, node) in boxes.iter().enumerate() {
        push_box(html, boxes, number, node)?;
    }
    Ok(())
}

/// Adds a picture as a table: for each node the number of its box, what points to it, and what its fields hold, and at
/// the end the pointers that are null. What changed has the class `changed` and that word. The one error is that memory
/// runs out.
pub fn push_table(html: &mut Html, picture: &Picture) -> Result<(), NoMemory> {
    html.markup("<table class=\"picture\">\n")?;
    html.markup("<tr><th>node</th><th>pointers to it</th><th>fields</th></tr>\n")?;
    push_boxes(html, picture.boxes.as_slice())?;
    let nulls = picture.nulls.as_slice();
    push_names_within(
        html,
        nulls,
        true,
        "<tr><th>null</th><td>",
        "</td><td></td></tr>\n",
    )?;
    html.markup("</table>\n")
}
