// What both drawings spell alike, and how long it is: the width of a box follows from the texts in it.
use crate::picture::{Name, NodeBox, Row, Value};
use plc_base::NoMemory;
use plc_html::Html;

/// How many characters a text has, which are its bytes: names are spelled in ASCII.
fn length_of(text: &[u8]) -> u64 {
    text.len() as u64
}

/// Adds what a field holds, after its name; an arrow, if it leads to a node, is for the drawing to add.
pub(crate) fn push_value(html: &mut Html, value: &Value) -> Result<(), NoMemory> {
    match value {
        Value::Null => html.markup(" = null"),
        Value::Node(_) | Value::Unsaid => Ok(()),
        Value::Truth(true) => html.markup(": yes"),
        Value::Truth(false) => html.markup(": no"),
        Value::Text(text) => {
            html.markup(" = ")?;
            html.text(text.as_slice())
        }
    }
}

/// How many characters that has.
fn value_length(value: &Value) -> u64 {
    match value {
        Value::Null => 7,
        Value::Node(_) | Value::Unsaid => 0,
        Value::Truth(true) => 5,
        Value::Truth(false) => 4,
        Value::Text(text) => length_of(text.as_slice()).saturating_add(3),
    }
}

/// Adds that a mark is set, where it is.
pub(crate) fn push_mark(html: &mut Html, marked: bool) -> Result<(), NoMemory> {
    if marked {
        return html.markup(" marked");
    }
    Ok(())
}

/// How many characters tell that a mark is set, and the sign of a change.
fn signs_length(marked: bool, changed: bool) -> u64 {
    match (marked, changed) {
        (false, false) => 0,
        (false, true) => 2,
        (true, false) => 7,
        (true, true) => 9,
    }
}

/// How many characters a name has with its signs.
fn name_length(name: &Name) -> u64 {
    length_of(name.text.as_slice()).saturating_add(signs_length(name.marked, name.changed))
}

/// How many characters a row has with its signs.
fn row_length(row: &Row) -> u64 {
    length_of(row.field.as_slice())
        .saturating_add(value_length(&row.value))
        .saturating_add(signs_length(row.marked, row.changed))
}

/// How many characters the longest name or row of a box has.
pub(crate) fn longest_line(node: &NodeBox) -> u64 {
    let mut most = 0;
    for name in node.names.as_slice() {
        most = name_length(name).max(most);
    }
    for row in node.rows.as_slice() {
        most = row_length(row).max(most);
    }
    most
}

/// How many lines a box has: its number, its names and its rows.
pub(crate) fn lines_of(node: &NodeBox) -> u64 {
    (node.names.len() as u64)
        .saturating_add(node.rows.len() as u64)
        .saturating_add(1)
}

/// Adds the number of a box, as a reader counts.
pub(crate) fn push_box_number(html: &mut Html, number: usize) -> Result<(), NoMemory> {
    html.markup("box ")?;
    html.number((number as u64).saturating_add(1))
}
