// A picture as inline SVG. Strokes and fills are the color of the text around it, so it can be read without a style
// sheet. Each arrow has its head as a path of its own: a marker would need a name, and a page with several pictures
// would have the name more than once.
use crate::layout::{
    Arrow, Layout, Place, Way, baseline, down_at, layout_of, line_middle, line_top, right_of,
    text_left, up_at,
};
use crate::picture::{Name, NodeBox, Picture, Row};
use crate::pieces::{push_box_number, push_mark, push_value};
use crate::table::push_names_within;
use plc_base::NoMemory;
use plc_html::{At, Detour, Html, Tag};

/// Adds the rectangle of a box.
fn push_frame(html: &mut Html, layout: &Layout, place: Place) -> Result<(), NoMemory> {
    html.tag(Tag::Frame {
        at: At {
            across: place.left,
            down: line_top(0),
        },
        width: place.width,
        height: layout.box_height(),
    })?;
    html.markup("\n")
}

/// Adds the line below the names of a box.
fn push_rule(html: &mut Html, place: Place, line: u64) -> Result<(), NoMemory> {
    html.tag(Tag::Rule {
        at: At {
            across: place.left,
            down: line_top(line),
        },
        right: right_of(place),
    })?;
    html.markup("\n")
}

/// Where the text of a line of a box stands.
fn text_at(place: Place, line: u64) -> At {
    At {
        across: text_left(place),
        down: baseline(line),
    }
}

/// Ends the text of a line, with the signs that a mark is set and that something changed.
fn close_line(html: &mut Html, marked: bool, changed: bool) -> Result<(), NoMemory> {
    push_mark(html, marked)?;
    if changed {
        html.markup(" *")?;
    }
    html.markup("</text>\n")
}

/// Adds the number of a box, as its first line.
fn push_title(html: &mut Html, number: usize, place: Place) -> Result<(), NoMemory> {
    html.tag(Tag::NameAt {
        at: text_at(place, 0),
        changed: false,
    })?;
    push_box_number(html, number)?;
    close_line(html, false, false)
}

/// Adds a name, as a line of a box.
fn push_name(html: &mut Html, name: &Name, place: Place, line: u64) -> Result<(), NoMemory> {
    html.tag(Tag::NameAt {
        at: text_at(place, line),
        changed: name.changed,
    })?;
    html.text(name.text.as_slice())?;
    close_line(html, name.marked, name.changed)
}

/// Adds a row, as a line of a box.
fn push_row(html: &mut Html, row: &Row, place: Place, line: u64) -> Result<(), NoMemory> {
    html.tag(Tag::FieldAt {
        at: text_at(place, line),
        changed: row.changed,
    })?;
    html.text(row.field.as_slice())?;
    push_value(html, &row.value)?;
    close_line(html, row.marked, row.changed)
}

/// Adds the lines of a box, with a rule between names and rows.
fn push_lines(
    html: &mut Html,
    number: usize,
    node: &NodeBox,
    place: Place,
) -> Result<(), NoMemory> {
    push_title(html, number, place)?;
    let mut line: u64 = 1;
    for name in node.names.as_slice() {
        push_name(html, name, place, line)?;
        line = line.saturating_add(1);
    }
    push_rule(html, place, line)?;
    for row in node.rows.as_slice() {
        push_row(html, row, place, line)?;
        line = line.saturating_add(1);
    }
    Ok(())
}

/// Adds the boxes.
fn push_boxes(html: &mut Html, boxes: &[NodeBox], layout: &Layout) -> Result<(), NoMemory> {
    for (number, node) in boxes.iter().enumerate() {
        if let Some(place) = layout.places.get(number).copied() {
            push_frame(html, layout, place)?;
            push_lines(html, number, node, place)?;
        }
    }
    Ok(())
}

/// Adds an arrow to the next box: its line and its head.
fn push_straight(html: &mut Html, arrow: &Arrow, from: Place, to: Place) -> Result<(), NoMemory> {
    let down = line_middle(arrow.line);
    let changed = arrow.changed;
    html.tag(Tag::Straight {
        at: At {
            across: right_of(from),
            down,
        },
        right: to.left,
        changed,
    })?;
    html.markup("\n")?;
    html.tag(Tag::HeadRight {
        at: At {
            across: to.left,
            down,
        },
        changed,
    })?;
    html.markup("\n")
}

/// Adds an arrow that goes around the boxes: its line and its head.
fn push_around(html: &mut Html, by: Detour, changed: bool) -> Result<(), NoMemory> {
    html.tag(Tag::Around { by, changed })?;
    html.markup("\n")?;
    html.tag(Tag::HeadUp { at: by.to, changed })?;
    html.markup("\n")
}

/// Adds an arrow between two places.
fn push_arrow(
    html: &mut Html,
    layout: &Layout,
    arrow: &Arrow,
    from: Place,
    to: Place,
) -> Result<(), NoMemory> {
    match arrow.way {
        Way::Straight => push_straight(html, arrow, from, to),
        Way::Around { lane, down, up } => {
            let by = Detour {
                from: At {
                    across: right_of(from),
                    down: line_middle(arrow.line),
                },
                right: down_at(from, down),
                lane: layout.lane_at(lane),
                to: At {
                    across: up_at(to, up),
                    down: layout.bottom(),
                },
            };
            push_around(html, by, arrow.changed)
        }
    }
}

/// Adds the arrows.
fn push_arrows(html: &mut Html, layout: &Layout) -> Result<(), NoMemory> {
    for arrow in &layout.arrows {
        let from = layout.places.get(arrow.from).copied();
        let to = layout.places.get(arrow.to).copied();
        if let (Some(from), Some(to)) = (from, to) {
            push_arrow(html, layout, arrow, from, to)?;
        }
    }
    Ok(())
}

/// Adds the drawing of boxes.
fn push_drawing(html: &mut Html, boxes: &[NodeBox], layout: &Layout) -> Result<(), NoMemory> {
    html.tag(Tag::Svg {
        width: layout.width,
        height: layout.height(),
    })?;
    html.markup("\n")?;
    push_boxes(html, boxes, layout)?;
    push_arrows(html, layout)?;
    html.markup("</svg>\n")
}

/// Whether anything in a box has the sign of a change.
fn has_sign(node: &NodeBox) -> bool {
    node.names.as_slice().iter().any(|name| name.changed)
        || node.rows.as_slice().iter().any(|row| row.changed)
}

/// Adds what the sign says, where it is used.
fn push_legend(html: &mut Html, boxes: &[NodeBox]) -> Result<(), NoMemory> {
    if boxes.iter().any(has_sign) {
        return html.markup("<p class=\"legend\">* changed by the step</p>\n");
    }
    Ok(())
}

/// Adds a picture as inline SVG: a box for each node with its names and what its fields hold, arrows where these are
/// nodes, and below the drawing the pointers that are null. What changed has the class `changed` and a sign. The one
/// error is that memory runs out.
pub fn push_svg(html: &mut Html, picture: &Picture) -> Result<(), NoMemory> {
    let boxes = picture.boxes.as_slice();
    if !boxes.is_empty() {
        let layout = layout_of(html.alloc(), boxes)?;
        push_drawing(html, boxes, &layout)?;
    }
    push_legend(html, boxes)?;
    let nulls = picture.nulls.as_slice();
    push_names_within(html, nulls, true, "<p class=\"nulls\">null: ", "</p>\n")
}
