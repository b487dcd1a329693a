// The boxes of a picture, and the rows in them.
use crate::applications::{Application, Column, applications_at, class_in, mark_in};
use crate::called::Called;
use crate::picture::{Name, NodeBox, Row, Value};
use crate::pointers::{is_yes, push_names};
use crate::scene::Scene;
use crate::state::State;
use crate::texts::{earlier_text, map_text, symbol_text};
use plc_base::{Items, NoMemory};
use plc_ground::{Map, Symbol};

/// The value that a class is called.
fn value_called(scene: &Scene, called: Called) -> Result<Value, NoMemory> {
    match called {
        Called::Node(number) => Ok(Value::Node(number)),
        Called::Constant(Symbol::Null) => Ok(Value::Null),
        Called::Constant(symbol) => Ok(Value::Text(symbol_text(scene, symbol)?)),
        Called::Earlier(symbol) => Ok(Value::Text(earlier_text(scene, symbol)?)),
    }
}

/// The value of a class of what a map gives, unless nothing is said of it.
fn value_of(
    scene: &Scene,
    state: &State,
    map: Map,
    class: Option<u32>,
) -> Result<Option<Value>, NoMemory> {
    let Some(class) = class else {
        return Ok(None);
    };
    if map == Map::Retired {
        return Ok(Some(Value::Truth(is_yes(Some(class), state.yes))));
    }
    match state.called.get(class as usize).copied() {
        Some(Some(called)) => Ok(Some(value_called(scene, called)?)),
        _ => Ok(None),
    }
}

/// The value that a row shows, if there is one to show: one whose mark is set is shown at any rate.
fn shown_value(value: Option<Value>, marked: bool) -> Option<Value> {
    match value {
        Some(value) => Some(value),
        None if marked => Some(Value::Unsaid),
        None => None,
    }
}

/// Whether a map gives something else than before the step, or another mark.
fn is_changed(found: &[Application], column: Column) -> bool {
    class_in(found, column.map, column.version) != class_in(found, column.map, 0)
        || mark_in(found, column.map, column.mark_version) != mark_in(found, column.map, 0)
}

/// The row of a map, if it has one.
fn row_of(
    scene: &Scene,
    state: &State,
    found: &[Application],
    column: Column,
) -> Result<Option<Row>, NoMemory> {
    let class = class_in(found, column.map, column.version);
    let mark = mark_in(found, column.map, column.mark_version);
    let marked = is_yes(mark, state.yes);
    let field = map_text(scene, column.map)?;
    match shown_value(value_of(scene, state, column.map, class)?, marked) {
        None => Ok(None),
        Some(value) => Ok(Some(Row {
            field,
            value,
            marked,
            changed: is_changed(found, column),
        })),
    }
}

/// The rows of a node of which this is said.
fn rows_from(scene: &Scene, state: &State, found: &[Application]) -> Result<Items<Row>, NoMemory> {
    let mut rows = Items::new(scene.alloc);
    for column in state.columns.as_slice() {
        if let Some(row) = row_of(scene, state, found, *column)? {
            rows.push(row)?;
        }
    }
    Ok(rows)
}

/// The rows of the nodes of a class.
fn rows_of(scene: &Scene, state: &State, class: u32) -> Result<Items<Row>, NoMemory> {
    let found = applications_at(scene, class)?;
    rows_from(scene, state, found.as_slice())
}

/// The names of what leads to a class: what is read is named only where nothing else is.
fn names_of(scene: &Scene, state: &State, class: u32) -> Result<Items<Name>, NoMemory> {
    let mut names = Items::new(scene.alloc);
    push_names(
        scene,
        state.pointers.as_slice(),
        Some(class),
        false,
        &mut names,
    )?;
    if names.is_empty() {
        push_names(
            scene,
            state.pointers.as_slice(),
            Some(class),
            true,
            &mut names,
        )?;
    }
    Ok(names)
}

/// The box of a class.
fn box_of(scene: &Scene, state: &State, class: u32) -> Result<NodeBox, NoMemory> {
    let names = names_of(scene, state, class)?;
    let rows = rows_of(scene, state, class)?;
    Ok(NodeBox { names, rows })
}

/// The boxes of a state.
pub(crate) fn boxes_of(scene: &Scene, state: &State) -> Result<Items<NodeBox>, NoMemory> {
    let mut boxes = Items::new(scene.alloc);
    for class in state.nodes.as_slice() {
        boxes.push(box_of(scene, state, *class)?)?;
    }
    Ok(boxes)
}

/// The pointers that are null, without what is read.
pub(crate) fn nulls_of(scene: &Scene, state: &State) -> Result<Items<Name>, NoMemory> {
    let mut names = Items::new(scene.alloc);
    push_names(
        scene,
        state.pointers.as_slice(),
        state.null,
        false,
        &mut names,
    )?;
    Ok(names)
}
