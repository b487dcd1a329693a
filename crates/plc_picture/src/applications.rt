// What the maps of a set give at one node. The terms are walked over once for each box; whatever a row asks is looked
// for among what was found.
ghost use Rattle.std.specs.Prelude.{◌<◌, length};

use crate::scene::{Scene, class_at};
use plc_base::{FieldId, Items, NoMemory};
use plc_encoding::{Execution, version};
use plc_ground::{GroundTerm, Map};
use plc_lang::File;
use std::alloc::Global;

/// A map of which boxes have a row, and the versions of it and of its marks in the state that is shown.
#[derive(Clone, Copy)]
pub(crate) struct Column {
    /// The field.
    pub map: Map,
    /// The version of its values.
    pub version: u16,
    /// The version of its marks.
    pub mark_version: u16,
}

/// What a version of a map gives at a node: the class of the application.
#[derive(Clone, Copy)]
pub(crate) struct Application {
    map: Map,
    version: u16,
    class: u32,
}

/// A map that has no marks.
fn plain_column(execution: &Execution, map: Map) -> Column
    requires { length execution.now.written < 65536 }
{
    Column {
        map,
        version: version(execution, map),
        mark_version: 0,
    }
}

/// The number of a field at a place. No file has so many fields that a number would be too great.
fn number_of(place: usize) -> u16 {
    place.min(65_535) as u16
}

/// A field of the struct, which has marks.
fn field_column(execution: &Execution, field: FieldId) -> Column
    requires { length execution.now.written < 65536 }
{
    Column {
        map: Map::Field(field),
        version: version(execution, Map::Field(field)),
        mark_version: version(execution, Map::FieldMark(field)),
    }
}

/// The maps of which boxes have rows, in the order of the rows: the fields of the struct, the auxiliary fields, and
/// whether a node is retired.
pub(crate) fn columns_of(
    alloc: Global,
    file: &File,
    execution: &Execution,
) -> Result<Items<Column>, NoMemory>
    requires { length execution.now.written < 65536 }
{
    let mut columns = Items::new(alloc);
    for k in 0..file.fields.len() {
        columns.push(field_column(execution, FieldId(number_of(k))))?;
    }
    for g in 0..file.ghosts.len() {
        columns.push(plain_column(execution, Map::Ghost(number_of(g))))?;
    }
    columns.push(plain_column(execution, Map::Retired))?;
    Ok(columns)
}

/// What the term at a place says of the nodes of a class, where it applies a map to one of them.
fn application_at(scene: &Scene, node: u32, place: usize, term: GroundTerm) -> Option<Application> {
    match term {
        GroundTerm::Const(_) => None,
        GroundTerm::App { map, version, arg } => {
            if class_at(scene, arg as usize) != Some(node) {
                return None;
            }
            let class = class_at(scene, place)?;
            Some(Application {
                map,
                version,
                class,
            })
        }
    }
}

/// What all terms say of the nodes of a class.
pub(crate) fn applications_at(scene: &Scene, node: u32) -> Result<Items<Application>, NoMemory> {
    let mut found = Items::new(scene.alloc);
    for (place, term) in scene.terms.iter().enumerate() {
        if let Some(application) = application_at(scene, node, place, *term) {
            found.push(application)?;
        }
    }
    Ok(found)
}

/// The class of what a version of a map gives.
pub(crate) fn class_in(found: &[Application], map: Map, version: u16) -> Option<u32> {
    for one in found {
        if one.map == map && one.version == version {
            return Some(one.class);
        }
    }
    None
}

/// The class of the mark that a version of a field has; no other map has one.
pub(crate) fn mark_in(found: &[Application], map: Map, version: u16) -> Option<u32> {
    match map {
        Map::Field(f) => class_in(found, Map::FieldMark(f), version),
        Map::Ghost(_) | Map::Retired | Map::FieldMark(_) => None,
    }
}
