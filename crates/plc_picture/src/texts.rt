// What pictures call constants and fields: as the file does, with a word where the file has none. A local of the other
// thread is told as the other's, since both threads may be in one operation.
use crate::scene::Scene;
use plc_answers::{push, push_bytes, push_number, push_numbered, value_text};
use plc_base::{Items, NoMemory};
use plc_ground::{Map, Symbol};
use plc_lang::{auxiliary_name, field_name, local_name, shared_name};
use plc_logic::Clause;
use std::alloc::AllocError;

/// The name that the clause gives a node.
fn bound_name(clause: Option<&Clause>, number: u16) -> &[u8] {
    match clause {
        None => &[],
        Some(clause) => {
            if number < clause.bound.len() {
                clause.bound.get(number)
            } else {
                &[]
            }
        }
    }
}

/// A local of the other thread.
fn push_theirs(out: &mut Vec<u8>, name: &[u8]) -> Result<(), AllocError> {
    push(out, "other's ")?;
    push_bytes(out, name)
}

/// A constant. Marks are told with their pointers, and have no names of their own.
fn push_symbol(out: &mut Vec<u8>, scene: &Scene, symbol: Symbol) -> Result<(), AllocError> {
    match symbol {
        Symbol::Null => push(out, "null"),
        Symbol::Shared(i) => push_bytes(out, shared_name(scene.file, i)),
        Symbol::Mine(v) => push_bytes(out, local_name(scene.file, scene.mine, v)),
        Symbol::Theirs(v) => push_theirs(out, local_name(scene.file, scene.theirs, v)),
        Symbol::New => push(out, "new"),
        Symbol::Bound(c) => push_bytes(out, bound_name(scene.clause, c)),
        Symbol::Loaded(r) => push_numbered(out, "read ", u32::from(r)),
        Symbol::Yes => push(out, "yes"),
        Symbol::No => push(out, "no"),
        Symbol::Nobody => push(out, "none"),
        Symbol::Me => push(out, "acting thread"),
        Symbol::You => push(out, "other thread"),
        Symbol::Value(v) => push_bytes(out, value_text(scene.file, v)),
        Symbol::Number(n) => push_number(out, u64::from(n)),
        Symbol::MarkShared(_) | Symbol::MarkMine(_) => Ok(()),
        Symbol::MarkTheirs(_) | Symbol::MarkLoaded(_) => Ok(()),
    }
}

/// The text of a constant.
pub(crate) fn symbol_text(scene: &Scene, symbol: Symbol) -> Result<Items<u8>, NoMemory> {
    let mut out = Vec::new(scene.alloc);
    push_symbol(&mut out, scene, symbol)?;
    Ok(Items::from_vec(out))
}

/// The text of what a variable held before the step, where it holds something else now.
pub(crate) fn earlier_text(scene: &Scene, symbol: Symbol) -> Result<Items<u8>, NoMemory> {
    let mut out = Vec::new(scene.alloc);
    push_symbol(&mut out, scene, symbol)?;
    push(&mut out, " before the step")?;
    Ok(Items::from_vec(out))
}

/// A map: the field whose values it gives.
fn push_map(out: &mut Vec<u8>, scene: &Scene, map: Map) -> Result<(), AllocError> {
    match map {
        Map::Field(f) | Map::FieldMark(f) => push_bytes(out, field_name(scene.file, f)),
        Map::Ghost(g) => push_bytes(out, auxiliary_name(scene.file, g)),
        Map::Retired => push(out, "retired"),
    }
}

/// The text of a map.
pub(crate) fn map_text(scene: &Scene, map: Map) -> Result<Items<u8>, NoMemory> {
    let mut out = Vec::new(scene.alloc);
    push_map(&mut out, scene, map)?;
    Ok(Items::from_vec(out))
}
