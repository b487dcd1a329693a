// Where the constants that are nodes lead in a state. A variable leads where the constant leads that it has by then;
// any other constant is itself throughout.
use crate::picture::Name;
use crate::scene::{Scene, class_of, is_node, is_read};
use crate::texts::symbol_text;
use plc_base::{Items, NoMemory};
use plc_encoding::{Execution, current};
use plc_ground::{GroundTerm, Symbol};
use plc_vocabulary::mark_of;

/// A constant that is a node, or null.
#[derive(Clone, Copy)]
pub(crate) struct Pointer {
    symbol: Symbol,
    /// The class of the node to which it leads.
    class: u32,
    marked: bool,
    changed: bool,
}

/// Whether a class is there and is that of `yes`.
pub(crate) fn is_yes(class: Option<u32>, yes: Option<u32>) -> bool {
    class.is_some() && class == yes
}

/// Where a constant leads.
fn pointer_of(
    scene: &Scene,
    execution: &Execution,
    yes: Option<u32>,
    symbol: Symbol,
) -> Option<Pointer> {
    let class = class_of(scene, current(execution, symbol))?;
    let mark = class_of(scene, current(execution, mark_of(symbol)));
    let stays = class_of(scene, symbol) == Some(class) && class_of(scene, mark_of(symbol)) == mark;
    Some(Pointer {
        symbol,
        class,
        marked: is_yes(mark, yes),
        changed: !stays,
    })
}

/// Where all constants lead that are nodes, but null itself.
pub(crate) fn pointers_of(
    scene: &Scene,
    execution: &Execution,
    yes: Option<u32>,
) -> Result<Items<Pointer>, NoMemory> {
    let mut pointers = Items::new(scene.alloc);
    for (place, term) in scene.terms.iter().enumerate() {
        if let GroundTerm::Const(symbol) = *term {
            if symbol != Symbol::Null && is_node(scene, place) {
                if let Some(pointer) = pointer_of(scene, execution, yes, symbol) {
                    pointers.push(pointer)?;
                }
            }
        }
    }
    Ok(pointers)
}

/// Adds the names of what leads to a class: of what is read, or of all else.
pub(crate) fn push_names(
    scene: &Scene,
    pointers: &[Pointer],
    class: Option<u32>,
    reads: bool,
    names: &mut Items<Name>,
) -> Result<(), NoMemory> {
    for pointer in pointers {
        if Some(pointer.class) == class && is_read(pointer.symbol) == reads {
            names.push(Name {
                text: symbol_text(scene, pointer.symbol)?,
                marked: pointer.marked,
                changed: pointer.changed,
            })?;
        }
    }
    Ok(())
}
