// Which classes have boxes. A set speaks of null's own fields too, and of what they lead to: nodes that no pointer of
// the program reaches, which a picture leaves out.
use crate::scene::{Scene, class_at, class_of, is_node};
use plc_base::{Items, NoMemory};
use plc_ground::{GroundTerm, Symbol};

/// Whether a class is among those that were reached.
fn is_reached(reached: &[bool], class: Option<u32>) -> bool {
    match class {
        None => false,
        Some(class) => reached.get(class as usize).copied() == Some(true),
    }
}

/// Adds a class to those that were reached, and answers whether it is new among them.
fn reach(reached: &mut Vec<bool>, class: Option<u32>) -> bool {
    let Some(class) = class else {
        return false;
    };
    match reached.get_mut(class as usize) {
        None => false,
        Some(slot) => {
            let is_new = !*slot;
            *slot = true;
            is_new
        }
    }
}

/// Whether a term is a constant, or what a map gives at a node that was reached.
fn is_reachable(scene: &Scene, reached: &[bool], term: GroundTerm) -> bool {
    match term {
        GroundTerm::Const(_) => true,
        GroundTerm::App { arg, .. } => is_reached(reached, class_at(scene, arg as usize)),
    }
}

/// Goes on by one field from what was reached, but not from null, and answers whether anything is new.
fn reach_on(scene: &Scene, null: Option<u32>, reached: &mut Vec<bool>) -> bool {
    let mut more = false;
    for (place, term) in scene.terms.iter().enumerate() {
        let class = class_at(scene, place);
        if class != null && is_reachable(scene, reached, *term) && reach(reached, class) {
            more = true;
        }
    }
    more
}

/// Whether each class is reached from a constant. A term stands after its argument, so one time mostly finds all.
fn reached_classes(scene: &Scene, null: Option<u32>) -> Result<Vec<bool>, NoMemory> {
    let mut reached = vec![in scene.alloc; false; scene.class.len()]?;
    for _ in scene.terms {
        if !reach_on(scene, null, &mut reached) {
            break;
        }
    }
    Ok(reached)
}

/// The classes of nodes that have boxes, in the order of their least terms.
pub(crate) fn node_classes(scene: &Scene) -> Result<Items<u32>, NoMemory> {
    let reached = reached_classes(scene, class_of(scene, Symbol::Null))?;
    let mut nodes = Items::new(scene.alloc);
    for (place, class) in scene.class.iter().enumerate() {
        if *class as usize == place && is_node(scene, place) && is_reached(&reached, Some(*class)) {
            nodes.push(*class)?;
        }
    }
    Ok(nodes)
}
