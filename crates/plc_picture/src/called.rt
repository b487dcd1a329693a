// What the classes of a model are called in a state, in a table by their numbers. A class may have many names, so they
// are put in by rank, and the first one stays: nodes by their boxes and what is told apart from all else by itself,
// then what variables hold in this state, then what was read, and at last what variables held before the step.
use crate::scene::{Scene, class_of, is_read, is_variable};
use plc_base::NoMemory;
use plc_encoding::{Execution, current};
use plc_ground::{GroundTerm, Symbol, is_distinguished};

/// What a class is called.
#[derive(Clone, Copy)]
pub(crate) enum Called {
    /// A node, by the number of its box.
    Node(usize),
    /// By a constant of which it is, in this state.
    Constant(Symbol),
    /// By a variable that holds another value in this state, and held this one before the step.
    Earlier(Symbol),
}

/// Calls a class so, where it isn't called anything yet.
fn call(called: &mut Vec<Option<Called>>, class: Option<u32>, name: Called) {
    let Some(class) = class else {
        return;
    };
    if let Some(slot) = called.get_mut(class as usize) {
        if slot.is_none() {
            *slot = Some(name);
        }
    }
}

/// Calls the classes of nodes by their boxes.
fn call_nodes(nodes: &[u32], called: &mut Vec<Option<Called>>) {
    for (number, class) in nodes.iter().enumerate() {
        call(called, Some(*class), Called::Node(number));
    }
}

/// By what a class may be called that has no box.
#[derive(Clone, Copy)]
enum Rank {
    /// Null, and what is told apart from all else by itself, as numbers are.
    Itself,
    /// A variable that holds it in this state.
    Held,
    /// A load that reads it.
    Read,
    /// A variable that held it before the step.
    Earlier,
}

/// How a constant calls the class of what it stands for, if it does by this rank.
fn name_by(rank: Rank, symbol: Symbol) -> Option<Called> {
    match rank {
        Rank::Itself if symbol == Symbol::Null || is_distinguished(symbol) => {
            Some(Called::Constant(symbol))
        }
        Rank::Held if is_variable(symbol) => Some(Called::Constant(symbol)),
        Rank::Read if is_read(symbol) => Some(Called::Constant(symbol)),
        Rank::Earlier if is_variable(symbol) => Some(Called::Earlier(symbol)),
        _ => None,
    }
}

/// The class that a constant calls by a rank: of what it stands for in this state, or stood for before the step.
fn class_by(scene: &Scene, execution: &Execution, rank: Rank, symbol: Symbol) -> Option<u32> {
    match rank {
        Rank::Held => class_of(scene, current(execution, symbol)),
        Rank::Itself | Rank::Read | Rank::Earlier => class_of(scene, symbol),
    }
}

/// Calls classes by the constants of a rank.
fn call_by(scene: &Scene, execution: &Execution, rank: Rank, called: &mut Vec<Option<Called>>) {
    for term in scene.terms {
        if let GroundTerm::Const(symbol) = *term {
            if let Some(name) = name_by(rank, symbol) {
                call(called, class_by(scene, execution, rank, symbol), name);
            }
        }
    }
}

/// What each class is called, where these classes have boxes.
pub(crate) fn called_classes(
    scene: &Scene,
    execution: &Execution,
    nodes: &[u32],
) -> Result<Vec<Option<Called>>, NoMemory> {
    let mut called = vec![in scene.alloc; None; scene.class.len()]?;
    call_nodes(nodes, &mut called);
    for rank in [Rank::Itself, Rank::Held, Rank::Read, Rank::Earlier] {
        call_by(scene, execution, rank, &mut called);
    }
    Ok(called)
}
