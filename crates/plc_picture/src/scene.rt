// What both pictures of a model are made of: the terms with their sorts and classes, and what the file calls them.
use plc_ground::{GroundTerm, Sort, Symbol};
use plc_lang::{File, Local};
use plc_logic::Clause;
use std::alloc::Global;

/// A model, and the names of its constants.
#[derive(Clone, Copy)]
pub(crate) struct Scene<'a> {
    pub alloc: Global,
    pub file: &'a File,
    /// The locals of the acting thread.
    pub mine: &'a [Local],
    /// The locals of the other thread, where its clause is looked at.
    pub theirs: &'a [Local],
    /// The clause that is to hold after the step, unless a claim is.
    pub clause: Option<&'a Clause>,
    pub terms: &'a [GroundTerm],
    pub sorts: &'a [Sort],
    /// The class of each term: the place of its least term.
    pub class: &'a [u32],
}

/// The class of the term at a place.
pub(crate) fn class_at(scene: &Scene, place: usize) -> Option<u32> {
    scene.class.get(place).copied()
}

/// The class of a constant, where the set has it.
pub(crate) fn class_of(scene: &Scene, symbol: Symbol) -> Option<u32> {
    for (place, term) in scene.terms.iter().enumerate() {
        if *term == GroundTerm::Const(symbol) {
            return class_at(scene, place);
        }
    }
    None
}

/// Whether the term at a place is a node, or null.
pub(crate) fn is_node(scene: &Scene, place: usize) -> bool {
    matches!(scene.sorts.get(place), Some(Sort::Node))
}

/// Whether a constant is a variable: a shared pointer, or a local of one of the threads.
pub(crate) fn is_variable(symbol: Symbol) -> bool {
    matches!(
        symbol,
        Symbol::Shared(_) | Symbol::Mine(_) | Symbol::Theirs(_)
    )
}

/// Whether a constant is what a load reads.
pub(crate) fn is_read(symbol: Symbol) -> bool {
    matches!(symbol, Symbol::Loaded(_))
}
