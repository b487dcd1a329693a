// What the terms of a model say in one of its two states, in tables that are made once and asked for each box.
ghost use Rattle.std.specs.Prelude.{◌<◌, length};

use crate::applications::{Column, columns_of};
use crate::called::{Called, called_classes};
use crate::nodes::node_classes;
use crate::pointers::{Pointer, pointers_of};
use crate::scene::{Scene, class_of};
use plc_base::{Items, NoMemory};
use plc_encoding::Execution;
use plc_ground::Symbol;

/// What the terms of a model say in a state.
#[derive(Drop)]
pub(crate) struct State {
    /// The classes that have boxes.
    pub nodes: Items<u32>,
    /// The class of null.
    pub null: Option<u32>,
    /// The class of what is so.
    pub yes: Option<u32>,
    pub columns: Items<Column>,
    pub pointers: Items<Pointer>,
    pub called: Vec<Option<Called>>,
}

/// What the terms say where this was executed.
pub(crate) fn state_of(scene: &Scene, execution: &Execution) -> Result<State, NoMemory>
    requires { length execution.now.written < 65536 }
{
    let yes = class_of(scene, Symbol::Yes);
    let nodes = node_classes(scene)?;
    let columns = columns_of(scene.alloc, scene.file, execution)?;
    let pointers = pointers_of(scene, execution, yes)?;
    let called = called_classes(scene, execution, nodes.as_slice())?;
    Ok(State {
        nodes,
        null: class_of(scene, Symbol::Null),
        yes,
        columns,
        pointers,
        called,
    })
}
