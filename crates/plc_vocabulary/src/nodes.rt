// The nodes of a ground set: constants and, at depth 1, their pointer fields in the state before.
ghost use Rattle.std.specs.Prelude.{◌≡◌, ◌++◌, map, OnOk};
ghost use Rattle.plc_symbolic.specs.declared.symbolic.NodeTerm.TheVariants as nodes;
ghost use Rattle.plc_vocabulary.specs.Setting.{node_constants, plain_constants, fields_of, targets_of, nodes_of};

use crate::symbols::{push_all, push_bound, push_if};
use plc_base::{FieldId, Items, NoMemory};
use plc_ground::Symbol;
use plc_symbolic::NodeTerm;

/// Lists the constants that are nodes: null, the pointer variables, the new node, those of the conclusion, and
/// what was read into pointers.
pub fn push_node_constants(
    list: &mut Items<Symbol>,
    pointers: &[Symbol],
    makes: bool,
    bound: u16,
    loaded: &[Symbol],
) -> Result<(), NoMemory>
    ensures { OnOk result (list.new ≡ list.old ++ node_constants pointers.now makes bound loaded.now) }
{
    list.push(Symbol::Null)?;
    push_all(list, pointers)?;
    push_if(list, makes, Symbol::New)?;
    push_bound(list, bound)?;
    push_all(list, loaded)
}

/// Lists the node constants but for null and the new node.
pub fn push_plain_constants(
    list: &mut Items<Symbol>,
    pointers: &[Symbol],
    bound: u16,
    loaded: &[Symbol],
) -> Result<(), NoMemory>
    ensures { OnOk result (list.new ≡ list.old ++ plain_constants pointers.now bound loaded.now) }
{
    push_all(list, pointers)?;
    push_bound(list, bound)?;
    push_all(list, loaded)
}

/// Lists constants as nodes.
fn push_constants(list: &mut Items<NodeTerm>, symbols: &[Symbol]) -> Result<(), NoMemory>
    ensures { OnOk result (list.new ≡ list.old ++ map nodes.At symbols.now) }
{
    for symbol in symbols {
        list.push(NodeTerm::At(*symbol))?;
    }
    Ok(())
}

/// Lists the pointer fields of a node.
fn push_fields_of(
    list: &mut Items<NodeTerm>,
    of: Symbol,
    fields: &[FieldId],
) -> Result<(), NoMemory>
    ensures { OnOk result (list.new ≡ list.old ++ fields_of fields.now of) }
{
    for f in fields {
        list.push(NodeTerm::Target { f: *f, of })?;
    }
    Ok(())
}

/// Lists the pointer fields of nodes, node by node.
fn push_fields(
    list: &mut Items<NodeTerm>,
    symbols: &[Symbol],
    fields: &[FieldId],
) -> Result<(), NoMemory>
    ensures { OnOk result (list.new ≡ list.old ++ targets_of fields.now symbols.now) }
{
    for of in symbols {
        push_fields_of(list, *of, fields)?;
    }
    Ok(())
}

/// Lists the constants and, where the outline is deep, the pointer fields of all that are nodes.
pub fn push_nodes(
    list: &mut Items<NodeTerm>,
    symbols: &[Symbol],
    deep: bool,
    constants: &[Symbol],
    fields: &[FieldId],
) -> Result<(), NoMemory>
    ensures { OnOk result (list.new ≡ list.old ++ nodes_of symbols.now deep constants.now fields.now) }
{
    push_constants(list, symbols)?;
    if deep {
        push_fields(list, constants, fields)?;
    }
    Ok(())
}
