// What is known of auxiliary fields that have values: each node has one of them.
ghost use Rattle.std.specs.Prelude.{◌≡◌, ◌+◌, ◌<◌, length, OnOk};
ghost use Rattle.std.specs.List.{sum_by};
ghost use Rattle.plc_lang.specs.Numbering.{values_in};
ghost use Rattle.plc_symbolic.specs.Numbering.{written, written_all};
ghost use Rattle.plc_encoding.specs.Items.{one_of_values, field_values, values_from};

use plc_base::{Items, NoMemory};
use plc_ground::{Map, Symbol};
use plc_lang::Ghost;
use plc_symbolic::{Draft, NodeTerm, SymbolicTerm, applied, is};
use std::alloc::Global;

/// Writes that the node has one of so many values of the field.
fn push_one_of(
    alloc: Global,
    g: u16,
    first: u16,
    count: usize,
    node: NodeTerm,
    out: &mut Draft,
) -> Result<(), NoMemory>
    requires { first + count < 65536 }
    ensures { OnOk result (out.new ≡ written out.old (one_of_values g first count node)) }
{
    let mut clause = Items::new(alloc);
    for v in 0..count {
        let value = SymbolicTerm::Constant(Symbol::Value(first + v as u16));
        clause.push(is(applied(Map::Ghost(g), 0, node), value))?;
    }
    out.push(clause.as_slice())
}

/// Writes that each node has one of the values of the field.
fn push_field_values(
    alloc: Global,
    g: u16,
    first: u16,
    count: usize,
    nodes: &[NodeTerm],
    out: &mut Draft,
) -> Result<(), NoMemory>
    requires { first + count < 65536 }
    ensures { OnOk result (out.new ≡ written_all out.old (field_values g first count nodes.now)) }
{
    if count == 0 {
        return Ok(());
    }
    for node in nodes {
        push_one_of(alloc, g, first, count, *node, out)?;
    }
    Ok(())
}

/// Writes, for each auxiliary field that has values and each node, that it is one of them.
pub fn push_values(
    alloc: Global,
    ghosts: &[Ghost],
    nodes: &[NodeTerm],
    out: &mut Draft,
) -> Result<(), NoMemory>
    requires fields { length ghosts.now < 65536 }
    requires values { sum_by values_in ghosts.now < 65536 }
    ensures { OnOk result (out.new ≡ written_all out.old (values_from 0 0 ghosts.now nodes.now)) }
{
    let mut first = 0;
    for (g, held) in ghosts.iter().enumerate() {
        let count = held.values.len();
        push_field_values(alloc, g as u16, first, count, nodes, out)?;
        first += count as u16;
    }
    Ok(())
}
