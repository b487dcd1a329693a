// What is known of the node that a step makes: before the step no variable and no field leads to it, and all
// that it holds is the default. No pointer in it is marked.
ghost use Rattle.std.specs.Prelude.{◌≡◌, ◌<◌, length, map, flat_map, OnOk};
ghost use Rattle.std.specs.List.{sum_by};
ghost use Rattle.plc_lang.specs.Numbering.{values_in};
ghost use Rattle.plc_symbolic.specs.declared.symbolic.SymbolicTerm.TheVariants.{Constant};
ghost use Rattle.plc_symbolic.specs.Numbering.{written, written_all};
ghost use Rattle.plc_vocabulary.specs.Setting.{only_if};
ghost use Rattle.plc_encoding.specs.Items.{is_other, default_is, field_default, field_defaults_from, ghost_default};
ghost use Rattle.plc_encoding.specs.Items.{ghost_defaults_from, no_field_leads, unretired, unmarked_field, freshness};

use plc_base::{FieldId, NoMemory};
use plc_ground::{Map, Symbol};
use plc_lang::{Field, File, Ghost};
use plc_symbolic::{Draft, NodeTerm, SymbolicTerm, applied, is, is_not};
use plc_vocabulary::Setting;

/// Writes that the term isn't the new node.
fn push_other(term: SymbolicTerm, out: &mut Draft) -> Result<(), NoMemory>
    ensures { OnOk result (out.new ≡ written out.old (is_other term)) }
{
    out.push(&[is_not(SymbolicTerm::Constant(Symbol::New), term)])
}

/// Writes that no pointer leads to the new node.
fn push_no_variable(pointers: &[Symbol], out: &mut Draft) -> Result<(), NoMemory>
    ensures { OnOk result (out.new
        ≡ written_all out.old (map (λ p. is_other (Constant p)) pointers.now)) }
{
    for p in pointers {
        push_other(SymbolicTerm::Constant(*p), out)?;
    }
    Ok(())
}

/// Writes that no pointer field of a node leads to the new node.
fn push_no_field_of(node: NodeTerm, fields: &[FieldId], out: &mut Draft) -> Result<(), NoMemory>
    ensures { OnOk result (out.new ≡ written_all out.old (no_field_leads fields.now node)) }
{
    for f in fields {
        push_other(applied(Map::Field(*f), 0, node), out)?;
    }
    Ok(())
}

/// Writes that no pointer field of the nodes leads to the new node.
fn push_no_field(nodes: &[NodeTerm], fields: &[FieldId], out: &mut Draft) -> Result<(), NoMemory>
    ensures { OnOk result (out.new ≡ written_all out.old (flat_map (no_field_leads fields.now) nodes.now)) }
{
    for node in nodes {
        push_no_field_of(*node, fields, out)?;
    }
    Ok(())
}

/// Writes that a map has its default at the new node.
fn push_default(map: Map, default: Symbol, out: &mut Draft) -> Result<(), NoMemory>
    ensures { OnOk result (out.new ≡ written out.old (default_is map default)) }
{
    let held = applied(map, 0, NodeTerm::At(Symbol::New));
    out.push(&[is(held, SymbolicTerm::Constant(default))])
}

/// What a field holds at a new node.
fn field_default(pointer: bool) -> Symbol
    ensures { result ≡ field_default pointer }
{
    if pointer {
        Symbol::Null
    } else {
        Symbol::Number(0)
    }
}

/// Writes that each field has its default at the new node.
fn push_field_defaults(fields: &[Field], out: &mut Draft) -> Result<(), NoMemory>
    requires { length fields.now < 65536 }
    ensures { OnOk result (out.new ≡ written_all out.old (field_defaults_from 0 fields.now)) }
{
    for (k, field) in fields.iter().enumerate() {
        push_default(
            Map::Field(FieldId(k as u16)),
            field_default(field.pointer),
            out,
        )?;
    }
    Ok(())
}

/// What an auxiliary field holds at a new node.
fn ghost_default(first: u16, count: usize) -> Symbol
    ensures { result ≡ ghost_default first count }
{
    if count == 0 {
        Symbol::Nobody
    } else {
        Symbol::Value(first)
    }
}

/// Writes that each auxiliary field has its default at the new node.
fn push_ghost_defaults(ghosts: &[Ghost], out: &mut Draft) -> Result<(), NoMemory>
    requires fields { length ghosts.now < 65536 }
    requires values { sum_by values_in ghosts.now < 65536 }
    ensures { OnOk result (out.new ≡ written_all out.old (ghost_defaults_from 0 0 ghosts.now)) }
{
    let mut first = 0;
    for (g, held) in ghosts.iter().enumerate() {
        let count = held.values.len();
        push_default(Map::Ghost(g as u16), ghost_default(first, count), out)?;
        first += count as u16;
    }
    Ok(())
}

/// Writes that the new node isn't retired.
fn push_unretired(out: &mut Draft) -> Result<(), NoMemory>
    ensures { OnOk result (out.new ≡ written_all out.old unretired) }
{
    let held = applied(Map::Retired, 0, NodeTerm::At(Symbol::New));
    out.push(&[is_not(held, SymbolicTerm::Constant(Symbol::Yes))])
}

/// Writes that no pointer field of the new node is marked, where marks are used.
fn push_unmarked_fields(marked: bool, fields: &[FieldId], out: &mut Draft) -> Result<(), NoMemory>
    ensures { OnOk result (out.new ≡ written_all out.old (only_if marked (map unmarked_field fields.now))) }
{
    if !marked {
        return Ok(());
    }
    for f in fields {
        push_default(Map::FieldMark(*f), Symbol::No, out)?;
    }
    Ok(())
}

/// Writes what is known of the new node, where one is made.
pub fn push_freshness(file: &File, s: &Setting, out: &mut Draft) -> Result<(), NoMemory>
    requires fields { length file.now.fields < 65536 }
    requires ghosts { length file.now.ghosts < 65536 }
    requires values { sum_by values_in file.now.ghosts < 65536 }
    ensures { OnOk result (out.new ≡ written_all out.old (freshness file.now s.now)) }
{
    if !s.makes {
        return Ok(());
    }
    push_other(SymbolicTerm::Constant(Symbol::Null), out)?;
    push_no_variable(s.pointers.as_slice(), out)?;
    push_no_field(s.nodes.as_slice(), s.fields.as_slice(), out)?;
    push_field_defaults(file.fields.as_slice(), out)?;
    push_ghost_defaults(file.ghosts.as_slice(), out)?;
    push_unretired(out)?;
    push_unmarked_fields(s.marked, s.fields.as_slice(), out)
}
