// What is known of marks, where the program uses them: each is set, or isn't.
ghost use Rattle.std.specs.Prelude.{◌≡◌, map, flat_map, OnOk};
ghost use Rattle.plc_symbolic.specs.declared.symbolic.SymbolicTerm.TheVariants.{Constant};
ghost use Rattle.plc_symbolic.specs.Numbering.{written, written_all};
ghost use Rattle.plc_encoding.specs.Items.{set_or_not, field_marks, mark_values};

use plc_base::{FieldId, NoMemory};
use plc_ground::{Map, Symbol};
use plc_symbolic::{Draft, NodeTerm, SymbolicTerm, applied, is};
use plc_vocabulary::Setting;

/// Writes that a mark is set, or isn't.
fn push_set_or_not(mark: SymbolicTerm, out: &mut Draft) -> Result<(), NoMemory>
    ensures { OnOk result (out.new ≡ written out.old (set_or_not mark)) }
{
    let set = SymbolicTerm::Constant(Symbol::Yes);
    let unset = SymbolicTerm::Constant(Symbol::No);
    out.push(&[is(mark, set), is(mark, unset)])
}

/// Writes that each of these marks is set, or isn't.
fn push_pointer_marks(marks: &[Symbol], out: &mut Draft) -> Result<(), NoMemory>
    ensures { OnOk result (out.new
        ≡ written_all out.old (map (λ m. set_or_not (Constant m)) marks.now)) }
{
    for mark in marks {
        push_set_or_not(SymbolicTerm::Constant(*mark), out)?;
    }
    Ok(())
}

/// Writes that the mark in a field of each node is set, or isn't.
fn push_field_marks(nodes: &[NodeTerm], f: FieldId, out: &mut Draft) -> Result<(), NoMemory>
    ensures { OnOk result (out.new ≡ written_all out.old (field_marks nodes.now f)) }
{
    for node in nodes {
        push_set_or_not(applied(Map::FieldMark(f), 0, *node), out)?;
    }
    Ok(())
}

/// Writes that the mark in each pointer field of each node is set, or isn't.
fn push_marks_of_fields(
    nodes: &[NodeTerm],
    fields: &[FieldId],
    out: &mut Draft,
) -> Result<(), NoMemory>
    ensures { OnOk result (out.new ≡ written_all out.old (flat_map (field_marks nodes.now) fields.now)) }
{
    for f in fields {
        push_field_marks(nodes, *f, out)?;
    }
    Ok(())
}

/// Writes that each mark before the step is set, or isn't.
pub fn push_mark_values(s: &Setting, out: &mut Draft) -> Result<(), NoMemory>
    ensures { OnOk result (out.new ≡ written_all out.old (mark_values s.now)) }
{
    if !s.marked {
        return Ok(());
    }
    push_pointer_marks(s.marks.as_slice(), out)?;
    push_marks_of_fields(s.nodes.as_slice(), s.fields.as_slice(), out)
}
