// Premises: the invariants and the clauses of the points at which the threads stand before, each at all nodes
// that its names may stand for.
ghost use Rattle.std.specs.Prelude.{◌≡◌, ◌<◌, ◌++◌, ◌∷◌, [], length, map, flat_map, All, OnOk};
ghost use Rattle.std.specs.List.{sum_by};
ghost use Rattle.plc_lang.specs.Numbering.{values_in};
ghost use Rattle.plc_symbolic.specs.Numbering.{written, written_all};
ghost use Rattle.plc_vocabulary.specs.Parts.{clauses_of};
ghost use Rattle.plc_vocabulary.specs.Points.{is_labelled};
ghost use Rattle.plc_encoding.specs.Bounds.{ValuesIn, ClauseIn, ItemIn, ReadsBefore, clauses_in};
ghost use Rattle.plc_encoding.specs.Items.{read_literal, escapes, instance_at, instances};

use crate::execution::Execution;
use crate::reading::{Reading, read_literal};
use plc_base::{Items, NoMemory, PointId};
use plc_flow::Flow;
use plc_ground::Symbol;
use plc_lang::Ghost;
use plc_logic::{Clause, Item, Literal, Outline};
use plc_symbolic::{Draft, NodeTerm, SymbolicLit, SymbolicTerm, is, term_of};
use plc_vocabulary::{Setting, is_labelled, stands_at};
use std::alloc::Global;

/// Lists the cases in which an instance says nothing of a node: it is null, or isn't there yet.
fn push_escape(makes: bool, node: NodeTerm, lits: &mut Items<SymbolicLit>) -> Result<(), NoMemory>
    ensures { OnOk result (lits.new ≡ lits.old ++ escapes makes node) }
{
    let term = term_of(node);
    lits.push(is(term, SymbolicTerm::Constant(Symbol::Null)))?;
    if makes {
        lits.push(is(term, SymbolicTerm::Constant(Symbol::New)))?;
    }
    Ok(())
}

/// Lists the cases in which an instance at these nodes says nothing.
fn push_escapes(
    makes: bool,
    names: &[NodeTerm],
    lits: &mut Items<SymbolicLit>,
) -> Result<(), NoMemory>
    ensures { OnOk result (lits.new ≡ lits.old ++ flat_map (escapes makes) names.now) }
{
    for node in names {
        push_escape(makes, *node, lits)?;
    }
    Ok(())
}

/// Lists the literals of a clause, as they read at its nodes.
fn push_read(
    r: &Reading,
    literals: &[Literal],
    lits: &mut Items<SymbolicLit>,
) -> Result<(), NoMemory>
    requires versions { length r.now.execution.now.written < 65536 }
    requires few { sum_by values_in r.now.ghosts.now < 65536 }
    requires values { All (ValuesIn r.now.ghosts.now) literals.now }
    ensures { OnOk result (lits.new ≡ lits.old
        ++ map (read_literal r.now.ghosts.now r.now.execution.now r.now.owner r.now.names.now) literals.now) }
{
    for literal in literals {
        lits.push(read_literal(r, literal))?;
    }
    Ok(())
}

/// What premises are read with: the fields, nothing executed, the setting, and for whom.
#[derive(Clone, Copy)]
pub struct Premises<'a> {
    pub alloc: Global,
    pub ghosts: &'a [Ghost],
    pub before: &'a Execution,
    pub setting: &'a Setting,
    /// For the owner of the clauses, and not for the acting thread.
    pub owner: bool,
}

/// Writes the clause at a node for each of its names.
fn push_instance(
    w: &Premises,
    literals: &[Literal],
    names: &[NodeTerm],
    out: &mut Draft,
) -> Result<(), NoMemory>
    requires reads { ReadsBefore w.now.ghosts.now w.now.before.now }
    requires values { All (ValuesIn w.now.ghosts.now) literals.now }
    ensures { OnOk result (out.new ≡ written out.old
        (instance_at w.now.ghosts.now w.now.setting.now.makes w.now.owner literals.now names.now)) }
{
    let mut lits = Items::new(w.alloc);
    push_escapes(w.setting.makes, names, &mut lits)?;
    let r = Reading {
        ghosts: w.ghosts,
        execution: w.before,
        owner: w.owner,
        names,
    };
    push_read(&r, literals, &mut lits)?;
    out.push(lits.as_slice())
}

/// Writes the instances of a clause under one name, one at each node.
fn push_singles(w: &Premises, literals: &[Literal], out: &mut Draft) -> Result<(), NoMemory>
    requires reads { ReadsBefore w.now.ghosts.now w.now.before.now }
    requires values { All (ValuesIn w.now.ghosts.now) literals.now }
    ensures { OnOk result (out.new ≡ written_all out.old
        (map (λ a. instance_at w.now.ghosts.now w.now.setting.now.makes w.now.owner literals.now (a ∷ []))
        w.now.setting.now.instances)) }
{
    for node in w.setting.instances.as_slice() {
        push_instance(w, literals, &[*node], out)?;
    }
    Ok(())
}

/// Writes the instances of a clause under two names whose first is this node, one at each node for the second.
fn push_pairs_of(
    w: &Premises,
    literals: &[Literal],
    first: NodeTerm,
    out: &mut Draft,
) -> Result<(), NoMemory>
    requires reads { ReadsBefore w.now.ghosts.now w.now.before.now }
    requires values { All (ValuesIn w.now.ghosts.now) literals.now }
    ensures { OnOk result (out.new ≡ written_all out.old
        (map (λ b. instance_at w.now.ghosts.now w.now.setting.now.makes w.now.owner literals.now (first ∷ b ∷ []))
        w.now.setting.now.instances)) }
{
    for second in w.setting.instances.as_slice() {
        push_instance(w, literals, &[first, *second], out)?;
    }
    Ok(())
}

/// Writes the instances of a clause under two names.
fn push_pairs(w: &Premises, literals: &[Literal], out: &mut Draft) -> Result<(), NoMemory>
    requires reads { ReadsBefore w.now.ghosts.now w.now.before.now }
    requires values { All (ValuesIn w.now.ghosts.now) literals.now }
    ensures { OnOk result (out.new ≡ written_all out.old
        (flat_map
        (λ a. map (λ b. instance_at w.now.ghosts.now w.now.setting.now.makes w.now.owner literals.now (a ∷ b ∷ []))
        w.now.setting.now.instances)
        w.now.setting.now.instances)) }
{
    for first in w.setting.instances.as_slice() {
        push_pairs_of(w, literals, *first, out)?;
    }
    Ok(())
}

/// Writes the instances of a clause, at each node for each name.
fn push_instances(w: &Premises, clause: &Clause, out: &mut Draft) -> Result<(), NoMemory>
    requires reads { ReadsBefore w.now.ghosts.now w.now.before.now }
    requires clause { ClauseIn w.now.ghosts.now clause.now }
    ensures { OnOk result (out.new
        ≡ written_all out.old (instances w.now.ghosts.now w.now.setting.now w.now.owner clause.now)) }
{
    let literals = clause.literals.as_slice();
    match clause.bound.len() {
        0 => push_instance(w, literals, &[], out),
        1 => push_singles(w, literals, out),
        _ => push_pairs(w, literals, out),
    }
}

/// Writes the instances of these clauses.
pub fn push_invariants(w: &Premises, clauses: &[Clause], out: &mut Draft) -> Result<(), NoMemory>
    requires reads { ReadsBefore w.now.ghosts.now w.now.before.now }
    requires clauses { All (ClauseIn w.now.ghosts.now) clauses.now }
    ensures { OnOk result (out.new
        ≡ written_all out.old (flat_map (instances w.now.ghosts.now w.now.setting.now w.now.owner) clauses.now)) }
{
    for clause in clauses {
        push_instances(w, clause, out)?;
    }
    Ok(())
}

/// Writes the instances of an item's clause, if it stands at the point.
fn push_item(
    w: &Premises,
    flow: &Flow,
    point: u16,
    labelled: bool,
    item: &Item,
    out: &mut Draft,
) -> Result<(), NoMemory>
    requires labelled { labelled ≡ is_labelled flow.now point }
    requires reads { ReadsBefore w.now.ghosts.now w.now.before.now }
    requires clause { ClauseIn w.now.ghosts.now item.now.clause }
    ensures { OnOk result (out.new ≡ written_all out.old
        (flat_map (instances w.now.ghosts.now w.now.setting.now w.now.owner)
        (clauses_in flow.now point (item.now ∷ [])))) }
{
    if stands_at(flow, point, labelled, item) {
        return push_instances(w, &item.clause, out);
    }
    Ok(())
}

/// Writes the instances of the clauses that stand at the point.
fn push_items_at(
    w: &Premises,
    flow: &Flow,
    point: u16,
    items: &[Item],
    out: &mut Draft,
) -> Result<(), NoMemory>
    requires reads { ReadsBefore w.now.ghosts.now w.now.before.now }
    requires clauses { All (ItemIn w.now.ghosts.now) items.now }
    ensures { OnOk result (out.new ≡ written_all out.old
        (flat_map (instances w.now.ghosts.now w.now.setting.now w.now.owner) (clauses_in flow.now point items.now))) }
{
    let labelled = is_labelled(flow, point);
    for item in items {
        push_item(w, flow, point, labelled, item, out)?;
    }
    Ok(())
}

/// Writes the instances of the clauses at a point, if there is one.
pub fn push_point(
    w: &Premises,
    flow: &Flow,
    outline: &Outline,
    point: Option<PointId>,
    out: &mut Draft,
) -> Result<(), NoMemory>
    requires reads { ReadsBefore w.now.ghosts.now w.now.before.now }
    requires clauses { All (ItemIn w.now.ghosts.now) outline.now.items }
    ensures { OnOk result (out.new ≡ written_all out.old
        (flat_map (instances w.now.ghosts.now w.now.setting.now w.now.owner) (clauses_of flow.now outline.now point))) }
{
    match point {
        None => Ok(()),
        Some(point) => push_items_at(w, flow, point.0, outline.items.as_slice(), out),
    }
}
