// The items of an outline, each with those before it. The limit's place is the first token of the item
// past it.
ghost use Rattle.std.specs.Prelude.{ℕ, List, true, map};
ghost use Rattle.plc_lang.specs.Locals.{locals_of};
ghost use Rattle.plc_lang.specs.declared.syntax.Op.{Op};
ghost use Rattle.plc_scope.specs.Answers.{Gives};
ghost use Rattle.plc_syntax.specs.Trees.{InvariantItem};
ghost use Rattle.plc_tree.specs.FormViews.{clause_tree, item_tree};
ghost use Rattle.plc_outparse.specs.Context.{IsWithinLimits};
ghost use Rattle.plc_outparse.specs.Meaning.{clause_means, item_step, in_turn};
ghost use Rattle.plc_outparse.specs.Views.{parts_of};

use crate::clause::clause;
use crate::context::Context;
use crate::site::{labels, op_at};
use plc_base::{Items, OpId, What1};
use plc_lang::locals_of;
use plc_logic::{Clause, Item, Site};
use plc_scope::{ParseFault, Resolved, Scope};
use plc_tree::{Clause as ClauseForm, Item as ItemForm};
use std::alloc::Global;

/// The invariants and the other items so far.
#[derive(Drop)]
pub struct Parts {
    pub invariants: Items<Clause>,
    pub items: Items<Item>,
}

/// An invariant.
#[tactic(auto, unfolding(crate::specs::Meaning::item_step))]
fn add_invariant(alloc: Global, scope: &Scope, parts: &mut Parts, form: &ClauseForm) -> Resolved<()>
    ensures { (ops : List Op) (by_op : List (List ℕ)) → Gives (λ _. parts_of parts.new) result
        (item_step scope.now ops by_op (parts_of parts.old) (InvariantItem (clause_tree form.now))) }
{
    if parts.invariants.len() == What1::Invariants.most() as usize {
        return Err(ParseFault::past(What1::Invariants));
    }
    let clause = clause(alloc, scope, &[], false, form)?;
    parts.invariants.push(clause)?;
    Ok(())
}

/// The clause of an item whose site stands in the operation.
fn clause_in(alloc: Global, context: &Context, op: usize, form: &ClauseForm) -> Resolved<Clause>
    requires { IsWithinLimits context.now }
    ensures { Gives (λ c. c) result
        (clause_means context.now.scope.now (locals_of context.now.ops.now op) true (clause_tree form.now)) }
{
    clause(alloc, context.scope, locals_of(context.ops, op), true, form)
}

/// An item.
#[tactic(auto, unfolding(crate::specs::Meaning::item_step))]
fn add_item(alloc: Global, context: &Context, parts: &mut Parts, form: &ItemForm) -> Resolved<()>
    requires { IsWithinLimits context.now }
    ensures { Gives (λ _. parts_of parts.new) result
        (item_step context.now.scope.now context.now.ops.now context.now.by_op.now (parts_of parts.old)
        (item_tree form.now)) }
{
    let is_full = parts.items.len() == What1::Items.most() as usize;
    match form {
        ItemForm::Invariant(clause) => add_invariant(alloc, context.scope, parts, clause),
        ItemForm::Over(name, clause) => {
            if is_full {
                return Err(ParseFault::past(What1::Items));
            }
            let op = op_at(context, *name)?;
            let clause = clause_in(alloc, context, op as usize, clause)?;
            let site = Site::Over(OpId(op));
            parts.items.push(Item { site, clause })?;
            Ok(())
        }
        ItemForm::At(name, others, clause) => {
            if is_full {
                return Err(ParseFault::past(What1::Items));
            }
            let (labels, op) = labels(alloc, context, *name, others.as_slice())?;
            let clause = clause_in(alloc, context, op, clause)?;
            let site = Site::At(labels);
            parts.items.push(Item { site, clause })?;
            Ok(())
        }
    }
}

/// Items in order, added to those before.
pub fn add_items(
    alloc: Global,
    context: &Context,
    parts: &mut Parts,
    items: &[ItemForm],
) -> Resolved<()>
    requires { IsWithinLimits context.now }
    ensures { Gives (λ _. parts_of parts.new) result
        (in_turn (item_step context.now.scope.now context.now.ops.now context.now.by_op.now)
        (parts_of parts.old) (map item_tree items.now)) }
{
    for item in items {
        add_item(alloc, context, parts, item)?;
    }
    Ok(())
}
