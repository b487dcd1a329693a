// Where items put their clauses: over an operation, or at labels that stand in one operation. No local
// is in reach where these are named.
ghost use Rattle.std.specs.Prelude.{◌≡◌, ◌≤◌, Some, length, map};
ghost use Rattle.plc_base.specs.Limits.{most};
ghost use Rattle.plc_base.specs.declared.limits.What1.TheVariants as limits;
ghost use Rattle.plc_base.specs.Names.{place_of};
ghost use Rattle.plc_syntax.specs.Views.{name_tree};
ghost use Rattle.plc_scope.specs.Answers.{Gives};
ghost use Rattle.plc_outparse.specs.Context.{HasFewLabels, IsWithinLimits};
ghost use Rattle.plc_outparse.specs.Meaning.{op_named, op_at, label_named, label_at, label_step, in_turn, labels_mean};

use crate::context::Context;
use crate::reach::known;
use plc_base::Items;
use plc_lang::{Op, op_of_label};
use plc_scope::{ParseFault, Resolved, Scope};
use plc_syntax::Name;
use std::alloc::Global;

/// The operation with this name.
fn op_named(scope: &Scope, ops: &[Op], name: &[u8]) -> Option<u16>
    requires { length ops.now ≤ most limits.Ops }
    ensures { result ≡ op_named ops.now (place_of name.now scope.now.names.names) }
{
    let number = scope.names.find(name)?;
    for (i, op) in ops.iter().enumerate() {
        if op.name == number {
            return Some(i as u16);
        }
    }
    None
}

/// The operation that a name is; `Undeclared`, or `WrongSort` for another thing.
#[tactic(auto, unfolding(crate::specs::Meaning::op_at))]
pub fn op_at(context: &Context, name: Name) -> Resolved<u16>
    requires { IsWithinLimits context.now }
    ensures { Gives (λ op. op) result (op_at context.now.scope.now context.now.ops.now (name_tree name.entry)) }
{
    // A name without a declaration is a fault before one of another thing.
    let _kind = known(context.scope, &[], name)?;
    op_named(context.scope, context.ops, name.value).ok_or(ParseFault::WrongSort { at: name.at })
}

/// The label with this name.
fn label_named(scope: &Scope, name: &[u8]) -> Option<u16>
    requires { HasFewLabels scope.now }
    ensures { result ≡ label_named scope.now.labels (place_of name.now scope.now.names.names) }
{
    let number = scope.names.find(name)?;
    for (i, label) in scope.labels.as_slice().iter().enumerate() {
        if *label == number {
            return Some(i as u16);
        }
    }
    None
}

/// The label that a name is, and its operation. `Undeclared` and `WrongSort` where it is none.
#[tactic(auto, unfolding(crate::specs::Meaning::label_at))]
fn label_at(context: &Context, name: Name) -> Resolved<(u16, usize)>
    requires { IsWithinLimits context.now }
    ensures { Gives (λ r. (r.0, r.1)) result
        (label_at context.now.scope.now context.now.by_op.now (name_tree name.entry)) }
{
    // A name without a declaration is a fault before one of another thing.
    let _kind = known(context.scope, &[], name)?;
    let label = label_named(context.scope, name.value);
    let label = label.ok_or(ParseFault::WrongSort { at: name.at })?;
    let op = op_of_label(context.by_op, label).ok_or(ParseFault::WrongSort { at: name.at })?;
    Ok((label, op))
}

/// A further label. `WrongSort` where it stands in another operation.
#[tactic(auto, unfolding(crate::specs::Meaning::label_step))]
fn add_label(context: &Context, op: usize, labels: &mut Items<u16>, name: Name) -> Resolved<()>
    requires { IsWithinLimits context.now }
    ensures { Gives (λ _. labels.new) result
        (label_step context.now.scope.now context.now.by_op.now op labels.old (name_tree name.entry)) }
{
    let (label, found) = label_at(context, name)?;
    if found != op {
        return Err(ParseFault::WrongSort { at: name.at });
    }
    labels.push(label)?;
    Ok(())
}

/// The labels after the first.
fn add_labels(context: &Context, op: usize, labels: &mut Items<u16>, names: &[Name]) -> Resolved<()>
    requires { IsWithinLimits context.now }
    ensures { Gives (λ _. labels.new) result
        (in_turn (label_step context.now.scope.now context.now.by_op.now op) labels.old (map name_tree names.now)) }
{
    for name in names {
        add_label(context, op, labels, *name)?;
    }
    Ok(())
}

/// Labels, with the operation in which all of them stand.
#[tactic(auto, unfolding(crate::specs::Meaning::labels_mean))]
pub fn labels(
    alloc: Global,
    context: &Context,
    name: Name,
    others: &[Name],
) -> Resolved<(Items<u16>, usize)>
    requires { IsWithinLimits context.now }
    ensures { Gives (λ r. (r.0, r.1)) result (labels_mean context.now.scope.now context.now.by_op.now
        (name_tree name.entry) (map name_tree others.now)) }
{
    let (first, op) = label_at(context, name)?;
    let mut labels = Items::new(alloc);
    labels.push(first)?;
    add_labels(context, op, &mut labels, others)?;
    Ok((labels, op))
}
