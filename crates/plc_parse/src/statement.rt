// Statements that hold no block of statements.
ghost use Rattle.std.specs.Prelude.{ℕ, Bool, List, IfOk, map};
ghost use Rattle.plc_syntax.specs.Views.{placed_as, name_tree, name_or_none, argument_tree, primitive_tree};
ghost use Rattle.plc_scope.specs.Answers.{Gives};
ghost use Rattle.plc_syntax.specs.Trees.{PrimitiveStatement, AtomicStatement, CallStatement};
ghost use Rattle.plc_parse.specs.Growth.{CanLabel, GrowsByLabels};
ghost use Rattle.plc_parse.specs.Meaning.{label_means, during_means};
ghost use Rattle.plc_parse.specs.Views.{MeansStatement};

use crate::step::step_of;
use plc_base::What1;
use plc_lang::Stmt;
use plc_scope::{ParseFault, Resolved, Scope, call, primitive};
use plc_syntax::{Call, Name, Placed, Primitive};
use std::alloc::Global;

/// Declares a label, and answers its number.
#[tactic(auto, using(crate::proofs::Growth::labelled))]
pub fn declare_label(scope: &mut Scope, name: Name) -> Resolved<u16>
    requires { CanLabel scope.old }
    ensures read { Gives (λ label. (label, scope.new)) result (label_means scope.old (name_tree name.entry)) }
    ensures grows { IfOk result (λ _. GrowsByLabels scope.old scope.new) }
{
    let count = scope.labels.len();
    if count == What1::Labels.most() as usize {
        return Err(ParseFault::past(What1::Labels));
    }
    scope.declare_label(name)?;
    Ok(count as u16)
}

/// Declares the label of a call, if it has one.
fn declare_during(scope: &mut Scope, name: Option<Name>) -> Resolved<Option<u16>>
    requires { CanLabel scope.old }
    ensures read { Gives (λ label. (label, scope.new)) result (during_means scope.old (name_or_none name.entry)) }
    ensures grows { IfOk result (λ _. GrowsByLabels scope.old scope.new) }
{
    match name {
        None => Ok(None),
        Some(name) => {
            let label = declare_label(scope, name)?;
            Ok(Some(label))
        }
    }
}

/// An atomic block.
pub fn atomic(alloc: Global, scope: &Scope, forms: &[Placed<Primitive>]) -> Resolved<Stmt>
    requires { CanLabel scope.now }
    ensures { (lines : List ℕ) (in_loop : Bool) (at : ℕ) → MeansStatement lines in_loop at
        (AtomicStatement (map (placed_as primitive_tree) forms.now)) scope.now scope.now result }
{
    let primitives = step_of(alloc, scope, forms)?;
    Ok(Stmt::Atomic(primitives))
}

/// A call.
pub fn call_statement(scope: &mut Scope, form: Call, during: Option<Name>) -> Resolved<Stmt>
    requires { CanLabel scope.old }
    ensures { (lines : List ℕ) (in_loop : Bool) (at : ℕ) → MeansStatement lines in_loop at
        (CallStatement (name_tree form.entry.name) (argument_tree form.entry.argument) (name_or_none during.entry))
        scope.old scope.new result }
{
    let called = call(scope, form)?;
    let label = declare_during(scope, during)?;
    Ok(Stmt::Call {
        func: called.func,
        arg: called.arg,
        active: called.active,
        during: label,
    })
}

/// One primitive.
pub fn primitive_statement(scope: &Scope, form: Primitive) -> Resolved<Stmt>
    requires { CanLabel scope.now }
    ensures { (lines : List ℕ) (in_loop : Bool) (at : ℕ) → MeansStatement lines in_loop at
        (PrimitiveStatement (primitive_tree form.entry)) scope.now scope.now result }
{
    match primitive(scope, form)? {
        Some(primitive) => Ok(Stmt::One(primitive)),
        None => Ok(Stmt::Skip),
    }
}
