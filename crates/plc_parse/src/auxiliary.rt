// Auxiliary fields. One is a thread or one of its values, whose names are declared with it.
ghost use Rattle.std.specs.Prelude.{◌+◌, ◌<◌, ◌≤◌, ◌∷◌, IfOk, map};
ghost use Rattle.plc_base.specs.Limits.{most};
ghost use Rattle.plc_syntax.specs.Views.{name_tree};
ghost use Rattle.plc_scope.specs.Answers.{Gives, HasRoom};
ghost use Rattle.plc_parse.specs.Growth.{AddsNames};
ghost use Rattle.plc_parse.specs.Kinds.{auxiliary_fields};
ghost use Rattle.plc_parse.specs.Meaning.{value_means, listed};

use crate::declaration::declare;
use crate::lists::Listed;
use plc_base::{Items, What1};
use plc_lang::Ghost;
use plc_scope::{Binding, ParseFault, Resolved, Scope};
use plc_syntax::Name;
use plc_tree::{Auxiliary, AuxiliaryKind};
use std::alloc::Global;

/// One value of an auxiliary field, with so many before it; the number of its name.
fn declare_value(scope: &mut Scope, owner: usize, count: usize, name: Name) -> Resolved<u16>
    requires owner { owner < most What1.Ghosts }
    requires limit { count ≤ most What1.Values }
    requires room { HasRoom scope.old 1 }
    ensures limit { IfOk result (λ _. count < most What1.Values) }
    ensures read { Gives (λ number. (number, scope.new)) result
        (value_means owner scope.old count (name_tree name.entry)) }
    ensures declares { IfOk result (λ _. AddsNames scope.old scope.new 1) }
{
    let number = declare(scope, name, Binding::Value(owner as u16, count as u16))?;
    if count == What1::Values.most() as usize {
        return Err(ParseFault::past(What1::Values));
    }
    Ok(number)
}

/// The values of an auxiliary field in order, by the numbers of their names.
fn declare_values(
    alloc: Global,
    scope: &mut Scope,
    owner: usize,
    first: Name,
    others: &[Name],
) -> Resolved<Items<u16>>
    requires owner { owner < most What1.Ghosts }
    requires room { HasRoom scope.old (most What1.Values + 1) }
    ensures read { Gives (λ values. (values, scope.new)) result
        (listed (value_means owner) scope.old 0 (name_tree first.entry ∷ map name_tree others.now)) }
    ensures declares { IfOk result (λ _. AddsNames scope.old scope.new (most What1.Values)) }
{
    let number = declare_value(scope, owner, 0, first)?;
    let mut values = Items::new(alloc);
    values.push(number)?;
    for name in others {
        let number = declare_value(scope, owner, values.len(), *name)?;
        values.push(number)?;
    }
    Ok(values)
}

impl<'a> Listed for Auxiliary<'a> {
    type Item = Ghost;

    ghost kind = { auxiliary_fields };

    fn declare(&self, alloc: Global, scope: &mut Scope, count: usize) -> Resolved<Ghost> {
        if count == What1::Ghosts.most() as usize {
            return Err(ParseFault::past(What1::Ghosts));
        }
        match &self.kind {
            AuxiliaryKind::OfThreads => {
                let name = declare(scope, self.name, Binding::Auxiliary(count as u16, true))?;
                let values = Items::new(alloc);
                Ok(Ghost { name, values })
            }
            AuxiliaryKind::OneOf(first, others) => {
                let name = declare(scope, self.name, Binding::Auxiliary(count as u16, false))?;
                let values = declare_values(alloc, scope, count, *first, others.as_slice())?;
                Ok(Ghost { name, values })
            }
        }
    }
}
