// Clauses: their quantified names, which differ from all names in reach, and their literals.
ghost use Rattle.std.specs.Prelude.{◌≡◌, ◌+◌, ◌≤◌, ◌<◌, Result, [], IfOk, length, map};
ghost use Rattle.plc_syntax.specs.Views.{placed_as, name_tree, literal_tree, bound_tree};
ghost use Rattle.plc_logic.specs.declared.clause.Literal.{Literal};
ghost use Rattle.plc_scope.specs.declared.fault.ParseFault.{ParseFault};
ghost use Rattle.plc_scope.specs.Answers.{Gives};
ghost use Rattle.plc_scope.specs.Scope.{most_locals};
ghost use Rattle.plc_scope.specs.Limits.{stands_at};
ghost use Rattle.plc_tree.specs.FormViews.{clause_tree};
ghost use Rattle.plc_outparse.specs.Meaning.{counted, literal_step, in_turn, none_bound, bound_with, bound_means};
ghost use Rattle.plc_outparse.specs.Meaning.{clause_means};
ghost use Rattle.plc_outparse.specs.Views.{reach_of};

use crate::reach::{Reach, declared_kind};
use crate::term::literal;
use plc_base::{Items, MOST_BOUND, Names, What1};
use plc_lang::Local;
use plc_logic::{Clause, Literal};
use plc_scope::{ParseFault, Resolved, Scope, add_name};
use plc_syntax::{Bound as BoundForm, Literal as LiteralForm, Name, Placed};
use plc_tree::Clause as ClauseForm;
use std::alloc::Global;

/// A quantified name, which differs from those before and from all names in reach.
#[tactic(auto, unfolding(crate::specs::Meaning::bound_with))]
fn bind(scope: &Scope, locals: &[Local], bound: &mut Names, name: Name) -> Resolved<()>
    requires locals { length locals.now ≤ most_locals }
    requires room { length bound.old.names < bound.old.limit }
    ensures read { Gives (λ _. bound.new) result (bound_with scope.now locals.now bound.old (name_tree name.entry)) }
    ensures more { length bound.old.names + 1 < bound.old.limit
        → IfOk result (λ _. length bound.new.names < bound.new.limit) }
{
    match declared_kind(scope, locals, name.value) {
        Some(_) => Err(ParseFault::Duplicate { at: name.at }),
        None => {
            add_name(bound, name)?;
            Ok(())
        }
    }
}

/// The quantified names of a clause, put where there is none yet.
#[tactic(auto, unfolding(crate::specs::Meaning::bound_means))]
fn bind_all(scope: &Scope, locals: &[Local], bound: &mut Names, form: BoundForm) -> Resolved<()>
    requires locals { length locals.now ≤ most_locals }
    requires none { bound.old ≡ none_bound }
    ensures { Gives (λ _. bound.new) result (bound_means scope.now locals.now (bound_tree form.entry)) }
{
    match form {
        BoundForm::None => Ok(()),
        BoundForm::All(first, second) => {
            bind(scope, locals, bound, first)?;
            match second {
                Some(second) => bind(scope, locals, bound, second),
                None => Ok(()),
            }
        }
    }
}

/// A literal at a place, with so many before it. The limit's place is the literal's first token, so a fault
/// of that token goes before it.
fn counted(count: usize, at: u32, meaning: Resolved<Literal>) -> Resolved<Literal>
    ensures { (said : Result Literal ParseFault) → Gives (λ l. l) meaning said
        → Gives (λ l. l) result (counted count at said) }
{
    match meaning {
        Err(ParseFault::Memory) => Err(ParseFault::Memory),
        Err(fault) if fault.stands_at(at) => Err(fault),
        _ if count == What1::Literals.most() as usize => Err(ParseFault::past(What1::Literals)),
        meaning => meaning,
    }
}

/// A further literal.
#[tactic(auto, unfolding(crate::specs::Meaning::literal_step))]
fn add_literal(
    reach: &Reach,
    literals: &mut Items<Literal>,
    form: Placed<LiteralForm>,
) -> Resolved<()>
    requires { length reach.now.locals.now ≤ most_locals }
    ensures { Gives (λ _. literals.new) result
        (literal_step (reach_of reach.now) literals.old (placed_as literal_tree form.entry)) }
{
    let further = counted(literals.len(), form.at, literal(reach, form.value))?;
    literals.push(further)?;
    Ok(())
}

/// The literals after the first.
fn add_literals(
    reach: &Reach,
    literals: &mut Items<Literal>,
    others: &[Placed<LiteralForm>],
) -> Resolved<()>
    requires { length reach.now.locals.now ≤ most_locals }
    ensures { Gives (λ _. literals.new) result
        (in_turn (literal_step (reach_of reach.now)) literals.old (map (placed_as literal_tree) others.now)) }
{
    for form in others {
        add_literal(reach, literals, *form)?;
    }
    Ok(())
}

/// The quantified names of a clause and its literals, put into a clause that has none yet.
#[tactic(auto, unfolding(crate::specs::Meaning::clause_means))]
fn add_all(
    scope: &Scope,
    locals: &[Local],
    in_operation: bool,
    clause: &mut Clause,
    form: &ClauseForm,
) -> Resolved<()>
    requires locals { length locals.now ≤ most_locals }
    requires bound { clause.old.bound ≡ none_bound }
    requires literals { clause.old.literals ≡ [] }
    ensures { Gives (λ _. clause.new) result
        (clause_means scope.now locals.now in_operation (clause_tree form.now)) }
{
    bind_all(scope, locals, &mut clause.bound, form.bound)?;
    let reach = Reach {
        scope,
        locals,
        in_operation,
        bound: &clause.bound,
    };
    clause.literals.push(literal(&reach, form.first)?)?;
    add_literals(&reach, &mut clause.literals, form.others.as_slice())
}

/// A clause in an operation with these locals or in an invariant.
pub fn clause(
    alloc: Global,
    scope: &Scope,
    locals: &[Local],
    in_operation: bool,
    form: &ClauseForm,
) -> Resolved<Clause>
    requires { length locals.now ≤ most_locals }
    ensures { Gives (λ c. c) result
        (clause_means scope.now locals.now in_operation (clause_tree form.now)) }
{
    let mut clause = Clause {
        bound: Names::new(alloc, MOST_BOUND),
        literals: Items::new(alloc),
    };
    add_all(scope, locals, in_operation, &mut clause, form)?;
    Ok(clause)
}
