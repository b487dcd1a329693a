// What tests and the conditions of `if` mean: the left side is judged before the relation, and both
// before the right side.
#![tactic(auto, unfolding(crate::specs::Primitives::test_means, crate::specs::Primitives::condition_means))]

ghost use Rattle.std.specs.Prelude.{◌≤◌, length, ◌≡◌};
ghost use Rattle.plc_syntax.specs.Views.{name_tree, name_or_none, atom_tree, relation_tree, test_tree, condition_tree};
ghost use Rattle.plc_scope.specs.Answers.{Gives};
ghost use Rattle.plc_scope.specs.Primitives.{pointer_test, relation, test_means, pointer_or_null, cas_means};
ghost use Rattle.plc_scope.specs.Primitives.{condition_means};
ghost use Rattle.plc_scope.specs.Scope.{most_locals};

use crate::binding::Role;
use crate::fault::{ParseFault, Resolved};
use crate::numbers::number;
use crate::refreshes::refresh_into;
use crate::scope::Scope;
use plc_lang::{Cond, Prim, Rel, Var};
use plc_syntax::{Atom, Cas, Condition, Name, Placed, Relation, Test};

/// A test of pointers, which have no order.
fn pointer_test(scope: &Scope, p: Var, relation: Placed<Relation>, atom: Atom) -> Resolved<Prim>
    requires { length scope.now.locals ≤ most_locals }
    ensures { Gives (λ k. k) result (pointer_test scope.now p relation.at (relation_tree relation.value)
        (atom_tree atom.entry)) }
{
    match (relation.value, atom) {
        (Relation::Less | Relation::NotLess, _) => Err(ParseFault::WrongSort { at: relation.at }),
        (_, Atom::Number(n)) => Err(ParseFault::WrongSort { at: n.at }),
        (Relation::Same, Atom::Null(_)) => Ok(Prim::IsNull { p }),
        (Relation::Other, Atom::Null(_)) => Ok(Prim::NotNull { p }),
        (Relation::Same, Atom::Name(name)) => scope.pointer_at(name).map(|q| Prim::Eq { p, q }),
        (Relation::Other, Atom::Name(name)) => scope.pointer_at(name).map(|q| Prim::Ne { p, q }),
    }
}

/// The relation of data values that is written.
fn data_relation(form: Relation) -> Rel
    ensures { result ≡ relation (relation_tree form) }
{
    match form {
        Relation::Same => Rel::Eq,
        Relation::Other => Rel::Ne,
        Relation::Less => Rel::Lt,
        Relation::NotLess => Rel::Ge,
    }
}

/// The primitive of a test: `Undeclared` or `WrongSort` at the least token that can't stand there.
pub fn test(scope: &Scope, test: Test) -> Resolved<Prim>
    requires { length scope.now.locals ≤ most_locals }
    ensures { Gives (λ k. k) result (test_means scope.now (test_tree test.entry)) }
{
    match test {
        Test::Marked(name) => scope
            .pointer_at(name)
            .map(|p| Prim::MarkTest { p, yes: true }),
        Test::Unmarked(name) => scope
            .pointer_at(name)
            .map(|p| Prim::MarkTest { p, yes: false }),
        Test::Compares {
            name,
            relation,
            atom,
        } => match scope.role(name)? {
            Role::PointerVariable(p) => pointer_test(scope, p, relation, atom),
            Role::DataLocal(x) => {
                let rel = data_relation(relation.value);
                number(scope, atom).map(|e| Prim::DataTest { rel, x, e })
            }
            _ => Err(ParseFault::WrongSort { at: name.at }),
        },
    }
}

/// A pointer variable, or none for null.
fn pointer_or_null(scope: &Scope, name: Option<Name>) -> Resolved<Option<Var>>
    requires { length scope.now.locals ≤ most_locals }
    ensures { Gives (λ v. v) result (pointer_or_null scope.now (name_or_none name.entry)) }
{
    match name {
        None => Ok(None),
        Some(name) => scope.pointer_at(name).map(|p| Some(p)),
    }
}

/// The three pointers of a cas.
fn cas(scope: &Scope, cas: Cas) -> Resolved<Cond>
    requires { length scope.now.locals ≤ most_locals }
    ensures { Gives (λ c. c) result
        (cas_means scope.now cas.entry.is_active (name_tree cas.entry.name) (name_or_none cas.entry.old)
        (name_or_none cas.entry.new)) }
{
    let active = cas.is_active;
    let p = scope.pointer_at(cas.name)?;
    let old = pointer_or_null(scope, cas.old)?;
    let new = pointer_or_null(scope, cas.new)?;
    Ok(Cond::Cas {
        active,
        p,
        old,
        new,
    })
}

/// The condition of an `if`: `Undeclared` or `WrongSort` at the least token that can't stand there.
pub fn condition(scope: &Scope, condition: Condition) -> Resolved<Cond>
    requires { length scope.now.locals ≤ most_locals }
    ensures { Gives (λ c. c) result (condition_means scope.now (condition_tree condition.entry)) }
{
    match condition {
        Condition::Test(form) => Ok(Cond::Test(test(scope, form)?)),
        Condition::Refresh(name, place) => Ok(Cond::Refresh(refresh_into(scope, name, place)?)),
        Condition::Cas(form) => cas(scope, form),
    }
}
