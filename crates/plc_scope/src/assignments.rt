// What an assignment means. The left side is judged before the right one, and each name where it
// stands, so that the first fault is the one at the least token; `null`, `new`, `mark`, `unmark` and
// numbers are judged by the left side, and told at themselves.
#![tactic(auto, unfolding(crate::specs::Primitives::set_means))]

ghost use Rattle.std.specs.Prelude.{◌≤◌, length};
ghost use Rattle.plc_syntax.specs.Views.{name_tree, value_tree, atom_tree, set_tree};
ghost use Rattle.plc_scope.specs.Answers.{Gives};
ghost use Rattle.plc_scope.specs.Primitives.{pointer_value, data_value, value_into, pointer_atom, atom_into};
ghost use Rattle.plc_scope.specs.Primitives.{set_means};
ghost use Rattle.plc_scope.specs.Scope.{most_locals};

use crate::binding::Role;
use crate::fault::{ParseFault, Resolved};
use crate::numbers::number;
use crate::scope::Scope;
use plc_base::FieldId;
use plc_lang::{Num, Prim, Var};
use plc_syntax::{Atom, Name, Set, Value};

/// What is put into a pointer variable.
fn pointer_value(scope: &Scope, p: Var, value: Value) -> Resolved<Prim>
    requires { length scope.now.locals ≤ most_locals }
    ensures { Gives (λ k. k) result (pointer_value scope.now p (value_tree value.entry)) }
{
    match value {
        Value::Null(_) => Ok(Prim::Null { p }),
        Value::New(_) => Ok(Prim::New { p }),
        Value::Number(n) => Err(ParseFault::WrongSort { at: n.at }),
        Value::Mark(_, name) => scope.pointer_at(name).map(|q| Prim::Mark { p, q }),
        Value::Unmark(_, name) => scope.pointer_at(name).map(|q| Prim::Unmark { p, q }),
        Value::Place(place) => {
            let q = scope.pointer_at(place.name)?;
            match place.field {
                None => Ok(Prim::Copy { p, q }),
                Some(field) => {
                    let f = scope.pointer_field_at(field)?;
                    Ok(Prim::Load { p, q, f })
                }
            }
        }
    }
}

/// What is put into a data local.
fn data_value(scope: &Scope, x: u16, value: Value) -> Resolved<Prim>
    requires { length scope.now.locals ≤ most_locals }
    ensures { Gives (λ k. k) result (data_value scope.now x (value_tree value.entry)) }
{
    match value {
        Value::Null(at) | Value::New(at) | Value::Mark(at, _) | Value::Unmark(at, _) => {
            Err(ParseFault::WrongSort { at })
        }
        Value::Number(n) => {
            let e = Num::Lit(n.value);
            Ok(Prim::DataSet { x, e })
        }
        Value::Place(place) => match place.field {
            None => {
                let e = Num::Local(scope.data_at(place.name)?);
                Ok(Prim::DataSet { x, e })
            }
            Some(field) => {
                let q = scope.pointer_at(place.name)?;
                let f = scope.data_field_at(field)?;
                Ok(Prim::DataLoad { x, q, f })
            }
        },
    }
}

/// What is put into the variable on the left, by what its name is.
fn value_into(scope: &Scope, value: Value, left: Name, role: Role) -> Resolved<Prim>
    requires { length scope.now.locals ≤ most_locals }
    ensures { Gives (λ k. k) result (value_into scope.now (value_tree value.entry) (name_tree left.entry) role) }
{
    match role {
        Role::PointerVariable(p) => pointer_value(scope, p, value),
        Role::DataLocal(x) => data_value(scope, x, value),
        _ => Err(ParseFault::WrongSort { at: left.at }),
    }
}

/// What is put into a pointer field.
fn pointer_atom(scope: &Scope, p: Var, f: FieldId, atom: Atom) -> Resolved<Prim>
    requires { length scope.now.locals ≤ most_locals }
    ensures { Gives (λ k. k) result (pointer_atom scope.now p f (atom_tree atom.entry)) }
{
    match atom {
        Atom::Null(_) => Ok(Prim::StoreNull { p, f }),
        Atom::Number(n) => Err(ParseFault::WrongSort { at: n.at }),
        Atom::Name(name) => scope.pointer_at(name).map(|q| Prim::Store { p, f, q }),
    }
}

/// What is put into the field, by what its name is.
fn atom_into(scope: &Scope, p: Var, atom: Atom, field: Name, role: Role) -> Resolved<Prim>
    requires { length scope.now.locals ≤ most_locals }
    ensures { Gives (λ k. k) result (atom_into scope.now p (atom_tree atom.entry) (name_tree field.entry) role) }
{
    match role {
        Role::PointerField(f) => pointer_atom(scope, p, f, atom),
        Role::DataField(f) => number(scope, atom).map(|e| Prim::DataStore { p, f, e }),
        _ => Err(ParseFault::WrongSort { at: field.at }),
    }
}

/// The primitive of an assignment: `Undeclared` or `WrongSort` at the least token that can't stand there.
pub fn assignment(scope: &Scope, set: Set) -> Resolved<Prim>
    requires { length scope.now.locals ≤ most_locals }
    ensures { Gives (λ k. k) result (set_means scope.now (set_tree set.entry)) }
{
    match set {
        Set::Name(name, value) => {
            let role = scope.role(name)?;
            value_into(scope, value, name, role)
        }
        Set::Field(name, field, atom) => {
            let p = scope.pointer_at(name)?;
            let role = scope.role(field)?;
            atom_into(scope, p, atom, field, role)
        }
    }
}
