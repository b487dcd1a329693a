// What primitives and the assignments of `init` mean.
#![tactic(auto, unfolding(crate::specs::Primitives::primitive_means, crate::specs::Primitives::initial_means))]

ghost use Rattle.std.specs.Prelude.{◌≤◌, length};
ghost use Rattle.plc_syntax.specs.Views.{primitive_tree, initial_tree};
ghost use Rattle.plc_scope.specs.Answers.{Gives};
ghost use Rattle.plc_scope.specs.Primitives.{primitive_means, initial_means};
ghost use Rattle.plc_scope.specs.Scope.{most_locals};

use crate::assignments::assignment;
use crate::conditions::test;
use crate::fault::Resolved;
use crate::refreshes::{ghost_set, refresh};
use crate::scope::Scope;
use plc_lang::Prim;
use plc_syntax::{Initial, Primitive};

/// The primitive of a form, or `None` for `skip`, which is none: `Undeclared` or `WrongSort` at the least
/// token that can't stand there.
pub fn primitive(scope: &Scope, form: Primitive) -> Resolved<Option<Prim>>
    requires { length scope.now.locals ≤ most_locals }
    ensures { Gives (λ k. k) result (primitive_means scope.now (primitive_tree form.entry)) }
{
    match form {
        Primitive::Set(set) => Ok(Some(assignment(scope, set)?)),
        Primitive::Refresh(form) => Ok(Some(refresh(scope, form)?)),
        Primitive::Ghost(set) => Ok(Some(ghost_set(scope, false, set)?)),
        Primitive::Active(name) => {
            let p = scope.pointer_at(name)?;
            Ok(Some(Prim::Active { p }))
        }
        Primitive::Assume(form) => Ok(Some(test(scope, form)?)),
        Primitive::Skip => Ok(None),
    }
}

/// The primitive of an assignment of `init`, with the same faults. No thread acts there.
pub fn initial(scope: &Scope, form: Initial) -> Resolved<Option<Prim>>
    requires { length scope.now.locals ≤ most_locals }
    ensures { Gives (λ k. k) result (initial_means scope.now (initial_tree form.entry)) }
{
    match form {
        Initial::Set(set) => primitive(scope, Primitive::Set(set)),
        Initial::Ghost(set) => Ok(Some(ghost_set(scope, true, set)?)),
    }
}
