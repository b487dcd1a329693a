// What calls of reclaimer functions mean: the function's name is judged first, with the number of its
// arguments, and then the argument.
ghost use Rattle.std.specs.Prelude.{◌≤◌, length};
ghost use Rattle.plc_syntax.specs.Views.{name_tree, argument_tree};
ghost use Rattle.plc_scope.specs.Answers.{Gives};
ghost use Rattle.plc_scope.specs.Primitives.{call_means};
ghost use Rattle.plc_scope.specs.Scope.{most_locals};
ghost use Rattle.plc_scope.specs.Views.{call_meaning};

use crate::fault::{ParseFault, Resolved};
use crate::scope::Scope;
use plc_base::FuncId;
use plc_lang::Arg;
use plc_syntax::{Argument, Call};

/// A call of a reclaimer function: the function, its argument, and whether the argument is claimed to
/// be active.
#[derive(Clone, Copy)]
pub struct Called {
    pub func: FuncId,
    pub arg: Arg,
    pub active: bool,
}

/// What a call means. `Undeclared` or `WrongSort` at a name that can't stand there;
/// `NoSuchCall` at the function's name for an argument too many or too few, and for `retire` of null.
#[tactic(auto, unfolding(crate::specs::Primitives::call_means))]
pub fn call(scope: &Scope, form: Call) -> Resolved<Called>
    requires { length scope.now.locals ≤ most_locals }
    ensures { Gives call_meaning result
        (call_means scope.now (name_tree form.entry.name) (argument_tree form.entry.argument)) }
{
    let (func, takes_pointer) = scope.function_at(form.name)?;
    let (arg, active) = match form.argument {
        Argument::None if !takes_pointer => (Arg::None, false),
        Argument::Null if takes_pointer && !func.is_retire() => (Arg::Null, false),
        Argument::Name(pointer) if takes_pointer => (Arg::Var(scope.pointer_at(pointer)?), false),
        Argument::Active(pointer) if takes_pointer => (Arg::Var(scope.pointer_at(pointer)?), true),
        _ => return Err(ParseFault::NoSuchCall { at: form.name.at }),
    };
    Ok(Called { func, arg, active })
}
