// The parameters and locals of an operation. A parameter is its name alone; a local is a declaration.
ghost use Rattle.std.specs.Prelude.{◌≡◌, IfOk, map};
ghost use Rattle.plc_syntax.specs.Views.{name_tree, field_tree};
ghost use Rattle.plc_tree.specs.FileViews.{parameters_names};
ghost use Rattle.plc_scope.specs.Answers.{Gives, HasRoomForLocals, GrowsByLocals};
ghost use Rattle.plc_scope.specs.Scope.{declared_parameter, declared_local};
ghost use Rattle.plc_parse.specs.Meaning.{local_means};
ghost use Rattle.plc_outparse.specs.Meaning.{in_turn};
ghost use Rattle.plc_parse.specs.Views.{DeclaresLocals};

use plc_scope::{Resolved, Scope};
use plc_syntax::{Declaration, Name};
use plc_tree::Parameters;

/// Declares one parameter.
#[tactic(auto, using(crate::proofs::Growth::parameter_labels))]
fn declare_parameter(scope: &mut Scope, name: Name) -> Resolved<()>
    requires { HasRoomForLocals scope.old }
    ensures read { Gives (λ _. scope.new) result (declared_parameter scope.old (name_tree name.entry)) }
    ensures names { IfOk result (λ _. GrowsByLocals scope.old scope.new) }
    ensures labels { IfOk result (λ _. scope.new.labels ≡ scope.old.labels) }
{
    scope.declare_parameter(name)
}

/// Declares parameters in order.
fn declare_names(scope: &mut Scope, names: &[Name]) -> Resolved<()>
    requires { HasRoomForLocals scope.old }
    ensures { DeclaresLocals (in_turn declared_parameter scope.old (map name_tree names.now)) scope.old scope.new
        result }
{
    for name in names {
        declare_parameter(scope, *name)?;
    }
    Ok(())
}

/// Declares the parameters, of which there may be none.
pub fn declare_parameters(scope: &mut Scope, parameters: &Parameters) -> Resolved<()>
    requires { HasRoomForLocals scope.old }
    ensures { DeclaresLocals (in_turn declared_parameter scope.old (parameters_names parameters.now))
        scope.old scope.new result }
{
    match parameters {
        Parameters::None => Ok(()),
        Parameters::Some(name, others) => {
            declare_parameter(scope, *name)?;
            declare_names(scope, others.as_slice())
        }
    }
}

/// Declares one local that is no parameter.
#[tactic(auto, using(crate::proofs::Growth::local_labels))]
fn declare_name(scope: &mut Scope, name: Name, pointer: bool) -> Resolved<()>
    requires { HasRoomForLocals scope.old }
    ensures read { Gives (λ _. scope.new) result (declared_local scope.old (name_tree name.entry) pointer) }
    ensures names { IfOk result (λ _. GrowsByLocals scope.old scope.new) }
    ensures labels { IfOk result (λ _. scope.new.labels ≡ scope.old.labels) }
{
    scope.declare_local(name, pointer)
}

/// Declares the local of a declaration.
fn declare_local(scope: &mut Scope, declaration: Declaration) -> Resolved<()>
    requires { HasRoomForLocals scope.old }
    ensures { DeclaresLocals (local_means scope.old (field_tree declaration.entry)) scope.old scope.new result }
{
    match declaration {
        Declaration::Pointer(name) => declare_name(scope, name, true),
        Declaration::Data(name) => declare_name(scope, name, false),
    }
}

/// Declares the locals that are no parameters.
pub fn declare_locals(scope: &mut Scope, locals: &[Declaration]) -> Resolved<()>
    requires { HasRoomForLocals scope.old }
    ensures { DeclaresLocals (in_turn local_means scope.old (map field_tree locals.now)) scope.old scope.new result }
{
    for local in locals {
        declare_local(scope, *local)?;
    }
    Ok(())
}
