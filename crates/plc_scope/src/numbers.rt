// What stands where a number is wanted: a number itself, or the name of a data local.
ghost use Rattle.std.specs.Prelude.{◌≤◌, length};
ghost use Rattle.plc_lang.specs.declared.syntax.Num.{Num};
ghost use Rattle.plc_lang.specs.declared.syntax.Primitive.{Primitive};
ghost use Rattle.plc_syntax.specs.Views.{atom_tree};
ghost use Rattle.plc_scope.specs.Answers.{Gives};
ghost use Rattle.plc_scope.specs.Primitives.{with_number};
ghost use Rattle.plc_scope.specs.Scope.{most_locals};

use crate::fault::{ParseFault, Resolved};
use crate::scope::Scope;
use plc_lang::Num;
use plc_syntax::Atom;

/// The number that is put into a data field or compared with a data local.
pub fn number(scope: &Scope, atom: Atom) -> Resolved<Num>
    requires { length scope.now.locals ≤ most_locals }
    ensures { (make : Num → Primitive) → Gives make result
        (with_number scope.now (atom_tree atom.entry) make) }
{
    match atom {
        Atom::Null(at) => Err(ParseFault::WrongSort { at }),
        Atom::Number(n) => Ok(Num::Lit(n.value)),
        Atom::Name(name) => Ok(Num::Local(scope.data_at(name)?)),
    }
}
