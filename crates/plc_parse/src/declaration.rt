// The declarations of a file but those of auxiliary fields and operations.
ghost use Rattle.std.specs.Prelude.{◌≡◌, IfOk, length};
ghost use Rattle.plc_syntax.specs.Views.{name_tree};
ghost use Rattle.plc_scope.specs.Answers.{Gives, HasRoom, GrowsBy};
ghost use Rattle.plc_scope.specs.Scope.{declared};
ghost use Rattle.plc_parse.specs.Growth.{KeepsLists};
ghost use Rattle.plc_parse.specs.Kinds.{fields, shared_pointers, functions};

use crate::lists::Listed;
use plc_base::{FieldId, FuncId, What1};
use plc_lang::{Field, Func};
use plc_scope::{Binding, ParseFault, Resolved, Scope};
use plc_syntax::{Declaration, Function, Name, Shared};
use std::alloc::Global;

/// Declares one name, as [`Scope::declare`] does.
#[tactic(auto, using(crate::proofs::Growth::declared_lists))]
pub fn declare(scope: &mut Scope, name: Name, binding: Binding) -> Resolved<u16>
    requires { HasRoom scope.old 1 }
    ensures number { IfOk result (λ number. number ≡ length scope.old.names.names) }
    ensures read { Gives (λ _. scope.new) result (declared scope.old (name_tree name.entry) binding) }
    ensures names { IfOk result (λ _. GrowsBy scope.old scope.new 1) }
    ensures lists { IfOk result (λ _. KeepsLists scope.old scope.new) }
{
    scope.declare(name, binding)
}

/// A field of the struct.
impl<'a> Listed for Declaration<'a> {
    type Item = Field;

    ghost kind = { fields };

    fn declare(&self, _alloc: Global, scope: &mut Scope, count: usize) -> Resolved<Field> {
        if count == What1::Fields.most() as usize {
            return Err(ParseFault::past(What1::Fields));
        }
        let id = FieldId(count as u16);
        match *self {
            Declaration::Pointer(name) => {
                let name = declare(scope, name, Binding::PointerField(id))?;
                Ok(Field {
                    name,
                    pointer: true,
                })
            }
            Declaration::Data(name) => {
                let name = declare(scope, name, Binding::DataField(id))?;
                Ok(Field {
                    name,
                    pointer: false,
                })
            }
        }
    }
}

/// A shared pointer, which is the number of its name.
impl<'a> Listed for Shared<'a> {
    type Item = u16;

    ghost kind = { shared_pointers };

    fn declare(&self, _alloc: Global, scope: &mut Scope, count: usize) -> Resolved<u16> {
        if count == What1::Shared.most() as usize {
            return Err(ParseFault::past(What1::Shared));
        }
        declare(scope, self.name, Binding::Shared(count as u16))
    }
}

/// A function beside `retire`.
impl<'a> Listed for Function<'a> {
    type Item = Func;

    ghost kind = { functions };

    fn declare(&self, _alloc: Global, scope: &mut Scope, count: usize) -> Resolved<Func> {
        if count == What1::Calls.most() as usize {
            return Err(ParseFault::past(What1::Calls));
        }
        let pointer = self.takes_pointer;
        let binding = Binding::Function(FuncId(count as u16 + 1), pointer);
        let name = declare(scope, self.name, binding)?;
        Ok(Func { name, pointer })
    }
}
