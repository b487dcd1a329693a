// What names mean: each is looked up among the locals in reach first, and then among the names of the
// file. In an operation a name without a declaration is a fault before one of the wrong kind.
#![tactic(auto, unfolding(crate::specs::Scope::role_as))]

ghost use Rattle.std.specs.Prelude.{◌≡◌, ◌<◌, ◌≤◌, length};
ghost use Rattle.plc_syntax.specs.Views.{name_tree};
ghost use Rattle.plc_scope.specs.Answers.{Gives};
ghost use Rattle.plc_scope.specs.Scope.{most_locals, local_named, found_at, found, role_of, role_at, binding_role};
ghost use Rattle.plc_scope.specs.Scope.{local_role, role_as, as_pointer, as_data, as_pointer_field, as_data_field};
ghost use Rattle.plc_scope.specs.Scope.{as_pointer_local, as_function, as_protecting, as_without_pointer, as_auxiliary};
ghost use Rattle.plc_scope.specs.Scope.{as_value_of, as_thread};

use crate::binding::{Binding, Found, Role};
use crate::fault::{ParseFault, Resolved};
use crate::scope::Scope;
use plc_base::{FieldId, FuncId};
use plc_lang::{Local, Var, data_number, pointer_number};
use plc_syntax::Name;

/// The first local with a name's number.
fn local_named(locals: &[Local], number: u16) -> Option<Found>
    requires { length locals.now ≤ most_locals }
    ensures { result ≡ local_named locals.now number }
{
    for (place, local) in locals.iter().enumerate() {
        if local.name == number {
            return Some(Found::Local(place as u16, local.pointer));
        }
    }
    None
}

/// The role of a name by what it stands for in the file; `None` where only locals of other operations have it.
fn binding_role(binding: Binding) -> Option<Role>
    ensures { result ≡ binding_role binding }
{
    match binding {
        Binding::Taken => Some(Role::NoValue),
        Binding::Shared(k) => Some(Role::PointerVariable(Var::Shared(k))),
        Binding::PointerField(f) => Some(Role::PointerField(f)),
        Binding::DataField(f) => Some(Role::DataField(f)),
        Binding::Function(f, takes_pointer) => Some(Role::Function(f, takes_pointer)),
        Binding::Auxiliary(g, of_threads) => Some(Role::Auxiliary(g, of_threads)),
        Binding::Value(g, v) => Some(Role::Value(g, v)),
        Binding::LocalOnly => None,
    }
}

/// The local at a place; pointers and data are counted apart.
fn local_role(locals: &[Local], place: u16, is_pointer: bool) -> Role
    requires few { length locals.now ≤ most_locals }
    requires there { place < length locals.now }
    ensures { result ≡ local_role locals.now place is_pointer }
{
    if is_pointer {
        Role::PointerVariable(Var::Local(pointer_number(locals, place as usize) as u16))
    } else {
        Role::DataLocal(data_number(locals, place as usize) as u16)
    }
}

// What a name is, where only one kind of role can stand.
macro_rules! wanted {
    ($scope:expr, $name:expr; $role:pat $(if $holds:expr)? => $found:expr) => {
        match $scope.role($name)? {
            $role $(if $holds)? => Ok($found),
            _ => Err(ParseFault::WrongSort { at: $name.at }),
        }
    };
}

impl Scope {
    /// What the name with a number is found to be.
    fn found_at(&self, locals: &[Local], number: u16) -> Option<Found>
        requires { length locals.now ≤ most_locals }
        ensures { result ≡ found_at self.now locals.now (Some number) }
    {
        match local_named(locals, number) {
            Some(local) => Some(local),
            None => self
                .bindings
                .get(number as usize)
                .map(|b| Found::OfFile(*b)),
        }
    }

    /// What a name is found to be where these locals are in reach; `None` where nothing in the file has it.
    /// A name that only locals of other operations have is found as `LocalOnly`.
    #[tactic(auto, unfolding(crate::specs::Scope::found))]
    pub fn find(&self, locals: &[Local], name: &[u8]) -> Option<Found>
        requires { length locals.now ≤ most_locals }
        ensures { result ≡ found self.now locals.now name.now }
    {
        let number = self.names.find(name)?;
        self.found_at(locals, number)
    }

    /// What a name is in the present operation, or `None` where it has no declaration in reach.
    #[tactic(auto, using(crate::proofs::Finds::place_within), unfolding(crate::specs::Scope::role_of))]
    pub fn role_of(&self, name: &[u8]) -> Option<Role>
        requires { length self.now.locals ≤ most_locals }
        ensures { result ≡ role_of self.now name.now }
    {
        let locals = self.locals.as_slice();
        match self.find(locals, name)? {
            Found::Local(place, is_pointer) => Some(local_role(locals, place, is_pointer)),
            Found::OfFile(binding) => binding_role(binding),
        }
    }

    /// What a name is. `Undeclared` where it has no declaration in reach.
    pub fn role(&self, name: Name) -> Resolved<Role>
        requires { length self.now.locals ≤ most_locals }
        ensures { Gives (λ role. role) result (role_at self.now (name_tree name.entry)) }
    {
        self.role_of(name.value)
            .ok_or(ParseFault::Undeclared { at: name.at })
    }

    /// The pointer variable that a name is; `Undeclared`, or `WrongSort` for another thing.
    pub fn pointer_at(&self, name: Name) -> Resolved<Var>
        requires { length self.now.locals ≤ most_locals }
        ensures { Gives (λ variable. variable) result (role_as as_pointer self.now (name_tree name.entry)) }
    {
        wanted! { self, name; Role::PointerVariable(variable) => variable }
    }

    /// The reclaimer function that a name is, and whether it takes a pointer; else `Undeclared` or `WrongSort`.
    pub fn function_at(&self, name: Name) -> Resolved<(FuncId, bool)>
        requires { length self.now.locals ≤ most_locals }
        ensures { Gives (λ x. (x.0, x.1)) result (role_as as_function self.now (name_tree name.entry)) }
    {
        wanted! { self, name; Role::Function(function, takes_pointer) => (function, takes_pointer) }
    }

    /// The auxiliary field that a name is, and whether it holds a thread; else `Undeclared` or `WrongSort`.
    pub fn auxiliary_at(&self, name: Name) -> Resolved<(u16, bool)>
        requires { length self.now.locals ≤ most_locals }
        ensures { Gives (λ x. (x.0, x.1)) result (role_as as_auxiliary self.now (name_tree name.entry)) }
    {
        wanted! { self, name; Role::Auxiliary(field, of_threads) => (field, of_threads) }
    }

    /// The data local that a name is; `Undeclared`, or `WrongSort` for another thing.
    pub fn data_at(&self, name: Name) -> Resolved<u16>
        requires { length self.now.locals ≤ most_locals }
        ensures { Gives (λ local. local) result (role_as as_data self.now (name_tree name.entry)) }
    {
        wanted! { self, name; Role::DataLocal(local) => local }
    }

    /// The function that sets a hazard pointer: with a pointer, and not `retire`; else `Undeclared` or `WrongSort`.
    pub fn protecting_at(&self, name: Name) -> Resolved<FuncId>
        requires { length self.now.locals ≤ most_locals }
        ensures { Gives (λ x. x) result (role_as as_protecting self.now (name_tree name.entry)) }
    {
        wanted! { self, name; Role::Function(function, true) if !function.is_retire() => function }
    }

    /// The pointer field that a name is; `Undeclared`, or `WrongSort` for another thing.
    pub fn pointer_field_at(&self, name: Name) -> Resolved<FieldId>
        requires { length self.now.locals ≤ most_locals }
        ensures { Gives (λ field. field) result (role_as as_pointer_field self.now (name_tree name.entry)) }
    {
        wanted! { self, name; Role::PointerField(field) => field }
    }

    /// The function that takes no pointer, such as those of an epoch; else `Undeclared` or `WrongSort`.
    pub fn without_pointer_at(&self, name: Name) -> Resolved<FuncId>
        requires { length self.now.locals ≤ most_locals }
        ensures { Gives (λ x. x) result (role_as as_without_pointer self.now (name_tree name.entry)) }
    {
        wanted! { self, name; Role::Function(function, false) => function }
    }

    /// The data field that a name is; `Undeclared`, or `WrongSort` for another thing.
    pub fn data_field_at(&self, name: Name) -> Resolved<FieldId>
        requires { length self.now.locals ≤ most_locals }
        ensures { Gives (λ field. field) result (role_as as_data_field self.now (name_tree name.entry)) }
    {
        wanted! { self, name; Role::DataField(field) => field }
    }

    /// The pointer local that a name is; `Undeclared`, or `WrongSort` for another thing.
    pub fn pointer_local_at(&self, name: Name) -> Resolved<u16>
        requires { length self.now.locals ≤ most_locals }
        ensures { Gives (λ x. x) result (role_as as_pointer_local self.now (name_tree name.entry)) }
    {
        wanted! { self, name; Role::PointerVariable(Var::Local(local)) => local }
    }

    /// The value that a name is, of the auxiliary field with this number; else `Undeclared` or `WrongSort`.
    pub fn value_at(&self, field: u16, name: Name) -> Resolved<u16>
        requires { length self.now.locals ≤ most_locals }
        ensures { Gives (λ x. x) result (role_as (as_value_of field) self.now (name_tree name.entry)) }
    {
        wanted! { self, name; Role::Value(of, value) if of == field => value }
    }

    /// Where a thread is wanted no name can stand: `Undeclared`, or else `WrongSort`.
    pub fn thread_at(&self, name: Name) -> Resolved<u16>
        requires { length self.now.locals ≤ most_locals }
        ensures { Gives (λ x. x) result (role_as as_thread self.now (name_tree name.entry)) }
    {
        // Only its fault is wanted.
        let _role = self.role(name)?;
        Err(ParseFault::WrongSort { at: name.at })
    }
}
