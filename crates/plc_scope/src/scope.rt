// The names that are in reach. All names of a file, of every operation's locals too, have one
// numbering, in order of first declaration; beside each name stands what it is in the file.
// Locals of the present operation are listed apart, so that those of two operations may share a name.
//
// A file's limits leave so few names that the list of names is never full: each declaration asks for
// room, and says how much it took.
ghost use Rattle.std.specs.Prelude.{◌≡◌, ◌<◌, IfOk, IfErr, OnErr, None, Ok, length, slice_get};
ghost use Rattle.plc_base.specs.Names.{place_of};
ghost use Rattle.plc_syntax.specs.Views.{name_tree};
ghost use Rattle.plc_scope.specs.Answers.{Gives, HasRoom, GrowsBy, HasRoomForLocals, GrowsByLocals};
ghost use Rattle.plc_scope.specs.Reused.{reused};
ghost use Rattle.plc_scope.specs.Scope.{first_scope, if_new, declared, declared_label, declared_local, has_local};
ghost use Rattle.plc_scope.specs.Scope.{declared_parameter, with_last, with_name, may_name_local, with_local};
ghost use Rattle.plc_scope.specs.Scope.{without_locals};
ghost use Rattle.plc_scope.specs.declared.binding.Binding.TheVariants.{LocalOnly};

use crate::binding::Binding;
use crate::fault::ParseFault;
use plc_base::{FuncId, Items, MOST_NAMES, NameFault, Names, What1};
use plc_lang::Local;
use plc_syntax::{Name, Placed};
use std::alloc::Global;

/// The names in reach.
#[derive(Drop)]
pub struct Scope {
    /// What each name is in the file, in the order of names.
    pub bindings: Items<Binding>,
    /// The locals of the present operation.
    pub locals: Items<Local>,
    /// The numbers of the names of the labels.
    pub labels: Items<u16>,
    /// All names, in order of first declaration.
    pub names: Names,
}

/// Adds a name that differs from all before, and answers its number. `Duplicate` where it doesn't.
pub fn add_name(names: &mut Names, name: Name) -> Result<u16, ParseFault>
    requires { length names.old.names < names.old.limit }
    ensures number { IfOk result (λ number. number ≡ length names.old.names) }
    ensures added { IfOk result (λ _. names.new ≡ with_last names.old name.entry.value.now) }
    ensures read { Gives (λ _. names.new) result (if_new (place_of name.entry.value.now names.old.names)
        name.entry.at (with_last names.old name.entry.value.now)) }
    ensures err { OnErr result (names.new ≡ names.old) }
{
    match names.add(name.value) {
        Ok(number) => Ok(number),
        Err(NameFault::Duplicate { .. }) => Err(ParseFault::Duplicate { at: name.at }),
        Err(NameFault::Full { .. }) => unreachable!(),
        Err(NameFault::Memory) => Err(ParseFault::Memory),
    }
}

/// Whether a local has the name with this number.
fn has_local(locals: &[Local], number: u16) -> bool
    ensures { result ≡ has_local locals.now number }
{
    locals.iter().any(|local| local.name == number)
}

impl Scope {
    /// The names in reach before a file: `retire`.
    pub fn new(alloc: Global) -> Result<Scope, ParseFault>
        ensures ok { IfOk result (λ scope. scope ≡ first_scope) }
        ensures err { IfErr result (λ e. e ≡ ParseFault.Memory) }
    {
        let mut scope = Scope {
            bindings: Items::new(alloc),
            locals: Items::new(alloc),
            labels: Items::new(alloc),
            names: Names::new(alloc, MOST_NAMES),
        };
        let value: &[u8] = b"retire";
        let retire = Placed { at: 0, value };
        scope.declare(retire, Binding::Function(FuncId::RETIRE, true))?;
        Ok(scope)
    }

    /// Declares a name that differs from all before, and answers its number. `Duplicate` where it
    /// doesn't. After a refusal the scope is as it was, as after each refusal below.
    pub fn declare(&mut self, name: Name, binding: Binding) -> Result<u16, ParseFault>
        requires { HasRoom self.old 1 }
        ensures number { IfOk result (λ number. number ≡ length self.old.names.names) }
        ensures read { Gives (λ _. self.new) result (declared self.old (name_tree name.entry) binding) }
        ensures names { IfOk result (λ _. GrowsBy self.old self.new 1) }
        ensures locals { self.new.locals ≡ self.old.locals }
        ensures err { OnErr result (self.new ≡ self.old) }
    {
        let count = self.bindings.len();
        self.bindings.push(binding)?;
        match add_name(&mut self.names, name) {
            Ok(number) => Ok(number),
            Err(fault) => {
                self.bindings.truncate(count);
                Err(fault)
            }
        }
    }

    /// Declares a label, which is as new as any name of the file. `Duplicate` where it isn't.
    pub fn declare_label(&mut self, name: Name) -> Result<(), ParseFault>
        requires { HasRoom self.old 1 }
        ensures read { Gives (λ _. self.new) result (declared_label self.old (name_tree name.entry)) }
        ensures names { IfOk result (λ _. GrowsBy self.old self.new 1) }
        ensures locals { self.new.locals ≡ self.old.locals }
        ensures err { OnErr result (self.new ≡ self.old) }
    {
        let count = self.labels.len();
        let number = self.names.len();
        self.labels.push(number)?;
        match self.declare(name, Binding::Taken) {
            Ok(_) => Ok(()),
            Err(fault) => {
                self.labels.truncate(count);
                Err(fault)
            }
        }
    }

    /// Whether a name that is there may be a local's: it is one of another operation, and nothing else.
    fn may_name_local(&self, number: u16) -> bool
        ensures { result ≡ may_name_local (slice_get self.now.bindings number) (has_local self.now.locals number) }
    {
        match self.bindings.get(number as usize) {
            Some(Binding::LocalOnly) => !has_local(self.locals.as_slice(), number),
            _ => false,
        }
    }

    /// The number of a name that a local of another operation has, or none where the name is new.
    fn reused(&self, name: Name) -> Result<Option<u16>, ParseFault>
        ensures { Gives (λ number. number) result
            (reused (place_of name.entry.value.now self.now.names.names) self.now name.entry.at) }
    {
        match self.names.find(name.value) {
            None => Ok(None),
            Some(number) if self.may_name_local(number) => Ok(Some(number)),
            Some(_) => Err(ParseFault::Duplicate { at: name.at }),
        }
    }

    /// Adds a local that has the name with this number.
    fn add_local(&mut self, name: u16, pointer: bool, param: bool) -> Result<(), ParseFault>
        ensures read { Gives (λ _. self.new) result (Ok (with_local self.old name pointer param)) }
        ensures err { OnErr result (self.new ≡ self.old) }
    {
        let local = Local {
            name,
            pointer,
            param,
        };
        self.locals.push(local)?;
        Ok(())
    }

    /// A local with a new name.
    fn add_new_local(&mut self, name: Name, pointer: bool, param: bool) -> Result<(), ParseFault>
        requires room { HasRoom self.old 1 }
        requires new { place_of name.value.now self.old.names.names ≡ None }
        ensures read { Gives (λ _. self.new) result (Ok (with_local
            (with_name self.old name.entry.value.now LocalOnly) (length self.old.names.names) pointer param)) }
        ensures err { OnErr result (self.new ≡ self.old) }
    {
        let count = self.locals.len();
        let number = self.names.len();
        self.add_local(number, pointer, param)?;
        match self.declare(name, Binding::LocalOnly) {
            Ok(_) => Ok(()),
            Err(fault) => {
                self.locals.truncate(count);
                Err(fault)
            }
        }
    }

    /// Declares a local of the present operation. `Limit` where it has 32 before; `Duplicate` where
    /// the name is not new, but for a local of another operation.
    #[tactic(auto, unfolding(crate::specs::Scope::declared_local))]
    pub fn declare_local(&mut self, name: Name, pointer: bool) -> Result<(), ParseFault>
        requires { HasRoomForLocals self.old }
        ensures read { Gives (λ _. self.new) result (declared_local self.old (name_tree name.entry) pointer) }
        ensures names { IfOk result (λ _. GrowsByLocals self.old self.new) }
        ensures err { OnErr result (self.new ≡ self.old) }
    {
        if self.locals.len() == What1::Locals.most() as usize {
            return Err(ParseFault::past(What1::Locals));
        }
        match self.reused(name)? {
            Some(number) => self.add_local(number, pointer, false),
            None => self.add_new_local(name, pointer, false),
        }
    }

    /// Declares a parameter of the present operation. `Duplicate` where the name is not new, but for a
    /// local of another operation, and else `Limit` where the operation has as many locals as it may.
    #[tactic(auto, unfolding(crate::specs::Scope::declared_parameter))]
    pub fn declare_parameter(&mut self, name: Name) -> Result<(), ParseFault>
        requires { HasRoomForLocals self.old }
        ensures read { Gives (λ _. self.new) result (declared_parameter self.old (name_tree name.entry)) }
        ensures names { IfOk result (λ _. GrowsByLocals self.old self.new) }
        ensures err { OnErr result (self.new ≡ self.old) }
    {
        let number = self.reused(name)?;
        if self.locals.len() == What1::Locals.most() as usize {
            return Err(ParseFault::past(What1::Locals));
        }
        match number {
            Some(number) => self.add_local(number, false, true),
            None => self.add_new_local(name, false, true),
        }
    }

    /// Ends an operation: its locals, which are in reach no longer.
    pub fn take_locals(&mut self, alloc: Global) -> Items<Local>
        ensures locals { result ≡ self.old.locals }
        ensures scope { self.new ≡ without_locals self.old }
    {
        std::mem::replace(&mut self.locals, Items::new(alloc))
    }
}
