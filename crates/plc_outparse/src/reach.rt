// What names are in the clauses of an outline: a quantified name, a local of the operation, or what
// the name is in the file. A local of another operation has no declaration in reach.
ghost use Rattle.std.specs.Prelude.{◌≡◌, ◌≤◌, length};
ghost use Rattle.plc_scope.specs.Answers.{Gives};
ghost use Rattle.plc_syntax.specs.Views.{name_tree};
ghost use Rattle.plc_scope.specs.Scope.{most_locals, known};
ghost use Rattle.plc_outparse.specs.Reach.{binding_kind, declared_kind, kind_at, base_at};
ghost use Rattle.plc_outparse.specs.Views.{reach_of};

use crate::kind::Kind;
use plc_base::Names;
use plc_lang::Local;
use plc_logic::{Base, Sort};
use plc_scope::{Binding, Found, ParseFault, Resolved, Scope};
use plc_syntax::Name;

/// What is in reach in a clause.
#[derive(Clone, Copy)]
pub struct Reach<'a> {
    pub scope: &'a Scope,
    /// The locals of the operation; none in an invariant.
    pub locals: &'a [Local],
    /// A thread is in the operation; there is none in an invariant.
    pub in_operation: bool,
    /// The quantified names of the clause.
    pub bound: &'a Names,
}

/// What a name of the file is to a clause.
fn binding_kind(binding: Binding) -> Option<Kind>
    ensures { result ≡ binding_kind binding }
{
    match binding {
        Binding::Taken | Binding::Function(..) => Some(Kind::NoValue),
        Binding::Shared(k) => Some(Kind::Node(Base::Shared(k))),
        Binding::PointerField(f) => Some(Kind::Field(f, Sort::Node)),
        Binding::DataField(f) => Some(Kind::Field(f, Sort::Number)),
        Binding::Auxiliary(g, true) => Some(Kind::Auxiliary(g, Sort::Thread)),
        Binding::Auxiliary(g, false) => Some(Kind::Auxiliary(g, Sort::Value(g))),
        Binding::Value(g, v) => Some(Kind::Value(g, v)),
        Binding::LocalOnly => None,
    }
}

/// What a name is that isn't quantified, or `None` where it has no declaration in reach.
#[tactic(auto, unfolding(crate::specs::Reach::declared_kind))]
pub fn declared_kind(scope: &Scope, locals: &[Local], name: &[u8]) -> Option<Kind>
    requires { length locals.now ≤ most_locals }
    ensures { result ≡ declared_kind scope.now locals.now name.now }
{
    match scope.find(locals, name) {
        Some(Found::Local(i, true)) => Some(Kind::Node(Base::Local(i))),
        Some(Found::Local(i, false)) => Some(Kind::Data(i)),
        Some(Found::OfFile(binding)) => binding_kind(binding),
        None => None,
    }
}

/// What a name is that isn't quantified. `Undeclared` where it has no declaration in reach.
pub fn known(scope: &Scope, locals: &[Local], name: Name) -> Resolved<Kind>
    requires { length locals.now ≤ most_locals }
    ensures { Gives (λ kind. kind) result
        (known name.entry.at (declared_kind scope.now locals.now name.entry.value.now)) }
{
    declared_kind(scope, locals, name.value).ok_or(ParseFault::Undeclared { at: name.at })
}

/// What a name in a clause is. `Undeclared` where it has no declaration in reach.
#[tactic(auto, unfolding(crate::specs::Reach::kind_of))]
pub fn kind_at(reach: &Reach, name: Name) -> Resolved<Kind>
    requires { length reach.now.locals.now ≤ most_locals }
    ensures { Gives (λ kind. kind) result (kind_at (reach_of reach.now) (name_tree name.entry)) }
{
    match reach.bound.find(name.value) {
        Some(number) => Ok(Kind::Node(Base::Bound(number))),
        None => known(reach.scope, reach.locals, name),
    }
}

/// The base of a field that a name is; `Undeclared`, or `WrongSort` for another thing.
#[tactic(auto, unfolding(crate::specs::Reach::base_at))]
pub fn base_at(reach: &Reach, name: Name) -> Resolved<Base>
    requires { length reach.now.locals.now ≤ most_locals }
    ensures { Gives (λ base. base) result (base_at (reach_of reach.now) (name_tree name.entry)) }
{
    match kind_at(reach, name)? {
        Kind::Node(base) => Ok(base),
        _ => Err(ParseFault::WrongSort { at: name.at }),
    }
}
