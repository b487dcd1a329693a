// What a primitive makes of the environment before it, a row for each, in the table's order. All
// parts of a row are read before any is written, so that a row whose two variables are one does what
// each of its parts says: the loss of L stands. (Meyer and Wolff, POPL 2020, with a set of locations
// in place of their angels.)
ghost use Rattle.std.specs.Prelude.{◌≡◌};
ghost use Rattle.plc_xfer.specs.Rules.{type_of, shared_type, new_type, equal_type, refreshed_type};
ghost use Rattle.plc_xfer.specs.Rules.{placed_type, active_type, env_after, FitsObserver};
ghost use Rattle.plc_xfer.specs.Typings.{IsWellFormed};
ghost use Rattle.plc_lang.specs.declared.syntax.Primitive.TheVariants as prims;

use crate::calls::{call_with, on_other};
use crate::types::{set_both, set_type, type_of};
use plc_auto::{EvKind, Observer};
use plc_base::FuncId;
use plc_lang::{Arg, Prim, Var};
use plc_type::{Env, Guar, PtrType};

/// The type of a variable, without L.
fn shared_type(env: &Env, var: Var) -> PtrType
    ensures { result ≡ shared_type (type_of env.now var) }
{
    let t = type_of(env, var);
    PtrType {
        g: t.g.without_local(),
        m: t.m,
    }
}

/// The type of a pointer to a node that was just allocated.
fn new_type(env: &Env, observer: &Observer) -> PtrType
    ensures { result ≡ new_type observer.now env.now }
{
    PtrType {
        g: Guar::active_local_safe(),
        m: env.w.meet(&observer.unretired()),
    }
}

/// The type of two pointers that are found equal.
fn equal_type(env: &Env, p: Var, q: Var) -> PtrType
    ensures { result ≡ equal_type (type_of env.now p) (type_of env.now q) }
{
    let t = type_of(env, p);
    let u = type_of(env, q);
    PtrType {
        g: t.g.either(&u.g),
        m: t.m.meet(&u.m),
    }
}

/// The type of a pointer and of the one that is assigned to it, where they hold one address already.
fn refreshed_type(env: &Env, p: Var, q: Var) -> PtrType
    ensures { result ≡ refreshed_type (type_of env.now p) (type_of env.now q) }
{
    let t = type_of(env, p);
    let u = type_of(env, q);
    PtrType {
        g: u.g.without_local(),
        m: t.m.meet(&u.m),
    }
}

/// The type of a variable, without any guarantee.
fn placed_type(env: &Env, var: Var) -> PtrType
    ensures { result ≡ placed_type (type_of env.now var) }
{
    PtrType {
        g: Guar::nothing(),
        m: type_of(env, var).m,
    }
}

/// The type of a pointer that is claimed to be active.
fn active_type(env: &Env, var: Var, observer: &Observer) -> PtrType
    ensures { result ≡ active_type observer.now (type_of env.now var) }
{
    let t = type_of(env, var);
    PtrType {
        g: t.g.either(&Guar::active_safe()),
        m: t.m.meet(&observer.unretired()),
    }
}

/// Writes what a call makes of the types.
#[tactic(auto, using(crate::proofs::Rows::calls))]
fn write_call(env: &mut Env, func: FuncId, arg: Arg, observer: &Observer)
    requires { FitsObserver observer.now env.old }
    ensures { env.new ≡ env_after observer.now env.old (prims.Call func arg) }
{
    match arg {
        Arg::None => on_other(env, EvKind::Call(func), observer),
        Arg::Null => on_other(env, EvKind::Call(func), observer),
        Arg::Var(p) => call_with(env, func, p, observer),
    }
}

/// Writes what a primitive makes of the types.
#[tactic(auto, using(crate::proofs::Rows::rows))]
fn write_effect(env: &mut Env, prim: &Prim, observer: &Observer)
    requires { FitsObserver observer.now env.old }
    ensures { env.new ≡ env_after observer.now env.old prim.now }
{
    match *prim {
        Prim::Null { p } => set_type(&PtrType::null(), env, p),
        Prim::Copy { p, q } => set_both(&shared_type(env, q), env, p, q),
        Prim::New { p } => set_type(&new_type(env, observer), env, p),
        Prim::Load { p, .. } => set_type(&PtrType::bare(env.w), env, p),
        Prim::Store { q, .. } => set_type(&shared_type(env, q), env, q),
        Prim::StoreNull { .. } => {}
        Prim::DataSet { .. } => {}
        Prim::DataLoad { .. } => {}
        Prim::DataStore { .. } => {}
        Prim::Eq { p, q } => set_both(&equal_type(env, p, q), env, p, q),
        Prim::Ne { .. } => {}
        Prim::IsNull { p } => set_type(&PtrType::null(), env, p),
        Prim::NotNull { .. } => {}
        Prim::DataTest { .. } => {}
        Prim::Refresh { p, q } => {
            let p = Var::Local(p);
            set_both(&refreshed_type(env, p, q), env, p, q)
        }
        Prim::RefreshLoad { p, .. } => {
            let p = Var::Local(p);
            set_type(&placed_type(env, p), env, p)
        }
        Prim::RefreshStore { q, .. } => set_type(&shared_type(env, q), env, q),
        Prim::Mark { p, q } => set_both(&shared_type(env, q), env, p, q),
        Prim::Unmark { p, q } => set_both(&shared_type(env, q), env, p, q),
        Prim::MarkTest { .. } => {}
        Prim::Call { func, arg } => write_call(env, func, arg, observer),
        Prim::Done { func } => on_other(env, EvKind::Done(func), observer),
        Prim::Active { p } => set_type(&active_type(env, p, observer), env, p),
        Prim::Ghost { .. } => {}
    }
}

/// Makes of the environment before a primitive the one after it, whether or not its condition holds.
/// The locations of the environment must be those of the observer; they are so afterwards, and where
/// its types are well formed they are so too. It takes no memory.
pub fn apply(env: &mut Env, prim: &Prim, observer: &Observer)
    requires { FitsObserver observer.now env.old }
    ensures effect { env.new ≡ env_after observer.now env.old prim.now }
    ensures fits { FitsObserver observer.now env.new }
    ensures well_formed { IsWellFormed observer.now env.old → IsWellFormed observer.now env.new }
{
    write_effect(env, prim, observer);
}
