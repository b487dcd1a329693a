// Reading and writing the types of an environment. A variable that the environment lacks may stand
// where any address may, and nothing is written of it.
ghost use Rattle.std.specs.Prelude.{◌≡◌, get_or, slice_set};
ghost use Rattle.plc_type.specs.Types.{bare};
ghost use Rattle.plc_xfer.specs.Rules.{type_of};
ghost use Rattle.plc_xfer.specs.Writes.{with_type};

use plc_base::{Items, Mask};
use plc_lang::Var;
use plc_type::{Env, PtrType};

/// The type at a place of a list, and past its end that of any address.
fn type_at(types: &[PtrType], at: u16, w: Mask) -> PtrType
    ensures { result ≡ get_or types.now at (bare w) }
{
    match types.get(at as usize) {
        Some(t) => *t,
        None => PtrType::bare(w),
    }
}

/// Puts a type at a place of a list; past its end nothing changes.
fn set_type_at(types: &mut Items<PtrType>, at: u16, t: &PtrType)
    ensures { types.new ≡ slice_set types.old at t.now }
{
    if (at as usize) < types.len() {
        types.set(at as usize, *t);
    }
}

/// The type of a variable.
#[tactic(auto, unfolding(crate::specs::Rules::type_of))]
pub(crate) fn type_of(env: &Env, var: Var) -> PtrType
    ensures { result ≡ type_of env.now var }
{
    match var {
        Var::Shared(i) => type_at(env.shared.as_slice(), i, env.w),
        Var::Local(i) => type_at(env.locals.as_slice(), i, env.w),
    }
}

/// Gives a variable a type. The type stands first, since it may be read from the environment that is
/// written.
#[tactic(auto, unfolding(crate::specs::Writes::with_type))]
pub(crate) fn set_type(t: &PtrType, env: &mut Env, var: Var)
    ensures { env.new ≡ with_type env.old var t.now }
{
    match var {
        Var::Shared(i) => set_type_at(&mut env.shared, i, t),
        Var::Local(i) => set_type_at(&mut env.locals, i, t),
    }
}

/// Gives two variables, which may be one, the same type.
pub(crate) fn set_both(t: &PtrType, env: &mut Env, p: Var, q: Var)
    ensures { env.new ≡ with_type (with_type env.old p t.now) q t.now }
{
    set_type(t, env, p);
    set_type(t, env, q);
}
