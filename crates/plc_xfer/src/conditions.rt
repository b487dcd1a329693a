// What a primitive asks of the environment before it, a row for each, in the table's order.
ghost use Rattle.std.specs.Prelude.{◌≡◌, if◌then◌else◌, Some, None};
ghost use Rattle.std.specs.Result.{result_err};
ghost use Rattle.plc_xfer.specs.Rules.{access_fault, compare_fault, call_fault, fault_of};

use crate::fault::TypeFault;
use crate::types::type_of;
use plc_auto::Observer;
use plc_base::FuncId;
use plc_lang::{Arg, Prim, Var};
use plc_type::Env;

/// Nothing where what is asked holds, and else this fault.
fn ask(holds: bool, fault: TypeFault) -> Result<(), TypeFault>
    ensures { result_err result ≡ if holds then None else Some fault }
{
    if holds { Ok(()) } else { Err(fault) }
}

/// An access asks that the pointer is safe.
fn access(env: &Env, var: Var) -> Result<(), TypeFault>
    ensures { result_err result ≡ access_fault env.now var }
{
    ask(
        type_of(env, var).g.is_safe(),
        TypeFault::DerefNotSafe { var },
    )
}

/// A comparison asks that both pointers are safe.
fn compare(env: &Env, p: Var, q: Var) -> Result<(), TypeFault>
    ensures { result_err result ≡ compare_fault env.now p q }
{
    ask(
        type_of(env, p).g.is_safe(),
        TypeFault::CompareNotSafe { var: p },
    )?;
    ask(
        type_of(env, q).g.is_safe(),
        TypeFault::CompareNotSafe { var: q },
    )
}

/// Of calls only a retirement of a pointer asks anything: that the pointer is active.
fn call(env: &Env, func: FuncId, arg: Arg) -> Result<(), TypeFault>
    ensures { result_err result ≡ call_fault env.now func arg }
{
    match arg {
        Arg::Var(p) if func.is_retire() => ask(
            type_of(env, p).g.is_active(),
            TypeFault::RetireNotActive { var: p },
        ),
        _ => Ok(()),
    }
}

/// What a primitive asks of the environment before it: an access and a comparison ask that their
/// pointers are safe, a retirement asks that its pointer is active. The fault says what fails, and of
/// which variable. The observer is handed in as to all rules, and no condition depends on it.
pub fn condition(env: &Env, prim: &Prim, _observer: &Observer) -> Result<(), TypeFault>
    ensures { result_err result ≡ fault_of env.now prim.now }
{
    match *prim {
        Prim::Null { .. } => Ok(()),
        Prim::Copy { .. } => Ok(()),
        Prim::New { .. } => Ok(()),
        Prim::Load { q, .. } => access(env, q),
        Prim::Store { p, .. } => access(env, p),
        Prim::StoreNull { p, .. } => access(env, p),
        Prim::DataSet { .. } => Ok(()),
        Prim::DataLoad { q, .. } => access(env, q),
        Prim::DataStore { p, .. } => access(env, p),
        Prim::Eq { p, q } => compare(env, p, q),
        Prim::Ne { p, q } => compare(env, p, q),
        Prim::IsNull { .. } => Ok(()),
        Prim::NotNull { .. } => Ok(()),
        Prim::DataTest { .. } => Ok(()),
        Prim::Refresh { .. } => Ok(()),
        Prim::RefreshLoad { q, .. } => access(env, q),
        Prim::RefreshStore { p, .. } => access(env, p),
        Prim::Mark { .. } => Ok(()),
        Prim::Unmark { .. } => Ok(()),
        Prim::MarkTest { .. } => Ok(()),
        Prim::Call { func, arg } => call(env, func, arg),
        Prim::Done { .. } => Ok(()),
        Prim::Active { .. } => Ok(()),
        Prim::Ghost { .. } => Ok(()),
    }
}
