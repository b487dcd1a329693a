// The two sides of a condition, each as the primitives of one step: a test and its opposite, a
// refresh and nothing, and for a `cas` the comparison with the write, and the comparison that fails.
ghost use Rattle.std.specs.Prelude.{◌≡◌, ◌∷◌, [], IfOk};
ghost use Rattle.plc_flow.specs.Sides.{opposite, equals, differs, becomes, claim, true_side, false_side, call_side};

use plc_base::{FuncId, Items};
use plc_lang::{Arg, Cond, Prim, Rel, Var};
use std::alloc::{AllocError, Global};

/// The test that holds exactly where this one fails.
fn opposite_of(test: Prim) -> Prim
    ensures { result ≡ opposite test }
{
    match test {
        Prim::Eq { p, q } => Prim::Ne { p, q },
        Prim::Ne { p, q } => Prim::Eq { p, q },
        Prim::IsNull { p } => Prim::NotNull { p },
        Prim::NotNull { p } => Prim::IsNull { p },
        Prim::DataTest { rel: Rel::Eq, x, e } => Prim::DataTest { rel: Rel::Ne, x, e },
        Prim::DataTest { rel: Rel::Ne, x, e } => Prim::DataTest { rel: Rel::Eq, x, e },
        Prim::DataTest { rel: Rel::Lt, x, e } => Prim::DataTest { rel: Rel::Ge, x, e },
        Prim::DataTest { rel: Rel::Ge, x, e } => Prim::DataTest { rel: Rel::Lt, x, e },
        Prim::MarkTest { p, yes } => Prim::MarkTest { p, yes: !yes },
        other => other,
    }
}

/// `p == e`
fn is(p: Var, e: Option<Var>) -> Prim
    ensures { result ≡ equals p e }
{
    match e {
        Some(q) => Prim::Eq { p, q },
        None => Prim::IsNull { p },
    }
}

/// `p != e`
fn is_not(p: Var, e: Option<Var>) -> Prim
    ensures { result ≡ differs p e }
{
    match e {
        Some(q) => Prim::Ne { p, q },
        None => Prim::NotNull { p },
    }
}

/// `p := e`
fn set(p: Var, e: Option<Var>) -> Prim
    ensures { result ≡ becomes p e }
{
    match e {
        Some(q) => Prim::Copy { p, q },
        None => Prim::Null { p },
    }
}

/// The list of one primitive.
pub(crate) fn one(alloc: Global, prim: Prim) -> Result<Items<Prim>, AllocError>
    ensures { IfOk result (λ prims. prims ≡ prim ∷ []) }
{
    let mut prims = Items::new(alloc);
    prims.push(prim)?;
    Ok(prims)
}

/// A list with a copy of each primitive.
pub(crate) fn copied(alloc: Global, prims: &[Prim]) -> Result<Items<Prim>, AllocError>
    ensures { IfOk result (λ made. made ≡ prims.now) }
{
    let mut made = Items::new(alloc);
    for prim in prims {
        made.push(*prim)?;
    }
    Ok(made)
}

/// The claim that `p` is active, where it is made.
fn claimed(alloc: Global, active: bool, p: Var) -> Result<Items<Prim>, AllocError>
    ensures { IfOk result (λ prims. prims ≡ claim active p) }
{
    if active {
        return one(alloc, Prim::Active { p });
    }
    Ok(Items::new(alloc))
}

/// The side on which the condition holds.
pub(crate) fn true_prims(alloc: Global, cond: Cond) -> Result<Items<Prim>, AllocError>
    ensures { IfOk result (λ prims. prims ≡ true_side cond) }
{
    match cond {
        Cond::Test(test) => one(alloc, test),
        Cond::Refresh(refresh) => one(alloc, refresh),
        Cond::Cas {
            active,
            p,
            old,
            new,
        } => {
            let mut prims = claimed(alloc, active, p)?;
            prims.push(is(p, old))?;
            prims.push(set(p, new))?;
            Ok(prims)
        }
    }
}

/// The side on which the condition fails.
pub(crate) fn false_prims(alloc: Global, cond: Cond) -> Result<Items<Prim>, AllocError>
    ensures { IfOk result (λ prims. prims ≡ false_side cond) }
{
    match cond {
        Cond::Test(test) => one(alloc, opposite_of(test)),
        Cond::Refresh(_) => Ok(Items::new(alloc)),
        Cond::Cas { active, p, old, .. } => {
            let mut prims = claimed(alloc, active, p)?;
            prims.push(is_not(p, old))?;
            Ok(prims)
        }
    }
}

/// A call after the claim on its argument.
pub(crate) fn call_prims(
    alloc: Global,
    active: bool,
    func: FuncId,
    arg: Arg,
) -> Result<Items<Prim>, AllocError>
    ensures { IfOk result (λ prims. prims ≡ call_side active func arg) }
{
    match arg {
        Arg::Var(p) => {
            let mut prims = claimed(alloc, active, p)?;
            prims.push(Prim::Call { func, arg })?;
            Ok(prims)
        }
        Arg::Null => one(
            alloc,
            Prim::Call {
                func,
                arg: Arg::Null,
            },
        ),
        Arg::None => one(
            alloc,
            Prim::Call {
                func,
                arg: Arg::None,
            },
        ),
    }
}
