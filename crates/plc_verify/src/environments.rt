// The environments of points: whether each fits its point's operation, and the types of shared pointers that a
// certificate leaves out. An environment gets these only where a step runs from it: nothing else reads them, so no list
// of environments that have them is made.
ghost use Rattle.std.specs.Prelude.{◌≡◌, ◌≤◌, ◌<◌, ℕ, IfOk, MatchOption, length};
ghost use Rattle.plc_flow.specs.WellFormed.{IsWellFormed};
ghost use Rattle.plc_flow.specs.Skeleton.{skeleton_of};
ghost use Rattle.plc_type.specs.Guarantees.{is_guarantee_set};
ghost use Rattle.plc_xfer.specs.Typings.{is_type, all_types};
ghost use Rattle.plc_verify.specs.Environments.{with_shared, completed, PointHolds, FailsAtPoint};
ghost use Rattle.plc_verify.specs.Tests.{env_fits, IsFirstUnfit, AllFit};

use plc_auto::Observer;
use plc_base::{Items, Mask, NoMemory, PointId};
use plc_flow::{Flow, Gate};
use plc_lang::count_pointers;
use plc_type::{Env, Guar, PtrType};
use std::alloc::Global;

/// Whether this is one of the four sets of guarantees.
fn is_guarantee_set(g: Guar) -> bool
    ensures { result ≡ is_guarantee_set g }
{
    g == Guar::nothing()
        || g == Guar::safe_only()
        || g == Guar::active_safe()
        || g == Guar::active_local_safe()
}

/// Whether a pointer may have this type in an environment with this W.
fn is_type(t: &PtrType, w: Mask, observer: &Observer) -> bool
    ensures { result ≡ is_type observer.now w t.now }
{
    if !is_guarantee_set(t.g) || !t.m.within(&w) {
        return false;
    }
    !t.g.is_active() || t.m.within(&observer.unretired())
}

/// Whether pointers may have all these types in an environment with this W.
fn are_types(types: &[PtrType], w: Mask, observer: &Observer) -> bool
    ensures { result ≡ all_types observer.now w types.now }
{
    for t in types {
        if !is_type(t, w, observer) {
            return false;
        }
    }
    true
}

/// Whether an environment fits an operation with so many pointer locals.
fn env_fits(env: &Env, locals: usize, observer: &Observer) -> bool
    ensures { result ≡ env_fits observer.now locals env.now }
{
    env.w.within(&observer.all())
        && env.locals.len() == locals
        && are_types(env.locals.as_slice(), env.w, observer)
}

/// The first point of an operation, of so many pointer locals, whose environment doesn't fit.
fn first_unfit(envs: &[Env], gate: Gate, locals: usize, observer: &Observer) -> Option<u16>
    requires { gate.after ≤ length envs.now }
    ensures { MatchOption result (AllFit observer.now locals envs.now gate.first gate.after)
        (λ p. IsFirstUnfit observer.now locals envs.now gate.first gate.after p) }
{
    for p in gate.first..gate.after {
        if !env_fits(&envs[p as usize], locals, observer) {
            return Some(p);
        }
    }
    None
}

/// The first point whose environment doesn't fit its operation. The environments are those of a
/// certificate, without types of shared pointers.
pub(crate) fn first_bad_point(flow: &Flow, observer: &Observer, envs: &[Env]) -> Option<PointId>
    requires flow { IsWellFormed flow.now }
    requires one_each { length envs.now ≡ flow.now.points }
    ensures { MatchOption result
        ((p : ℕ) → PointHolds observer.now (skeleton_of flow.now) (completed flow.now envs.now) p)
        (λ p. FailsAtPoint observer.now (skeleton_of flow.now) (completed flow.now envs.now) p.0) }
{
    let ops = flow.file.ops.as_slice();
    let gates = flow.gates.as_slice();
    for k in 0..ops.len() {
        match first_unfit(envs, gates[k], count_pointers(&ops[k]), observer) {
            Some(p) => return Some(PointId(p)),
            None => {}
        }
    }
    None
}

/// A copy of an environment with types of so many shared pointers, in memory of its own.
pub(crate) fn with_shared(alloc: Global, shared: usize, env: &Env) -> Result<Env, NoMemory>
    ensures { IfOk result (λ whole. whole ≡ with_shared shared env.now) }
{
    Ok(Env {
        shared: Items::from_vec(vec![in alloc; PtrType::bare(env.w); shared]?),
        locals: Items::from_vec(Vec::from_slice(alloc, env.locals.as_slice())?),
        w: env.w,
    })
}
