// The steps of a flow: each is run once from the environment of its first point, with types of shared pointers, and
// what it leads to is compared with that of its last point by W and locals, which these types leave as they are.
ghost use Rattle.std.specs.Prelude.{◌≡◌, ◌<◌, ◌≤◌, ℕ, IfOk, MatchOption, MatchResult, length};
ghost use Rattle.plc_xfer.specs.Rules.{FitsObserver};
ghost use Rattle.plc_verify.specs.Environments.{with_shared, IsFirstAbove};
ghost use Rattle.plc_verify.specs.Tests.{IsRun, NoneAbove};
ghost use Rattle.plc_verify.specs.Candidate.{CanTakeSteps, StepHoldsOf, MayFailOf};

use crate::environments::with_shared;
use crate::fault::{Slot, VerifyFault};
use plc_auto::Observer;
use plc_base::{NoMemory, StepId};
use plc_flow::Flow;
use plc_lang::Prim;
use plc_type::{Env, below};
use plc_xfer::{apply, condition, interfere};
use std::alloc::Global;

/// What the primitives of a step and then interference make of an environment.
#[derive(Drop)]
pub(crate) enum Outcome {
    /// Each condition holds, and it leads to this.
    LeadsTo(Env),
    /// The first condition that fails is that of the primitive with this number.
    FailsAt(u16),
}

/// Environments that are said to be those of the points of a flow, under an observer. They are those of a certificate,
/// without types of shared pointers.
#[derive(Clone, Copy)]
pub(crate) struct Candidate<'a> {
    pub flow: &'a Flow,
    pub observer: &'a Observer,
    pub envs: &'a [Env],
}

/// Runs the primitives of a step, and then interference, from an environment with types of so many shared pointers.
fn run(
    alloc: Global,
    shared: usize,
    env: &Env,
    prims: &[Prim],
    observer: &Observer,
) -> Result<Outcome, NoMemory>
    requires short { length prims.now < 65536 }
    requires fits { FitsObserver observer.now (with_shared shared env.now) }
    ensures { IfOk result (λ run. IsRun observer.now (with_shared shared env.now) prims.now run) }
{
    let mut reached = with_shared(alloc, shared, env)?;
    for (i, prim) in prims.iter().enumerate() {
        if let Err(_) = condition(&reached, prim, observer) {
            return Ok(Outcome::FailsAt(i as u16));
        }
        apply(&mut reached, prim, observer);
    }
    interfere(&mut reached, observer);
    Ok(Outcome::LeadsTo(reached))
}

/// The first part of an environment that isn't below that of another.
fn first_above(a: &Env, b: &Env) -> Option<Slot>
    requires same { length a.now.locals ≡ length b.now.locals }
    requires few { length a.now.locals ≤ 65536 }
    ensures { MatchOption result (NoneAbove a.now b.now) (λ var. IsFirstAbove a.now b.now var) }
{
    if !a.w.within(&b.w) {
        return Some(Slot::W);
    }
    let types = a.locals.as_slice();
    let others = b.locals.as_slice();
    for v in 0..types.len() {
        if !below(&types[v], &others[v]) {
            return Some(Slot::Local(v as u16));
        }
    }
    None
}

/// Judges a step, where those before it hold.
fn verify_step(alloc: Global, candidate: &Candidate<'_>, k: usize) -> Result<(), VerifyFault>
    requires ready { CanTakeSteps candidate.now }
    requires known { k < length candidate.now.flow.now.steps }
    requires before { (l : ℕ) → l < k → StepHoldsOf candidate.now l }
    ensures { MatchResult result (λ _. StepHoldsOf candidate.now k) (λ fault. MayFailOf candidate.now fault) }
{
    let envs = candidate.envs;
    let step = &candidate.flow.steps.as_slice()[k];
    let from = &envs[step.from.0 as usize];
    let to = &envs[step.to.0 as usize];
    let id = StepId(k as u16);
    let shared = candidate.flow.file.shared.len();
    let prims = step.prims.as_slice();
    match run(alloc, shared, from, prims, candidate.observer)? {
        Outcome::FailsAt(prim) => Err(VerifyFault::TypeAt { step: id, prim }),
        Outcome::LeadsTo(reached) => match first_above(&reached, to) {
            Some(var) => Err(VerifyFault::FlowAt { step: id, var }),
            None => Ok(()),
        },
    }
}

/// Judges the steps in order, each by its conditions and then by what it leads to.
pub(crate) fn verify_steps(alloc: Global, candidate: &Candidate<'_>) -> Result<(), VerifyFault>
    requires { CanTakeSteps candidate.now }
    ensures { MatchResult result (λ _. (k : ℕ) → k < length candidate.now.flow.now.steps → StepHoldsOf candidate.now k)
        (λ fault. MayFailOf candidate.now fault) }
{
    for k in 0..candidate.flow.steps.len() {
        verify_step(alloc, candidate, k)?;
    }
    Ok(())
}
