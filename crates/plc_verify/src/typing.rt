// Whether environments are a typing of a flow, judged in order: how many there are, each point, each entry, each
// step.
ghost use Rattle.std.specs.Prelude.{◌≡◌, ◌<◌, ℕ, MatchOption, MatchResult, length};
ghost use Rattle.plc_lang.specs.Fit.{FileFits};
ghost use Rattle.plc_flow.specs.WellFormed.{IsWellFormed};
ghost use Rattle.plc_flow.specs.Skeleton.{skeleton_of};
ghost use Rattle.plc_xfer.specs.Typings.{IsTyping};
ghost use Rattle.plc_verify.specs.Environments.{completed, EntryHolds, IsFirstNarrow};
ghost use Rattle.plc_verify.specs.Tests.{MayFail};

use crate::environments::first_bad_point;
use crate::fault::{Slot, VerifyFault};
use crate::steps::{Candidate, verify_steps};
use plc_auto::Observer;
use plc_base::OpId;
use plc_flow::Flow;
use plc_type::Env;
use std::alloc::Global;

/// The first operation at whose entry not every location is in W.
fn first_narrow_entry(flow: &Flow, observer: &Observer, envs: &[Env]) -> Option<OpId>
    requires flow { IsWellFormed flow.now }
    requires file { FileFits flow.now.file }
    requires one_each { length envs.now ≡ flow.now.points }
    ensures { MatchOption result
        ((i : ℕ) → EntryHolds observer.now (skeleton_of flow.now) envs.now i)
        (λ op. IsFirstNarrow observer.now (skeleton_of flow.now) envs.now op.0) }
{
    let all = observer.all();
    for (o, gate) in flow.gates.as_slice().iter().enumerate() {
        if !all.within(&envs[gate.entry.0 as usize].w) {
            return Some(OpId(o as u16));
        }
    }
    None
}

/// Ok exactly where the environments, with types of shared pointers, are a typing of the flow.
pub(crate) fn verify_typing(
    alloc: Global,
    flow: &Flow,
    observer: &Observer,
    envs: &[Env],
) -> Result<(), VerifyFault>
    requires flow { IsWellFormed flow.now }
    requires file { FileFits flow.now.file }
    ensures { MatchResult result
        (λ _. IsTyping observer.now (skeleton_of flow.now) (completed flow.now envs.now))
        (λ fault. MayFail observer.now (skeleton_of flow.now) (completed flow.now envs.now) fault) }
{
    if envs.len() != flow.points as usize {
        return Err(VerifyFault::EnvCount {
            have: envs.len() as u64,
            want: flow.points as u32,
        });
    }
    if let Some(point) = first_bad_point(flow, observer, envs) {
        return Err(VerifyFault::EnvAt { point });
    }
    if let Some(op) = first_narrow_entry(flow, observer, envs) {
        return Err(VerifyFault::EntryAt { op, var: Slot::W });
    }
    let candidate = Candidate {
        flow,
        observer,
        envs,
    };
    verify_steps(alloc, &candidate)
}
