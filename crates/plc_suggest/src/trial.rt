// A trial: a row of spots is left out at once, and inference goes on from the environments that were reached with them.
// More claims only lower what a step leads to, so these environments are below those to come, and only the steps in
// front of which a spot was left out have to be looked at first. Where a trial ends without a typing, the environments
// are put back, so that the next one begins where this one did.
ghost use Rattle.std.specs.Prelude.{◌≡◌, ◌++◌, IfOk, drop};
ghost use Rattle.plc_suggest.specs.Marking.{steps_of};
ghost use Rattle.plc_suggest.specs.Trials.{CanGoOn, CanTry, IsTrialOf};

use crate::marking::{marked_edges, marked_lists};
use crate::parts::{Parts, marked_program};
use crate::spot::Spot;
use plc_base::NoMemory;
use plc_infer::resume;
use plc_type::Env;
use std::alloc::Global;

/// Whether the program has a typing that is marked by the spots of `kept` and by those from `after` on, where it has
/// one with the spots from `at` on. `envs` holds the strongest of the latter, and then that of the former, if any.
pub(crate) fn try_without(
    alloc: Global,
    parts: &Parts,
    kept: &[Spot],
    at: usize,
    after: usize,
    envs: &mut Vec<Env>,
) -> Result<bool, NoMemory>
    requires { CanTry parts.now kept.now at after envs.old.items }
    ensures { IfOk result
        (IsTrialOf parts.now (kept.now ++ drop after parts.now.spots.now) envs.old.items envs.new.items) }
{
    let changed = steps_of(alloc, &parts.spots[at..after])?;
    resume_marked(alloc, parts, kept, &parts.spots[after..], &changed, envs)
}

/// The steps of spots, in order.
fn steps_of(alloc: Global, spots: &[Spot]) -> Result<Vec<u16>, NoMemory>
    ensures { IfOk result (λ steps. steps.items ≡ steps_of spots.now) }
{
    let mut steps = Vec::new(alloc);
    for spot in spots {
        steps.push(spot.step.0)?;
    }
    Ok(steps)
}

/// Whether the program that is marked by the spots of two lists has a typing. `envs` is where inference begins, and is
/// as before where there is none.
fn resume_marked(
    alloc: Global,
    parts: &Parts,
    first: &[Spot],
    rest: &[Spot],
    changed: &[u16],
    envs: &mut Vec<Env>,
) -> Result<bool, NoMemory>
    requires { CanGoOn parts.now first.now rest.now changed.now envs.old.items }
    ensures { IfOk result (IsTrialOf parts.now (first.now ++ rest.now) envs.old.items envs.new.items) }
{
    let lists = marked_lists(alloc, parts.flow, first, rest)?;
    let edges = marked_edges(alloc, parts.flow, &lists)?;
    let program = marked_program(parts, &edges);
    resume(alloc, &program, parts.index, parts.observer, changed, envs)
}
