// A claim at every spot comes first: where even that is no help, nothing is. A claim never fails, so the primitive that
// fails then stands after the claims in front of its step, and is counted without them. Else the strongest typing with
// all claims is where the search for the needed ones begins.
ghost use Rattle.std.specs.Prelude.{◌≡◌, ◌==◌, ◌≤◌, ◌<◌, ◌+◌, ℕ, Err, IfOk, count_by, length};
ghost use Rattle.plc_lang.specs.Fit.{FileFits};
ghost use Rattle.plc_base.specs.declared.ids.StepId.{StepId as Number};
ghost use Rattle.plc_flow.specs.WellFormed.{IsWellFormed};
ghost use Rattle.plc_flow.specs.Skeleton.{skeleton_of};
ghost use Rattle.plc_xfer.specs.declared.fault.TypeFault.{TypeFault as AFault};
ghost use Rattle.plc_xfer.specs.Typings.{IsStuckAt};
ghost use Rattle.plc_suggest.specs.declared.spot.Spot.{Spot as ASpot};
ghost use Rattle.plc_suggest.specs.Spots.{spots_of, marked};
ghost use Rattle.plc_suggest.specs.Suggestions.{IsSuggestion, most_spots};
ghost use Rattle.plc_suggest.specs.Trials.{AreParts, IsReached};

use crate::marking::{marked_edges, marked_lists};
use crate::parts::{Parts, marked_program};
use crate::search::needed_spots;
use crate::spot::Spot;
use crate::spots::all_spots;
use crate::suggestion::{SuggestFault, Suggestion};
use plc_auto::Observer;
use plc_base::{Items, StepId};
use plc_flow::{Flow, StepsByPoint};
use plc_infer::{InferFault, Typing, entries, infer_program, pointers_by_point};
use std::alloc::Global;

/// The claims in front of steps that a flow needs, or the primitive whose condition fails whatever claims stand there.
/// The spots are in order of steps; of one step shared pointers stand before locals. Each of them is needed beside the
/// others, but a set of other spots may be smaller, and whether the claims are true is not asked.
///
/// # Errors
///
/// `TooMany` where the flow has more than 4,096 spots, and `Memory` where memory runs out.
pub fn suggest(alloc: Global, flow: &Flow, observer: &Observer) -> Result<Suggestion, SuggestFault>
    requires flow { IsWellFormed flow.now }
    requires file { FileFits flow.now.file }
    ensures suggested { IfOk result (IsSuggestion observer.now (skeleton_of flow.now)) }
    ensures few { IfOk result (λ _. length (spots_of (skeleton_of flow.now)) ≤ most_spots) }
    ensures too_many { (count : ℕ) → result ≡ Err (SuggestFault.TooMany count)
        → (count ≡ most_spots + 1) × (most_spots < length (spots_of (skeleton_of flow.now))) }
{
    let locals = pointers_by_point(alloc, flow)?;
    let entries = entries(alloc, flow)?;
    let spots = all_spots(alloc, flow, &locals)?;
    let index = StepsByPoint::of_flow(alloc, flow)?;
    let parts = Parts {
        flow,
        observer,
        shared: flow.file.shared.len() as u16,
        locals: locals.as_slice(),
        entries: entries.as_slice(),
        index: &index,
        spots: spots.as_slice(),
    };
    suggest_among(alloc, &parts)
}

/// The claims that a flow needs, among its spots.
fn suggest_among(alloc: Global, parts: &Parts) -> Result<Suggestion, SuggestFault>
    requires { AreParts parts.now }
    ensures suggested { IfOk result (IsSuggestion parts.now.observer.now (skeleton_of parts.now.flow.now)) }
    ensures memory { (count : ℕ) → result ≡ Err (SuggestFault.TooMany count) → ⊥ }
{
    match infer_marked(alloc, parts) {
        Ok(typing) => {
            let kept = needed_spots(alloc, parts, typing.env.into_vec())?;
            Ok(Suggestion::Found(Items::from_vec(kept)))
        }
        Err(fault) => insufficient(parts, fault),
    }
}

/// The strongest typing of the program with a claim at every spot, or where that is stuck.
fn infer_marked(alloc: Global, parts: &Parts) -> Result<Typing, InferFault>
    requires { AreParts parts.now }
    ensures reached { IfOk result (λ typing. IsReached parts.now parts.now.spots.now typing.env) }
    ensures stuck { (k : Number) (i : ℕ) (why : AFault) → result ≡ Err (InferFault.Stuck k i why)
        → IsStuckAt parts.now.observer.now (marked parts.now.spots.now (skeleton_of parts.now.flow.now)) k.0 i why }
{
    let lists = marked_lists(alloc, parts.flow, &[], parts.spots)?;
    let edges = marked_edges(alloc, parts.flow, &lists)?;
    let program = marked_program(parts, &edges);
    infer_program(alloc, &program, parts.observer)
}

/// That no claims are enough, by the fault of the program with a claim at every spot.
fn insufficient(parts: &Parts, fault: InferFault) -> Result<Suggestion, SuggestFault>
    requires parts { AreParts parts.now }
    requires stuck { (k : Number) (i : ℕ) (why : AFault) → fault ≡ InferFault.Stuck k i why
        → IsStuckAt parts.now.observer.now (marked parts.now.spots.now (skeleton_of parts.now.flow.now)) k.0 i why }
    ensures suggested { IfOk result (IsSuggestion parts.now.observer.now (skeleton_of parts.now.flow.now)) }
    ensures memory { (count : ℕ) → result ≡ Err (SuggestFault.TooMany count) → ⊥ }
{
    match fault {
        InferFault::Stuck { step, prim, fault } => {
            let claims = claims_of(parts.spots, step);
            Ok(Suggestion::Insufficient {
                step,
                prim: (prim as usize - claims) as u16,
                fault,
            })
        }
        InferFault::Memory => Err(SuggestFault::Memory),
    }
}

/// How many of the spots stand in front of a step.
fn claims_of(spots: &[Spot], step: StepId) -> usize
    ensures { result ≡ count_by (λ (x : ASpot). x.step.0 == step.0) spots.now }
{
    spots.iter().filter(|x| x.step.0 == step.0).count()
}
