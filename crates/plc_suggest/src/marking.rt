// A flow marked by spots: each step has a list of its own, the claims in front of its primitives. The claims are put
// into the lists in one walk over the spots; then the primitives, in one walk over the steps. So marking costs no more
// than spots and steps together.
ghost use Rattle.std.specs.Prelude.{◌≡◌, ◌<◌, ◌++◌, [], ℕ, All, IfOk, OnOk, length, replicate, get_or};
ghost use Rattle.plc_suggest.specs.Marking.{HasClaims, HaveLists, IsOfStep, lists_of, prims_at};

use crate::spot::Spot;
use plc_base::{Items, NoMemory};
use plc_flow::Flow;
use plc_infer::Edge;
use plc_lang::Prim;
use std::alloc::Global;

/// The primitives of each step of a flow, with the claims at the spots of two lists in front.
pub(crate) fn marked_lists(
    alloc: Global,
    flow: &Flow,
    first: &[Spot],
    rest: &[Spot],
) -> Result<Vec<Items<Prim>>, NoMemory>
    requires first { All (IsOfStep (length flow.now.steps)) first.now }
    requires rest { All (IsOfStep (length flow.now.steps)) rest.now }
    ensures { IfOk result (λ lists. lists.items ≡ lists_of (first.now ++ rest.now) 0 flow.now.steps) }
{
    let mut lists = empty_lists(alloc, flow.steps.len())?;
    put_claims(first, &mut lists)?;
    put_claims(rest, &mut lists)?;
    put_prims(flow, &mut lists)?;
    Ok(lists)
}

/// So many empty lists.
fn empty_lists(alloc: Global, count: usize) -> Result<Vec<Items<Prim>>, NoMemory>
    ensures { IfOk result (λ lists. lists.items ≡ replicate count []) }
{
    let mut lists = Vec::new(alloc);
    for _ in 0..count {
        lists.push(Items::new(alloc))?;
    }
    Ok(lists)
}

/// Puts the claim of each spot at the end of the list of its step.
fn put_claims(spots: &[Spot], lists: &mut Vec<Items<Prim>>) -> Result<(), NoMemory>
    requires { All (IsOfStep (length lists.old.items)) spots.now }
    ensures { OnOk result (HasClaims lists.old.items lists.new.items spots.now) }
{
    for spot in spots {
        lists[spot.step.0 as usize].push(Prim::Active { p: spot.var })?;
    }
    Ok(())
}

/// Puts the primitives of each step at the end of its list.
fn put_prims(flow: &Flow, lists: &mut Vec<Items<Prim>>) -> Result<(), NoMemory>
    requires { length lists.old.items ≡ length flow.now.steps }
    ensures count { OnOk result (length lists.new.items ≡ length lists.old.items) }
    ensures prims { OnOk result ((k : ℕ) → k < length lists.old.items
        → get_or lists.new.items k [] ≡ get_or lists.old.items k [] ++ prims_at flow.now k) }
{
    let steps = flow.steps.as_slice();
    for k in 0..steps.len() {
        let step = &steps[k];
        append(step.prims.as_slice(), &mut lists[k])?;
    }
    Ok(())
}

/// Puts primitives at the end of a list.
fn append(prims: &[Prim], list: &mut Items<Prim>) -> Result<(), NoMemory>
    ensures { OnOk result (list.new ≡ list.old ++ prims.now) }
{
    for prim in prims {
        list.push(*prim)?;
    }
    Ok(())
}

/// The steps of a flow, each with a list of primitives in place of its own.
pub(crate) fn marked_edges<'a>(
    alloc: Global,
    flow: &Flow,
    lists: &'a [Items<Prim>],
) -> Result<Vec<Edge<'a>>, NoMemory>
    requires { length lists.now ≡ length flow.now.steps }
    ensures { IfOk result (λ edges. HaveLists flow.now lists.now edges.items) }
{
    let steps = flow.steps.as_slice();
    let mut edges = Vec::new(alloc);
    for k in 0..steps.len() {
        let step = &steps[k];
        edges.push(Edge {
            from: step.from,
            to: step.to,
            prims: lists[k].as_slice(),
        })?;
    }
    Ok(edges)
}
