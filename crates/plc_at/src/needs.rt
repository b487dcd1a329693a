// What a claim needs beyond the type of its local. An address whose node isn't retired stands in an unretired
// location, and that of a valid pointer whose node is retired in another one; so one literal about the node may
// leave few enough locations. The first that is enough is taken. It follows from the types alone, so it is known
// whether each claim is located before any item is made.
ghost use Rattle.std.specs.Prelude.{◌≡◌, ◌≤◌, ◌↔◌, IsTrue, Some, length};
ghost use Rattle.plc_flow.specs.declared.flow.Flow.{Flow as AFlow};
ghost use Rattle.plc_at.specs.declared.claim.LocationClaim.{LocationClaim as AClaim};
ghost use Rattle.plc_at.specs.Extended.{local_type, env_of, claimed_type, need, need_of, items_for, IsLocated};
ghost use Rattle.plc_at.specs.Needs.{answered};

use crate::claim::LocationClaim;
use plc_auto::Observer;
use plc_base::{Mask, PointId};
use plc_flow::Flow;
use plc_type::{Env, PtrType};

/// What a claim needs.
#[derive(Clone, Copy)]
pub(crate) enum Need {
    /// The type says it already.
    Nothing,
    /// That the node isn't retired.
    Unretired,
    /// That the node is retired.
    RetiredNode,
    /// None of these is enough.
    Unlocated,
}

/// The type of a pointer local in an environment; that of null where it has none.
fn type_in(local: u16, env: &Env) -> PtrType
    ensures { result ≡ local_type local (Some env.now) }
{
    match env.locals.get(local as usize) {
        Some(found) => *found,
        None => PtrType::null(),
    }
}

/// Its type at a point; that of null where there is no environment.
fn type_at(local: u16, point: PointId, typing: &[Env]) -> PtrType
    ensures { result ≡ local_type local (env_of typing.now (Some point)) }
{
    match typing.get(point.0 as usize) {
        Some(env) => type_in(local, env),
        None => PtrType::null(),
    }
}

/// The type of the claim's local at the label's point.
fn claimed_type(claim: &LocationClaim, flow: &Flow, typing: &[Env]) -> PtrType
    ensures { result ≡ claimed_type flow.now typing.now claim.now }
{
    match flow.labels.get(claim.label as usize) {
        Some(point) => type_at(claim.local, *point, typing),
        None => PtrType::null(),
    }
}

/// What it takes that a pointer of this type stands in one of these locations.
fn need_for(t: PtrType, set: &Mask, observer: &Observer) -> Need
    ensures { answered result ≡ need observer.now t set.now }
{
    let unretired = observer.unretired();
    if t.m.within(set) {
        return Need::Nothing;
    }
    if t.m.meet(&unretired).within(set) {
        return Need::Unretired;
    }
    if t.g.is_safe() && t.m.within(&set.union(&unretired)) {
        return Need::RetiredNode;
    }
    Need::Unlocated
}

/// What a claim needs under a typing.
pub(crate) fn need_of(
    claim: &LocationClaim,
    flow: &Flow,
    observer: &Observer,
    typing: &[Env],
) -> Need
    ensures { answered result ≡ need_of flow.now observer.now typing.now claim.now }
{
    need_for(claimed_type(claim, flow, typing), &claim.set, observer)
}

/// Whether a claim follows from its type, or from an item that can be added.
pub(crate) fn is_located(
    claim: &LocationClaim,
    flow: &Flow,
    observer: &Observer,
    typing: &[Env],
) -> bool
    ensures { IsTrue result ↔ IsLocated flow.now observer.now typing.now claim.now }
{
    match need_of(claim, flow, observer, typing) {
        Need::Nothing | Need::Unretired | Need::RetiredNode => true,
        Need::Unlocated => false,
    }
}

/// How many items it takes to give a claim what it needs.
pub(crate) fn count_for(need: Need) -> usize
    ensures count { (flow : AFlow) (claim : AClaim) → result ≡ length (items_for flow claim (answered need)) }
    ensures few { result ≤ 1 }
{
    match need {
        Need::Unretired | Need::RetiredNode => 1,
        Need::Nothing | Need::Unlocated => 0,
    }
}
