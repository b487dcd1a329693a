// The items that claims add to an outline: `VAR == null or not retired(VAR)` or `VAR == null or retired(VAR)` at the
// label of each claim that needs one. Claims count the pointer locals of an operation, clauses all its locals, so a
// local's place is looked up by the operations of the labels, which are noted once for all claims.
ghost use Rattle.std.specs.Prelude.{◌≡◌, ◌++◌, ◌∷◌, [], All, IfOk, OnOk};
ghost use Rattle.plc_lang.specs.Fit.{FileFits};
ghost use Rattle.plc_at.specs.Claims.{ClaimFits};
ghost use Rattle.plc_at.specs.Extended.{claimed_place, null_or_retired, item_at, items_for, added_items};
ghost use Rattle.plc_at.specs.Needs.{answered, CanBeAdded};

use crate::claim::LocationClaim;
use crate::names::{locals_of_label, ops_of_labels};
use crate::needs::{Need, need_of};
use plc_auto::Observer;
use plc_base::{Items, MOST_BOUND, Names, NoMemory};
use plc_flow::Flow;
use plc_lang::pointer_place;
use plc_logic::{Base, Clause, Item, Literal, Site, Term};
use plc_type::Env;
use std::alloc::Global;

/// The place of a claim's local among all locals of its operation.
fn claimed_place(claim: &LocationClaim, flow: &Flow, ops: &[Option<usize>]) -> u16
    requires { CanBeAdded flow.now ops.now claim.now }
    ensures { result ≡ claimed_place flow.now claim.now }
{
    match pointer_place(locals_of_label(flow, ops, claim.label), claim.local) {
        Some(place) => place as u16,
        None => 0,
    }
}

/// That the local at a place is null or its node retired, or null or its node not retired.
fn null_or_retired(alloc: Global, place: u16, yes: bool) -> Result<Clause, NoMemory>
    ensures { IfOk result (λ clause. clause ≡ null_or_retired place yes) }
{
    let mut literals = Items::new(alloc);
    literals.push(Literal::Same {
        a: Term::Local(place),
        b: Term::Null,
        equal: true,
    })?;
    literals.push(Literal::Retired {
        x: Base::Local(place),
        yes,
    })?;
    Ok(Clause {
        bound: Names::new(alloc, MOST_BOUND),
        literals,
    })
}

/// A site of one label.
fn site_of(alloc: Global, label: u16) -> Result<Site, NoMemory>
    ensures { IfOk result (λ site. site ≡ Site.At (label ∷ [])) }
{
    let mut labels = Items::new(alloc);
    labels.push(label)?;
    Ok(Site::At(labels))
}

/// The item at a claim's label that says of its local that it is null or its node retired, or not retired.
fn item_at(
    alloc: Global,
    claim: &LocationClaim,
    flow: &Flow,
    ops: &[Option<usize>],
    yes: bool,
) -> Result<Item, NoMemory>
    requires { CanBeAdded flow.now ops.now claim.now }
    ensures { IfOk result (λ item. item ≡ item_at flow.now claim.now yes) }
{
    let place = claimed_place(claim, flow, ops);
    let site = site_of(alloc, claim.label)?;
    let clause = null_or_retired(alloc, place, yes)?;
    Ok(Item { site, clause })
}

/// Adds what a claim needs.
fn add_needed(
    alloc: Global,
    items: &mut Items<Item>,
    claim: &LocationClaim,
    need: Need,
    flow: &Flow,
    ops: &[Option<usize>],
) -> Result<(), NoMemory>
    requires { CanBeAdded flow.now ops.now claim.now }
    ensures { OnOk result (items.new ≡ items.old ++ items_for flow.now claim.now (answered need)) }
{
    let yes = match need {
        Need::Unretired => false,
        Need::RetiredNode => true,
        Need::Nothing | Need::Unlocated => return Ok(()),
    };
    items.push(item_at(alloc, claim, flow, ops, yes)?)?;
    Ok(())
}

/// Adds what each claim needs, in their order.
pub(crate) fn add_items(
    alloc: Global,
    items: &mut Items<Item>,
    claims: &[LocationClaim],
    flow: &Flow,
    observer: &Observer,
    typing: &[Env],
) -> Result<(), NoMemory>
    requires file { FileFits flow.now.file }
    requires claims { All (ClaimFits flow.now) claims.now }
    ensures { OnOk result
        (items.new ≡ items.old ++ added_items flow.now observer.now typing.now claims.now) }
{
    let ops = ops_of_labels(alloc, flow)?;
    for claim in claims {
        let need = need_of(claim, flow, observer, typing);
        add_needed(alloc, items, claim, need, flow, &ops)?;
    }
    Ok(())
}
