// An outline with the items that claims need. First all claims are located, then the items are counted, and only
// then is any of them made: so each refusal comes where it should, and takes no memory. The outline is taken by
// value and not copied: a clause keeps how many names it may have, which can't be read, so no copy could be shown to
// be equal.
ghost use Rattle.std.specs.Prelude.{◌≡◌, ◌+◌, ◌<◌, ◌≤◌, ℕ, IfOk, IfErr, OnOk, All, Err, length};
ghost use Rattle.plc_lang.specs.Fit.{FileFits};
ghost use Rattle.plc_flow.specs.WellSorted.{FlowIsWellSorted};
ghost use Rattle.plc_logic.specs.Fit.{OutlineFits};
ghost use Rattle.plc_at.specs.Claims.{ClaimFits};
ghost use Rattle.plc_at.specs.Extended.{added_items, extended, most_items, AreLocated, IsFirstUnlocated};
ghost use Rattle.plc_at.specs.Needs.{IsFirstUnlocatedOrNone, IsRefusal};

use crate::adding::add_items;
use crate::claim::LocationClaim;
use crate::fault::AtFault;
use crate::needs::{count_for, is_located, need_of};
use plc_auto::Observer;
use plc_base::{NoMemory, What1};
use plc_flow::Flow;
use plc_logic::Outline;
use plc_type::Env;
use std::alloc::Global;

/// The place of the first claim that isn't located; `None` where each is.
fn first_unlocated(
    claims: &[LocationClaim],
    flow: &Flow,
    observer: &Observer,
    typing: &[Env],
) -> Option<usize>
    ensures { IsFirstUnlocatedOrNone flow.now observer.now typing.now claims.now result }
{
    for (i, claim) in claims.iter().enumerate() {
        if !is_located(claim, flow, observer, typing) {
            return Some(i);
        }
    }
    None
}

/// How many items the claims add.
fn count_added(claims: &[LocationClaim], flow: &Flow, observer: &Observer, typing: &[Env]) -> usize
    ensures count { result ≡ length (added_items flow.now observer.now typing.now claims.now) }
    ensures few { result ≤ length claims.now }
{
    let mut count = 0;
    for claim in claims {
        count += count_for(need_of(claim, flow, observer, typing));
    }
    count
}

/// The number of a claim. More than 2^32 claims count as memory that runs out.
fn number_of(at: usize) -> Result<u32, NoMemory>
    ensures { IfOk result (λ n. n ≡ at) }
{
    match u32::try_from(at) {
        Ok(n) => Ok(n),
        Err(_) => Err(NoMemory),
    }
}

/// Refuses where a claim isn't located.
fn all_located(
    claims: &[LocationClaim],
    flow: &Flow,
    observer: &Observer,
    typing: &[Env],
) -> Result<(), AtFault>
    ensures ok { OnOk result (AreLocated flow.now observer.now typing.now claims.now) }
    ensures err { (before : ℕ)
        → IfErr result (IsRefusal flow.now observer.now typing.now claims.now before) }
{
    match first_unlocated(claims, flow, observer, typing) {
        Some(at) => Err(AtFault::Unlocated {
            claim: number_of(at)?,
        }),
        None => Ok(()),
    }
}

/// Refuses where a claim isn't located, and else where after so many items those of the claims are too many.
fn addable(
    before: usize,
    claims: &[LocationClaim],
    flow: &Flow,
    observer: &Observer,
    typing: &[Env],
) -> Result<(), AtFault>
    requires { before ≤ most_items }
    ensures located { OnOk result (AreLocated flow.now observer.now typing.now claims.now) }
    ensures few { OnOk result
        (before + length (added_items flow.now observer.now typing.now claims.now) ≤ most_items) }
    ensures err { IfErr result (IsRefusal flow.now observer.now typing.now claims.now before) }
{
    all_located(claims, flow, observer, typing)?;
    let most = What1::Items.most();
    if count_added(claims, flow, observer, typing) > most as usize - before {
        return Err(AtFault::Items { count: most + 1 });
    }
    Ok(())
}

/// The outline with the items after its own that the claims need, in the order of the claims. With the local's type
/// and its locations at the label's point, which `typing` has, a claim adds
/// - nothing where all these locations are claimed;
/// - else `at LABEL: VAR == null or not retired(VAR)` where those in which the node isn't retired are claimed;
/// - else `at LABEL: VAR == null or retired(VAR)` where the pointer is valid and those in which it is retired are
///   claimed.
///
/// `Unlocated` names the first claim of which none of these is so, and comes exactly where there is one. `Items` comes
/// exactly where all are located and the items of the outline and of the claims are more than 256. `Memory` comes where
/// memory runs out; a first unlocated claim whose number has more than 32 bits counts as that. A file without an
/// outline is extended from the empty one of depth 0. A refusal drops the outline.
pub fn extend(
    alloc: Global,
    claims: &[LocationClaim],
    flow: &Flow,
    observer: &Observer,
    typing: &[Env],
    mut outline: Outline,
) -> Result<Outline, AtFault>
    requires outline { OutlineFits flow.now.file outline }
    requires file { FileFits flow.now.file }
    requires sorted { FlowIsWellSorted flow.now }
    requires claims { All (ClaimFits flow.now) claims.now }
    requires typing { length typing.now ≡ flow.now.points }
    ensures extended { IfOk result (λ e. e ≡ extended flow.now observer.now typing.now claims.now outline) }
    ensures located { IfOk result (λ _. AreLocated flow.now observer.now typing.now claims.now) }
    ensures fits { IfOk result (λ e. OutlineFits flow.now.file e) }
    ensures unlocated { (i : ℕ) → result ≡ Err (AtFault.Unlocated i)
        → IsFirstUnlocated flow.now observer.now typing.now claims.now i }
    ensures items { (n : ℕ) → result ≡ Err (AtFault.Items n) → (n ≡ most_items + 1)
        × AreLocated flow.now observer.now typing.now claims.now
        × (most_items < length (extended flow.now observer.now typing.now claims.now outline).items) }
{
    addable(outline.items.len(), claims, flow, observer, typing)?;
    add_items(alloc, &mut outline.items, claims, flow, observer, typing)?;
    Ok(outline)
}
