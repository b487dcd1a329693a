// Still obligations. Most steps of most files change nothing that another thread sees, so most obligations
// need no ground set: what is to hold after the step held before it.
ghost use Rattle.std.specs.Prelude.{◌≡◌, not};
ghost use Rattle.std.specs.List.{list_any};
ghost use Rattle.plc_vocabulary.specs.Parts.{executed};
ghost use Rattle.plc_oblig.specs.Still.{is_shared, changes, is_still, StillObligationsAreKept};

use plc_flow::Flow;
use plc_lang::{Prim, Var};
use plc_logic::Outline;
use plc_vocabulary::{Obligation, executed};

/// Whether the variable is a shared pointer.
fn is_shared(p: Var) -> bool
    ensures { result ≡ is_shared p }
{
    matches!(p, Var::Shared(_))
}

/// Whether the primitive makes a node, writes a field or an auxiliary field, retires, or gives a shared
/// pointer a value or a mark.
fn changes(prim: &Prim) -> bool
    ensures { result ≡ changes prim.now }
{
    match *prim {
        Prim::Null { p } => is_shared(p),
        Prim::Copy { p, .. } => is_shared(p),
        Prim::Load { p, .. } => is_shared(p),
        Prim::Mark { p, .. } => is_shared(p),
        Prim::Unmark { p, .. } => is_shared(p),
        Prim::New { .. } => true,
        Prim::Store { .. } => true,
        Prim::StoreNull { .. } => true,
        Prim::DataStore { .. } => true,
        Prim::RefreshStore { .. } => true,
        Prim::Ghost { .. } => true,
        Prim::Call { func, .. } => func.is_retire(),
        _ => false,
    }
}

/// Whether a primitive changes what other threads see.
fn any_changes(prims: &[Prim]) -> bool
    ensures { result ≡ list_any changes prims.now }
{
    prims.iter().any(|prim| changes(prim))
}

/// Whether no primitive that is executed does.
fn is_quiet(flow: &Flow, o: &Obligation) -> bool
    ensures { result ≡ not (list_any changes (executed flow.now o.now)) }
{
    !any_changes(executed(flow, o))
}

/// Whether the obligation is still: it says an invariant, or a clause of another thread, after a step that
/// has no `new`, no store and no refresh of a field, no write of an auxiliary field, no call of `retire` and
/// no primitive that gives a shared pointer a value. It takes no memory.
pub fn still(flow: &Flow, outline: &Outline, o: &Obligation) -> bool
    ensures { result ≡ is_still flow.now outline.now o.now }
{
    match *o {
        Obligation::Own { clause, .. } => {
            (clause as usize) < outline.invariants.len() && is_quiet(flow, o)
        }
        Obligation::Other { .. } => is_quiet(flow, o),
        _ => false,
    }
}

/// The law that a still obligation is kept: its ground set has no model, and needn't be made.
pub fn still_obligations_are_kept()
    ensures { StillObligationsAreKept }
{}
