// Why two terms are equal: few literals of the branch that make them so. The forest of all joins proposes some. They
// are put into a table that starts empty, and are enough where the two come together there: so nothing has to be proved
// of the forest, and few literals are put.
//
// Should they not be enough, which doesn't happen, all literals are tried. They are put into an empty table, the oldest
// first, until the two come together. The one at which they do is needed for what was put before it. So it is put first
// in the next pass, which goes no further than to it; and so on, until those that were needed are enough. The least
// list is not looked for.
ghost use Rattle.std.specs.Prelude.{◌≡◌, ◌<◌, ◌≤◌, All, IsTrue, IfOk, OnOk, Ok, length, slice_index, true};
ghost use Rattle.plc_ground.specs.Changes.{IsBack};
ghost use Rattle.plc_ground.specs.Classes.{IsTable};
ghost use Rattle.plc_ground.specs.Fit.{IsWellFormed, LitFits};
ghost use Rattle.plc_ground.specs.Equality.{Same};
ghost use Rattle.plc_solve.specs.Search.{CanExplain, Explains, PutsSome, IsOfSome};

use crate::chain::{Forest, Pair, chain, propose};
use plc_ground::{
    Applications, Equalities, GroundSet, Lit, all_apart, classes, mark, put, take_back,
};
use std::alloc::{AllocError, Global};

/// Whether the two share a class.
fn are_together(class: &[u32], pair: Pair) -> bool
    requires first { pair.a < length class.now }
    requires second { pair.b < length class.now }
    ensures { IsTrue result → slice_index class.now pair.a ≡ slice_index class.now pair.b }
{
    class[pair.a as usize] == class[pair.b as usize]
}

/// The place before `bound` of a literal that is needed, where those before `bound` and what the table has
/// make the two equal: that at which they come together, where all before it are put, the oldest first.
fn needed(
    set: &GroundSet,
    table: &Applications,
    branch: &[Lit],
    bound: usize,
    equal: &mut Equalities,
    pair: Pair,
) -> Result<usize, AllocError>
    requires asked { CanExplain set.now table.now branch.now pair }
    requires some { 0 < bound }
    requires bound { bound ≤ length branch.now }
    requires closure { IsOfSome set.now equal.old.class }
    ensures within { IfOk result (λ k. k < bound) }
    ensures back { OnOk result (IsBack equal.old equal.new) }
{
    let start = mark(equal);
    let mut k = 0;
    'put: while k < bound && !are_together(classes(equal), pair) {
        put(set, table, equal, branch[k])?;
        k += 1;
    }
    take_back(equal, start);
    Ok(k.saturating_sub(1))
}

/// Puts the literal at a place of the branch, if there is one, and adds it to the core.
fn put_at(
    set: &GroundSet,
    table: &Applications,
    branch: &[Lit],
    k: usize,
    equal: &mut Equalities,
    core: &mut Vec<Lit>,
) -> Result<(), AllocError>
    requires well { IsWellFormed set.now }
    requires table { IsTable set.now.terms table.now }
    requires fit { All (LitFits set.now) branch.now }
    requires puts { PutsSome set.now branch.now core.old.items equal.old.class }
    ensures { OnOk result (PutsSome set.now branch.now core.new.items equal.new.class) }
{
    if k >= branch.len() {
        return Ok(());
    }
    put(set, table, equal, branch[k])?;
    core.push(branch[k])?;
    Ok(())
}

/// Puts the literals at these places of the branch, until the two come together. False where they don't.
fn put_places(
    set: &GroundSet,
    table: &Applications,
    branch: &[Lit],
    places: &[usize],
    equal: &mut Equalities,
    pair: Pair,
    core: &mut Vec<Lit>,
) -> Result<bool, AllocError>
    requires asked { CanExplain set.now table.now branch.now pair }
    requires closure { PutsSome set.now branch.now core.old.items equal.old.class }
    ensures { result ≡ Ok true → Explains set.now branch.now pair.a pair.b core.new.items }
{
    for place in places {
        put_at(set, table, branch, *place, equal, core)?;
        if are_together(classes(equal), pair) {
            return Ok(true);
        }
    }
    Ok(false)
}

/// Literals of the branch that make two terms equal: those that the forest proposes. False where they aren't enough.
fn explain_by_forest(
    alloc: Global,
    set: &GroundSet,
    table: &Applications,
    branch: &[Lit],
    forest: &mut Forest,
    pair: Pair,
) -> Result<bool, AllocError>
    requires asked { CanExplain set.now table.now branch.now pair }
    ensures { result ≡ Ok true → Explains set.now branch.now pair.a pair.b forest.new.way.items }
{
    propose(set, forest, pair)?;
    forest.way.truncate(0);
    let mut equal = all_apart(alloc, set)?;
    let found = put_places(
        set,
        table,
        branch,
        &forest.places,
        &mut equal,
        pair,
        &mut forest.way,
    );
    drop(equal);
    found
}

/// Finds literals of the branch that are enough, and puts them. False where it found none.
fn put_needed(
    set: &GroundSet,
    table: &Applications,
    branch: &[Lit],
    equal: &mut Equalities,
    pair: Pair,
    core: &mut Vec<Lit>,
) -> Result<bool, AllocError>
    requires asked { CanExplain set.now table.now branch.now pair }
    requires closure { PutsSome set.now branch.now core.old.items equal.old.class }
    ensures { result ≡ Ok true → Explains set.now branch.now pair.a pair.b core.new.items }
{
    let mut bound = branch.len();
    'needed: while bound > 0 && !are_together(classes(equal), pair) {
        let k = needed(set, table, branch, bound, equal, pair)?;
        put_at(set, table, branch, k, equal, core)?;
        bound = k;
    }
    Ok(are_together(classes(equal), pair))
}

/// Literals of the branch that make two terms equal which the branch makes equal, found by puts.
fn explain_by_puts(
    alloc: Global,
    set: &GroundSet,
    table: &Applications,
    branch: &[Lit],
    pair: Pair,
    way: &mut Vec<Lit>,
) -> Result<(), AllocError>
    requires asked { CanExplain set.now table.now branch.now pair }
    requires same { Same set.now.terms branch.now pair.a pair.b }
    ensures { OnOk result (Explains set.now branch.now pair.a pair.b way.new.items) }
{
    let mut equal = all_apart(alloc, set)?;
    way.truncate(0);
    let found = put_needed(set, table, branch, &mut equal, pair, way);
    drop(equal);
    if found? {
        return Ok(());
    }
    way.truncate(0);
    way.extend_from_slice(branch)?;
    Ok(())
}

/// Finds literals of the branch that make two terms equal which the branch makes equal, none of them twice: the
/// forest's way. The one error is that memory runs out.
pub(crate) fn explain(
    alloc: Global,
    set: &GroundSet,
    table: &Applications,
    branch: &[Lit],
    forest: &mut Forest,
    pair: Pair,
) -> Result<(), AllocError>
    requires asked { CanExplain set.now table.now branch.now pair }
    requires same { Same set.now.terms branch.now pair.a pair.b }
    ensures { OnOk result (Explains set.now branch.now pair.a pair.b forest.new.way.items) }
{
    if chain(set, branch, forest, pair)? {
        return Ok(());
    }
    if explain_by_forest(alloc, set, table, branch, forest, pair)? {
        return Ok(());
    }
    explain_by_puts(alloc, set, table, branch, pair, &mut forest.way)
}
