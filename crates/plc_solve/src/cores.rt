// What of a branch a closed subtree needs. A core is a list of literals that are all on the branch, and on
// which alone the subtree's nodes are right. A longer branch makes more equal, so the nodes close every
// branch that holds the core: a child whose core lacks its own literal stands in place of its split, and
// nothing is walked again to find that out.
ghost use Rattle.std.specs.Prelude.{◌≡◌, ◌≢◌, ◌<◌, ◌∷◌, [], IsTrue, OnOk, IfSome, Contains, false, length};
ghost use Rattle.plc_solve.specs.Search.{TakesCore};

use plc_ground::Lit;
use std::alloc::AllocError;

/// Whether a core has the literal.
pub(crate) fn has(core: &[Lit], l: Lit) -> bool
    ensures yes { IsTrue result → Contains core.now l }
    ensures no { result ≡ false → Contains core.now l → ⊥ }
{
    core.contains(&l)
}

/// Whether two literals are one.
fn is_one(l: Lit, own: Lit) -> bool
    ensures yes { IsTrue result → l ≡ own }
    ensures no { result ≡ false → l ≢ own }
{
    l == own
}

/// The place of a literal from `start` up to `end`.
fn place_between(core: &[Lit], l: Lit, start: usize, end: usize) -> Option<usize>
    ensures { IfSome result (λ k. (k < length core.now) × Contains core.now l) }
{
    for k in start..end {
        if k < core.len() && is_one(core[k], l) {
            return Some(k);
        }
    }
    None
}

/// The place of a literal among the first `known`, looked for from `start` on.
fn place_of(core: &[Lit], l: Lit, known: usize, start: usize) -> Option<usize>
    ensures { IfSome result (λ k. (k < length core.now) × Contains core.now l) }
{
    match place_between(core, l, start, known) {
        Some(k) => Some(k),
        None => place_between(core, l, 0, start),
    }
}

/// Adds a literal to a core, where it isn't the child's own and not among the first `known` yet. `start` is
/// where to look first, and the answer where to look for the literal after it: two cores have what they share
/// mostly in one order.
fn add_literal(
    core: &mut Vec<Lit>,
    own: Lit,
    l: Lit,
    known: usize,
    start: usize,
) -> Result<usize, AllocError>
    ensures { OnOk result (TakesCore core.old.items core.new.items own (l ∷ [])) }
{
    if is_one(l, own) {
        return Ok(start);
    }
    if let Some(k) = place_of(core, l, known, start) {
        return Ok(k + 1);
    }
    core.push(l)?;
    Ok(start)
}

/// Adds a child's core, which has no literal twice, to that of its split, but for the child's own literal.
pub(crate) fn add_core(core: &mut Vec<Lit>, own: Lit, more: &[Lit]) -> Result<(), AllocError>
    ensures { OnOk result (TakesCore core.old.items core.new.items own more.now) }
{
    core.reserve(more.len())?;
    let known = core.len();
    let mut start = 0;
    for l in more {
        start = add_literal(core, own, *l, known, start)?;
    }
    Ok(())
}
