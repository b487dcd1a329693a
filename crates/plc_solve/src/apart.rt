// Two terms of one class that no model puts there. Only constants that differ by the rule alone can
// be such, and any two of one group must differ. So one pass over a group is enough, with a table that
// has for a class the constant that was seen there last. The table isn't cleared: what it has of
// another pass or another group is told from a constant of this one by a look at both terms.
ghost use Rattle.std.specs.Prelude.{◌≡◌, ◌<◌, ℕ, IsTrue, IfSome, IfNone, Contains, length};
ghost use Rattle.plc_ground.specs.Fit.{IsWellFormed};
ghost use Rattle.plc_ground.specs.Classes.{AreApart};
ghost use Rattle.plc_solve.specs.Search.{AreGroups, IsGroup, IsClassed, IsConflict};

use crate::chain::Pair;
use plc_base::Items;
use plc_ground::{GroundSet, must_differ};

/// Whether two terms share a class and must differ; false where the second isn't a term.
fn is_conflict(set: &GroundSet, class: &[u32], i: usize, j: usize) -> bool
    requires well { IsWellFormed set.now }
    requires one_each { length class.now ≡ length set.now.terms }
    requires first { i < length set.now.terms }
    ensures yes { IsTrue result → IsConflict set.now class.now i j }
    ensures no { IsConflict set.now class.now i j → IsTrue result }
{
    j < set.terms.len() && class[i] == class[j] && must_differ(set, i, j)
}

/// Two constants of a group that share a class.
fn conflict_in(set: &GroundSet, group: &[u32], class: &[u32], last: &mut [u32]) -> Option<Pair>
    requires classed { IsClassed set.now class.now }
    requires group { IsGroup set.now group.now }
    requires last { length last.old ≡ length set.now.terms }
    ensures some { IfSome result (λ p. IsConflict set.now class.now p.a p.b) }
    ensures none { IfNone result ((i j : ℕ) → Contains group.now i → Contains group.now j
        → AreApart set.now class.now i j) }
{
    for k in 0..group.len() {
        let i = group[k] as usize;
        let own = class[i] as usize;
        let seen = last[own];
        if is_conflict(set, class, i, seen as usize) {
            return Some(Pair {
                a: group[k],
                b: seen,
            });
        }
        last[own] = group[k];
    }
    None
}

/// Two terms of one class that must be in different ones. `last` has for each class the constant that
/// was seen there last.
pub(crate) fn conflict(
    set: &GroundSet,
    groups: &[Items<u32>],
    class: &[u32],
    last: &mut [u32],
) -> Option<Pair>
    requires classed { IsClassed set.now class.now }
    requires groups { AreGroups set.now groups.now }
    requires last { length last.old ≡ length set.now.terms }
    ensures some { IfSome result (λ p. IsConflict set.now class.now p.a p.b) }
    ensures none { IfNone result ((i j : ℕ) → AreApart set.now class.now i j) }
{
    for group in groups {
        if let Some(found) = conflict_in(set, group.as_slice(), class, last) {
            return Some(found);
        }
    }
    None
}
