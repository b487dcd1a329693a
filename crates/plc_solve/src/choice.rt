// Which clause is split next: a false one, and of these one with the fewest open literals. Under the
// closure of the branch a false clause has no true literal; its inequations are contradicted, since
// their sides share a class, and so is an equation whose classes are named by two constants that
// differ, or that an inequation keeps apart which stands alone in a clause. The other equations are
// what the branch leaves open. A clause with none closes the branch at once, so it is taken without a
// look at the clauses after it; one with a single one is used before all with more: the choice is
// the propagation.
//
// A class is named by its least term. Values stand before all that may be equal to them, and so name
// their classes. A number may stand after a local; then the split finds the contradiction a step
// later, which costs less than a look for constants at every equation.
//
// Most clauses stay true from one choice to the next by the same literal, so for each clause the
// literal that was last seen true is tried first.
ghost use Rattle.std.specs.Prelude.{◌≡◌, ◌<◌, ◌⊎◌, ℕ, IsTrue, IfSome, IfNone, Some, All};
ghost use Rattle.std.specs.Prelude.{Any, false, length, slice_index};
ghost use Rattle.plc_ground.specs.Fit.{IsWellFormed, IsInRange};
ghost use Rattle.plc_ground.specs.Model.{HoldsIn, literals};
ghost use Rattle.plc_solve.specs.Search.{IsSurvey, IsClassed, IsFalse, AreFalse, AreInside};
ghost use Rattle.plc_ground.specs.declared.terms.Lit.{Lit};

use crate::survey::Survey;
use plc_ground::{GroundSet, GroundTerm, Lit, Symbol, clause, holds, must_differ};

/// Whether the literal at a place is true; false where there is none.
fn is_true_at(class: &[u32], literals: &[Lit], at: usize) -> bool
    requires { All (AreInside class.now) literals.now }
    ensures { IsTrue result → Any (HoldsIn (slice_index class.now)) literals.now }
{
    at < literals.len() && holds(class, literals[at])
}

/// The place of a true literal.
fn true_place(class: &[u32], literals: &[Lit]) -> Option<usize>
    requires { All (AreInside class.now) literals.now }
    ensures some { IfSome result (λ k. Any (HoldsIn (slice_index class.now)) literals.now) }
    ensures none { IfNone result (AreFalse class.now literals.now) }
{
    for k in 0..literals.len() {
        if holds(class, literals[k]) {
            return Some(k);
        }
    }
    None
}

/// Whether no literal of a clause is true. `seen` is where one was true when last looked at.
fn is_false(set: &GroundSet, class: &[u32], c: usize, seen: &mut usize) -> bool
    requires well { IsWellFormed set.now }
    requires one_each { length class.now ≡ length set.now.terms }
    requires clause { c < length set.now.clauses }
    ensures yes { IsTrue result → IsFalse set.now class.now c }
    ensures no { result ≡ false → Any (HoldsIn (slice_index class.now)) (literals set.now c) }
{
    let literals = clause(set, c);
    if is_true_at(class, literals, *seen) {
        return false;
    }
    match true_place(class, literals) {
        Some(k) => {
            *seen = k;
            false
        }
        None => true,
    }
}

/// A clause that may be split, and how many of its literals are open.
#[derive(Clone, Copy)]
struct Choice {
    clause: usize,
    open: usize,
}

/// Whether an inequation that stands alone keeps two classes apart.
fn kept_apart(units: &[Lit], class: &[u32], a: u32, b: u32) -> bool
    requires { All (AreInside class.now) units.now }
{
    for unit in units {
        let left = class[unit.left as usize];
        let right = class[unit.right as usize];
        if (left == a && right == b) || (left == b && right == a) {
            return true;
        }
    }
    false
}

/// The class of a term.
fn class_of(class: &[u32], i: u32) -> u32
    requires { i < length class.now }
    ensures { result ≡ slice_index class.now i }
{
    class[i as usize]
}

/// Whether a false literal is open: an equation that nothing contradicts.
fn is_open(set: &GroundSet, survey: &Survey, class: &[u32], l: Lit) -> bool
    requires classed { IsClassed set.now class.now }
    requires survey { IsSurvey set.now survey.now }
    requires range { IsInRange set.now.terms l }
{
    if !l.equal {
        return false;
    }
    let a = class_of(class, l.left);
    let b = class_of(class, l.right);
    !must_differ(set, a as usize, b as usize) && !kept_apart(&survey.units, class, a, b)
}

/// How many literals of a false clause are open, counted up to `most`.
fn open_count(set: &GroundSet, survey: &Survey, class: &[u32], c: usize, most: usize) -> usize
    requires classed { IsClassed set.now class.now }
    requires survey { IsSurvey set.now survey.now }
    requires clause { c < length set.now.clauses }
{
    let mut count = 0;
    for l in clause(set, c) {
        if count >= most {
            return count;
        }
        if is_open(set, survey, class, *l) {
            count += 1;
        }
    }
    count
}

/// Whether the term is the constant `no`.
fn is_no(set: &GroundSet, i: u32) -> bool
    requires { i < length set.now.terms }
{
    let term = set.terms.as_slice()[i as usize];
    matches!(term, GroundTerm::Const(Symbol::No))
}

/// Whether a clause only says that a mark is set or isn't.
fn is_choice_of_mark(set: &GroundSet, c: usize) -> bool
    requires well { IsWellFormed set.now }
    requires clause { c < length set.now.clauses }
{
    let literals = clause(set, c);
    literals.len() == 2 && literals[0].equal && literals[1].equal && is_no(set, literals[1].right)
}

/// How many literals of a false clause are open, counted up to `most`. Of a mark of which nothing is known it is as
/// many as may be.
fn rated(set: &GroundSet, survey: &Survey, class: &[u32], c: usize, most: usize) -> usize
    requires classed { IsClassed set.now class.now }
    requires survey { IsSurvey set.now survey.now }
    requires clause { c < length set.now.clauses }
{
    let open = open_count(set, survey, class, c, most);
    if open > 1 && is_choice_of_mark(set, c) {
        return usize::MAX;
    }
    open
}

/// The clause with fewer open literals, the earlier of two with as many.
fn better(set: &GroundSet, survey: &Survey, class: &[u32], best: Option<Choice>, c: usize) -> Choice
    requires classed { IsClassed set.now class.now }
    requires survey { IsSurvey set.now survey.now }
    requires clause { c < length set.now.clauses }
    ensures { (result.clause ≡ c) ⊎ (best ≡ Some result) }
{
    let most = match best {
        Some(found) => found.open,
        None => usize::MAX,
    };
    let open = rated(set, survey, class, c, most);
    match best {
        Some(found) if found.open <= open => found,
        _ => Choice { clause: c, open },
    }
}

/// A false clause of one literal. A clause of one literal holds on every branch, so most are true once they were split,
/// and what they contradict closes the branch before any other clause makes the search branch.
fn false_single(
    set: &GroundSet,
    survey: &Survey,
    class: &[u32],
    seen: &mut [usize],
) -> Option<Choice>
    requires classed { IsClassed set.now class.now }
    requires seen { length seen.old ≡ length set.now.clauses }
    ensures { IfSome result (λ b. (b.clause < length set.now.clauses) × IsFalse set.now class.now b.clause) }
{
    for single in &survey.singles {
        let c = *single as usize;
        if c < set.clauses.len() && is_false(set, class, c, &mut seen[c]) {
            return Some(Choice { clause: c, open: 0 });
        }
    }
    None
}

/// A false clause with the fewest open literals, the first of one literal if there is one. `seen` has for each clause
/// where a literal was last seen true.
fn choose(set: &GroundSet, survey: &Survey, class: &[u32], seen: &mut [usize]) -> Option<Choice>
    requires classed { IsClassed set.now class.now }
    requires survey { IsSurvey set.now survey.now }
    requires seen { length seen.old ≡ length set.now.clauses }
    ensures some { IfSome result (λ b. (b.clause < length set.now.clauses) × IsFalse set.now class.now b.clause) }
    ensures none { IfNone result ((c : ℕ) → c < length set.now.clauses
        → Any (HoldsIn (slice_index class.now)) (literals set.now c)) }
{
    if let Some(single) = false_single(set, survey, class, seen) {
        return Some(single);
    }
    let mut best = None;
    for c in 0..set.clauses.len() {
        if is_false(set, class, c, &mut seen[c]) {
            let found = better(set, survey, class, best, c);
            if found.open == 0 {
                return Some(found);
            }
            best = Some(found);
        }
    }
    best
}

/// The clause to be split, or `None` where every clause has a true literal.
pub(crate) fn pick(
    set: &GroundSet,
    survey: &Survey,
    class: &[u32],
    seen: &mut [usize],
) -> Option<usize>
    requires classed { IsClassed set.now class.now }
    requires survey { IsSurvey set.now survey.now }
    requires seen { length seen.old ≡ length set.now.clauses }
    ensures some { IfSome result (λ c. (c < length set.now.clauses) × IsFalse set.now class.now c) }
    ensures none { IfNone result ((c : ℕ) → c < length set.now.clauses
        → Any (HoldsIn (slice_index class.now)) (literals set.now c)) }
{
    match choose(set, survey, class, seen) {
        Some(choice) => Some(choice.clause),
        None => None,
    }
}
