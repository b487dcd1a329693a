// What the equations of a branch make equal: a class for each term, named by its least term, so that
// two terms share a class exactly where the branch makes them equal. (Congruence closure: Nieuwenhuis
// and Oliveras, "Fast congruence closure and extensions", 2007.) There is one table for all
// branches: it is extended by the literal of a child, and taken back where the child is left. A trail
// has what each change wrote over, so taking back costs what extending did, and nothing is copied
// where a branch forks. It also has for each change the two terms that were joined then, so that who asks
// why two terms are equal may go along the joins; what he finds he has to test, since nothing is proved of them.
//
// Classes that are joined are the only ones in which applications can clash, so these alone are
// searched. Union by size wins little on sets of a hundred terms, and would have to be kept true by proof.
ghost use Rattle.std.specs.Prelude.{◌≡◌, ◌≢◌, ◌↔◌, ◌+◌, ◌-◌, ◌<◌, ◌≤◌, ◌==◌, ℕ, length};
ghost use Rattle.std.specs.Prelude.{slice_index, slice_set, Some, IfSome, IfNone, List, sum, ◌^◌, All};
ghost use Rattle.std.specs.Prelude.{IfOk, OnOk, take, drop, ◌∷◌, ◌++◌, [], Ok, true, false, IsTrue};
ghost use Rattle.plc_ground.specs.Fit.{IsWellFormed, IsInRange};
ghost use Rattle.plc_ground.specs.Classes.{Joins, IsClosure, IsClash, IsTable, IsOfOneMap};
ghost use Rattle.plc_ground.specs.Changes.{Extends, undone, ClashOnlyIn, HasArgumentIn, AgreeAt, IsAloneIn, IsClearOf};
ghost use Rattle.plc_ground.specs.Changes.{IsJoined, Settles, to_settle};
ghost use Rattle.plc_ground.specs.Model.{IsCongruent};
ghost use Rattle.plc_ground.specs.declared.terms.Lit.{Lit};

use crate::table::Applications;
use crate::terms::{GroundSet, GroundTerm, Lit, term_at};
use plc_base::Items;
use std::alloc::{AllocError, Global};

/// What a change wrote over: the class that a term had. `left` and `right` are the two terms that were joined: the
/// sides of the literal that was put, or two applications of one map to terms that are equal.
#[derive(Clone, Copy)]
pub struct Change {
    pub(crate) term: u32,
    pub(crate) class: u32,
    pub left: u32,
    pub right: u32,
}

/// The terms that a branch makes equal, as a class for each term, and how to take that back.
#[derive(Drop)]
pub struct Equalities {
    pub(crate) class: Items<u32>,
    pub(crate) trail: Items<Change>,
    /// The classes that were joined and aren't searched yet.
    pub(crate) joined: Items<u32>,
}

/// Puts a term into a class, since these two terms are joined.
fn shift(
    equal: &mut Equalities,
    k: usize,
    low: u32,
    left: u32,
    right: u32,
) -> Result<(), AllocError>
    requires few { length equal.old.class < 2 ^ 32 }
    requires range { k < length equal.old.class }
    ensures class { OnOk result (equal.new.class ≡ slice_set equal.old.class k low) }
    ensures extends { OnOk result (Extends equal.old equal.new) }
    ensures joined { OnOk result (equal.new.joined ≡ equal.old.joined) }
{
    let class = equal.class.as_slice()[k];
    equal.trail.push(Change {
        term: k as u32,
        class,
        left,
        right,
    })?;
    equal.class.set(k, low);
    Ok(())
}

/// Puts the terms of class `high` into class `low`, in which clashes are to be looked for, since these two terms are
/// joined.
fn merge(
    equal: &mut Equalities,
    low: u32,
    high: u32,
    left: u32,
    right: u32,
) -> Result<(), AllocError>
    requires few { length equal.old.class < 2 ^ 32 }
    requires lower { low < high }
    ensures joins { OnOk result (Joins equal.old.class equal.new.class low high) }
    ensures one_each { OnOk result (length equal.new.class ≡ length equal.old.class) }
    ensures less { OnOk result ((k : ℕ) → k < length equal.old.class → slice_index equal.old.class k ≡ high
        → sum equal.new.class < sum equal.old.class) }
    ensures extends { OnOk result (Extends equal.old equal.new) }
    ensures joined { OnOk result (equal.new.joined ≡ equal.old.joined ++ low ∷ []) }
{
    for k in 0..equal.class.len() {
        if equal.class.as_slice()[k] == high {
            shift(equal, k, low, left, right)?;
        }
    }
    equal.joined.push(low)?;
    Ok(())
}

/// Puts two terms of different classes and their classes into one class.
fn join(equal: &mut Equalities, x: usize, y: usize) -> Result<(), AllocError>
    requires few { length equal.old.class < 2 ^ 32 }
    requires first { x < length equal.old.class }
    requires second { y < length equal.old.class }
    requires apart { slice_index equal.old.class x ≢ slice_index equal.old.class y }
    ensures joined { OnOk result (IsJoined equal.old equal.new x y) }
{
    let a = equal.class.as_slice()[x];
    let b = equal.class.as_slice()[y];
    let (left, right) = (x as u32, y as u32);
    if a < b {
        return merge(equal, a, b, left, right);
    }
    merge(equal, b, a, left, right)
}

/// Whether the term at a place of a list has this class.
fn is_at(class: &[u32], list: &[u32], k: usize, x: u32) -> bool
    requires each { All (λ a. a < length class.now) list.now }
    requires place { k < length list.now }
    ensures yes { IsTrue result → slice_index class.now (slice_index list.now k) ≡ x }
    ensures no { slice_index class.now (slice_index list.now k) ≡ x → IsTrue result }
{
    class[list[k] as usize] == x
}

/// The first place from `start` on of a term of this class.
fn place_from(class: &[u32], list: &[u32], x: u32, start: usize) -> Option<usize>
    requires { All (λ a. a < length class.now) list.now }
    ensures some { IfSome result (λ k. k < length list.now) }
    ensures first { IfSome result (λ k. (n : ℕ) → n < k → start ≤ n
        → slice_index class.now (slice_index list.now n) ≢ x) }
    ensures none { IfNone result ((n : ℕ) → n < length list.now → start ≤ n
        → slice_index class.now (slice_index list.now n) ≢ x) }
{
    for k in start..list.len() {
        if is_at(class, list, k, x) {
            return Some(k);
        }
    }
    None
}

/// Whether at most one of these terms is in a class.
fn is_alone_in(class: &[u32], list: &[u32], x: u32) -> bool
    requires { All (λ a. a < length class.now) list.now }
    ensures { IsTrue result → IsAloneIn class.now x list.now }
{
    let Some(k) = place_from(class, list, x, 0) else {
        return true;
    };
    place_from(class, list, x, k + 1).is_none()
}

/// Whether the argument of an application has this class.
fn has_argument_in(set: &GroundSet, class: &[u32], i: usize, x: u32) -> bool
    requires well { IsWellFormed set.now }
    requires one_each { length class.now ≡ length set.now.terms }
    requires range { i < length set.now.terms }
    ensures yes { IsTrue result → HasArgumentIn set.now.terms class.now x i }
    ensures no { HasArgumentIn set.now.terms class.now x i → IsTrue result }
{
    match term_at(set, i) {
        GroundTerm::App { arg, .. } => class[arg as usize] == x,
        GroundTerm::Const(_) => false,
    }
}

/// The application at a place of a list.
fn application_at(set: &GroundSet, list: &[u32], k: usize) -> usize
    requires list { IsOfOneMap set.now.terms list.now }
    requires place { k < length list.now }
    ensures which { result ≡ slice_index list.now k }
    ensures range { result < length set.now.terms }
{
    let _set = set; // of which the contract alone speaks
    list[k] as usize
}

/// Whether this is the class that is given, if one is.
fn is_given(own: Option<u32>, class: u32) -> bool
    ensures { IsTrue result ↔ (own ≡ Some class) }
{
    match own {
        None => false,
        Some(own) => own == class,
    }
}

/// Whether the argument of an application has class `x`, and the application is not in the class `own`, if that is
/// given.
fn is_other_in(set: &GroundSet, class: &[u32], i: usize, x: u32, own: Option<u32>) -> bool
    requires well { IsWellFormed set.now }
    requires one_each { length class.now ≡ length set.now.terms }
    requires range { i < length set.now.terms }
    ensures yes { IsTrue result → HasArgumentIn set.now.terms class.now x i × (own ≢ Some (slice_index class.now i)) }
    ensures no { result ≡ false → HasArgumentIn set.now.terms class.now x i → own ≡ Some (slice_index class.now i) }
{
    if is_given(own, class[i]) {
        return false;
    }
    has_argument_in(set, class, i, x)
}

/// The first place of an application whose argument has class `x`, and which isn't in the class `own`, if that is
/// given.
fn place_in(set: &GroundSet, class: &[u32], list: &[u32], x: u32, own: Option<u32>) -> Option<usize>
    requires well { IsWellFormed set.now }
    requires one_each { length class.now ≡ length set.now.terms }
    requires list { IsOfOneMap set.now.terms list.now }
    ensures some { IfSome result (λ k. (k < length list.now)
        × HasArgumentIn set.now.terms class.now x (slice_index list.now k)
        × (own ≢ Some (slice_index class.now (slice_index list.now k)))) }
    ensures none { IfNone result ((k : ℕ) → k < length list.now
        → HasArgumentIn set.now.terms class.now x (slice_index list.now k)
        → own ≡ Some (slice_index class.now (slice_index list.now k))) }
{
    for k in 0..list.len() {
        let i = application_at(set, list, k);
        if is_other_in(set, class, i, x, own) {
            return Some(k);
        }
    }
    None
}

/// Two applications of one list that clash, whose arguments have this class.
#[tactic(auto, using(crate::proofs::Changing::clash_at))]
fn clash_in(set: &GroundSet, class: &[u32], list: &[u32], x: u32) -> Option<(usize, usize)>
    requires well { IsWellFormed set.now }
    requires one_each { length class.now ≡ length set.now.terms }
    requires list { IsOfOneMap set.now.terms list.now }
    ensures some { IfSome result (λ p. IsClash set.now.terms class.now p.0 p.1) }
    ensures range { IfSome result (λ p. (p.0 < length set.now.terms) × (p.1 < length set.now.terms)) }
    ensures none { IfNone result (AgreeAt set.now.terms class.now x list.now) }
{
    let Some(k) = place_in(set, class, list, x, None) else {
        return None;
    };
    let i = application_at(set, list, k);
    let Some(n) = place_in(set, class, list, x, Some(class[i])) else {
        return None;
    };
    let j = application_at(set, list, n);
    Some((j, i))
}

/// Joins two applications of one list that clash, whose arguments have class `x`. False where none do.
fn join_in(
    set: &GroundSet,
    list: &[u32],
    equal: &mut Equalities,
    x: u32,
) -> Result<bool, AllocError>
    requires well { IsWellFormed set.now }
    requires one_each { length equal.old.class ≡ length set.now.terms }
    requires list { IsOfOneMap set.now.terms list.now }
    requires left { ClashOnlyIn set.now.terms equal.old.class equal.old.joined }
    ensures settles { OnOk result (Settles set.now.terms equal.old equal.new) }
    ensures some { result ≡ Ok true → to_settle equal.new < to_settle equal.old }
    ensures none { result ≡ Ok false → (equal.new ≡ equal.old)
        × AgreeAt set.now.terms equal.old.class x list.now }
{
    let Some((i, j)) = clash_in(set, equal.class.as_slice(), list, x) else {
        return Ok(false);
    };
    join(equal, i, j)?;
    Ok(true)
}

/// Joins applications that clash, whose arguments have class `x`: two of each list where two do.
/// False where none do. Where something is applied to one term of the class alone nothing clashes,
/// and no list is looked at.
fn sweep(
    set: &GroundSet,
    table: &Applications,
    equal: &mut Equalities,
    x: u32,
) -> Result<bool, AllocError>
    requires well { IsWellFormed set.now }
    requires one_each { length equal.old.class ≡ length set.now.terms }
    requires table { IsTable set.now.terms table.now }
    requires left { ClashOnlyIn set.now.terms equal.old.class equal.old.joined }
    ensures settles { OnOk result (Settles set.now.terms equal.old equal.new) }
    ensures some { result ≡ Ok true → to_settle equal.new < to_settle equal.old }
    ensures none { result ≡ Ok false → (equal.new ≡ equal.old) × IsClearOf set.now.terms equal.old.class x }
{
    if is_alone_in(equal.class.as_slice(), table.arguments.as_slice(), x) {
        return Ok(false);
    }
    let mut found = false;
    for list in table.lists.as_slice() {
        if join_in(set, list.as_slice(), equal, x)? {
            found = true;
        }
    }
    Ok(found)
}

/// The newest of the classes that aren't searched yet.
fn newest_joined(equal: &Equalities) -> Option<u32>
    ensures some { IfSome result (λ x. (0 < length equal.now.joined)
        × (slice_index equal.now.joined (length equal.now.joined - 1) ≡ x)) }
    ensures none { IfNone result (length equal.now.joined ≡ 0) }
{
    let joined = equal.joined.as_slice();
    if joined.is_empty() {
        return None;
    }
    Some(joined[joined.len() - 1])
}

/// Joins what clashes in a class, or is done with that class.
fn settle_in(
    set: &GroundSet,
    table: &Applications,
    equal: &mut Equalities,
    x: u32,
) -> Result<(), AllocError>
    requires well { IsWellFormed set.now }
    requires one_each { length equal.old.class ≡ length set.now.terms }
    requires table { IsTable set.now.terms table.now }
    requires some { 0 < length equal.old.joined }
    requires newest { slice_index equal.old.joined (length equal.old.joined - 1) ≡ x }
    requires left { ClashOnlyIn set.now.terms equal.old.class equal.old.joined }
    ensures settles { OnOk result (Settles set.now.terms equal.old equal.new) }
    ensures smaller { OnOk result (to_settle equal.new < to_settle equal.old) }
{
    if sweep(set, table, equal, x)? {
        return Ok(());
    }
    equal.joined.truncate(equal.joined.len() - 1);
    Ok(())
}

/// Joins what clashes, until nothing does.
fn settle(set: &GroundSet, table: &Applications, equal: &mut Equalities) -> Result<(), AllocError>
    requires well { IsWellFormed set.now }
    requires one_each { length equal.old.class ≡ length set.now.terms }
    requires table { IsTable set.now.terms table.now }
    requires left { ClashOnlyIn set.now.terms equal.old.class equal.old.joined }
    ensures settles { OnOk result (Settles set.now.terms equal.old equal.new) }
    ensures settled { OnOk result (IsCongruent set.now.terms (slice_index equal.new.class)) }
{
    'clashes: while let Some(x) = newest_joined(equal) {
        settle_in(set, table, equal, x)?;
    }
    Ok(())
}

/// Puts a literal on the branch. The one error is that memory runs out; the table is then worth
/// nothing.
pub fn put(
    set: &GroundSet,
    table: &Applications,
    equal: &mut Equalities,
    l: Lit,
) -> Result<(), AllocError>
    requires well { IsWellFormed set.now }
    requires one_each { length equal.old.class ≡ length set.now.terms }
    requires congruent { IsCongruent set.now.terms (slice_index equal.old.class) }
    requires table { IsTable set.now.terms table.now }
    requires range { IsInRange set.now.terms l }
    ensures closure { OnOk result ((branch : List Lit) → IsClosure set.now.terms branch equal.old.class
        → IsClosure set.now.terms (branch ++ l ∷ []) equal.new.class) }
    ensures extends { OnOk result (Extends equal.old equal.new) }
    ensures less { OnOk result (l.equal ≡ true
        → slice_index equal.old.class l.left ≢ slice_index equal.old.class l.right
        → sum equal.new.class < sum equal.old.class) }
{
    let (x, y) = (l.left as usize, l.right as usize);
    if !l.equal {
        return Ok(());
    }
    if equal.class.as_slice()[x] == equal.class.as_slice()[y] {
        return Ok(());
    }
    equal.joined.truncate(0);
    join(equal, x, y)?;
    settle(set, table, equal)?;
    Ok(())
}

/// Gives a term the class that it had.
#[tactic(auto, using(crate::proofs::Changing::set_past_end))]
fn restore(equal: &mut Equalities, change: Change)
    ensures class { equal.new.class ≡ slice_set equal.old.class change.term change.class }
    ensures trail { equal.new.trail ≡ equal.old.trail }
{
    if (change.term as usize) >= equal.class.len() {
        return;
    }
    equal.class.set(change.term as usize, change.class);
}

/// The newest change.
#[tactic(auto, using(crate::proofs::Changing::last_dropped))]
fn newest(equal: &Equalities) -> Change
    requires { 0 < length equal.now.trail }
    ensures { drop (length equal.now.trail - 1) equal.now.trail ≡ result ∷ [] }
{
    let trail = equal.trail.as_slice();
    trail[trail.len() - 1]
}

/// Takes the newest change back.
fn take_back_one(equal: &mut Equalities)
    requires { 0 < length equal.old.trail }
    ensures trail { equal.new.trail ≡ take (length equal.old.trail - 1) equal.old.trail }
    ensures class { equal.new.class ≡ undone (drop (length equal.old.trail - 1) equal.old.trail) equal.old.class }
{
    let change = newest(equal);
    restore(equal, change);
    equal.trail.truncate(equal.trail.len() - 1);
}

/// The changes since the table of no literals, the newest last.
pub fn changes(equal: &Equalities) -> &[Change]
    ensures { result.now ≡ equal.now.trail }
{
    equal.trail.as_slice()
}

/// How many changes there are: the mark to which `take_back` goes.
pub fn mark(equal: &Equalities) -> usize
    ensures { result ≡ length equal.now.trail }
{
    equal.trail.len()
}

/// Takes back the changes after a mark.
pub fn take_back(equal: &mut Equalities, mark: usize)
    ensures class { equal.new.class ≡ undone (drop mark equal.old.trail) equal.old.class }
    ensures trail { equal.new.trail ≡ take mark equal.old.trail }
{
    'changes: while equal.trail.len() > mark {
        take_back_one(equal);
    }
}

/// The table of a branch without literals: no two terms are equal.
pub fn all_apart(alloc: Global, set: &GroundSet) -> Result<Equalities, AllocError>
    requires { IsWellFormed set.now }
    ensures closure { IfOk result (λ equal. IsClosure set.now.terms [] equal.class) }
    ensures own { IfOk result (λ equal. (i : ℕ) → i < length set.now.terms → slice_index equal.class i ≡ i) }
{
    let mut class = Items::new(alloc);
    for i in 0..set.terms.len() {
        class.push(i as u32)?;
    }
    Ok(Equalities {
        class,
        trail: Items::new(alloc),
        joined: Items::new(alloc),
    })
}

/// The class of each term: the least term that is equal to it.
pub fn classes(equal: &Equalities) -> &[u32]
    ensures { result.now ≡ equal.now.class }
{
    equal.class.as_slice()
}

/// The classes alone.
pub fn into_classes(equal: Equalities) -> Vec<u32>
    ensures { result.items ≡ equal.class }
{
    equal.class.into_vec()
}
