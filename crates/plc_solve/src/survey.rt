// What the search asks of a set again and again, found once: the applications by map and version,
// the constants that differ from others, in groups, and the inequations that stand alone in a clause.
// Any two constants of one group must differ, and of two groups never, so two that must differ are
// looked for within a group.
ghost use Rattle.std.specs.Prelude.{◌<◌, ℕ, IsTrue, IfOk, OnOk, All};
ghost use Rattle.std.specs.Prelude.{Contains, length};
ghost use Rattle.plc_ground.specs.Fit.{IsWellFormed, IsInRange};
ghost use Rattle.plc_solve.specs.Search.{IsDistinguishedAt, IsSurvey, IsOfGroup, IsGroupOf, IsGroup, IsGrouped};
ghost use Rattle.plc_solve.specs.Search.{AreGroups};

use plc_base::Items;
use plc_ground::{
    Applications, GroundSet, GroundTerm, Lit, clause, is_distinguished, list_applications,
    must_differ,
};
use std::alloc::{AllocError, Global};

/// What the search knows of a set before it begins.
#[derive(Drop)]
pub(crate) struct Survey {
    pub table: Applications,
    /// The terms that are constants which differ from others by the rule alone, in groups.
    pub groups: Items<Items<u32>>,
    /// The inequations that are the one literal of a clause. They hold in every model.
    pub units: Vec<Lit>,
    /// The clauses of one literal, which are looked at first. Nothing rests on it that each of them is here.
    pub singles: Vec<u32>,
}

/// What the search speaks of throughout: a set, with its survey.
#[derive(Clone, Copy)]
pub(crate) struct Subject<'a> {
    pub alloc: Global,
    pub set: &'a GroundSet,
    pub survey: &'a Survey,
}

/// Whether the term is a constant that differs from others by the rule alone.
fn is_constant(set: &GroundSet, i: usize) -> bool
    requires { i < length set.now.terms }
    ensures yes { IsTrue result → IsDistinguishedAt set.now i }
    ensures no { IsDistinguishedAt set.now i → IsTrue result }
{
    match set.terms.as_slice()[i] {
        GroundTerm::Const(symbol) => is_distinguished(symbol),
        GroundTerm::App { .. } => false,
    }
}

/// Whether a term is in the group of a constant: it is that constant, or must differ from it.
fn is_of_group(set: &GroundSet, first: usize, i: usize) -> bool
    requires well { IsWellFormed set.now }
    requires first { first < length set.now.terms }
    requires second { i < length set.now.terms }
    ensures yes { IsTrue result → IsOfGroup set.now first i }
    ensures no { IsOfGroup set.now first i → IsTrue result }
{
    first == i || must_differ(set, first, i)
}

/// The group of a constant.
fn group_of(alloc: Global, set: &GroundSet, first: usize) -> Result<Items<u32>, AllocError>
    requires well { IsWellFormed set.now }
    requires first { first < length set.now.terms }
    ensures { IfOk result (IsGroupOf set.now first) }
{
    let mut group = Items::new(alloc);
    for i in 0..set.terms.len() {
        if is_of_group(set, first, i) {
            group.push(i as u32)?;
        }
    }
    Ok(group)
}

/// Whether the group has the term. Any two of one group must differ, and of two groups never, so the term is compared
/// with one of the group alone: a file may have thousands of numbers, which are one group.
fn is_in(set: &GroundSet, group: &[u32], i: usize) -> bool
    requires well { IsWellFormed set.now }
    requires range { i < length set.now.terms }
    requires group { IsGroup set.now group.now }
    ensures { IsTrue result → Contains group.now i }
{
    if group.is_empty() {
        return false;
    }
    is_of_group(set, group[0] as usize, i)
}

/// Whether a group has a term.
fn is_grouped(set: &GroundSet, groups: &[Items<u32>], i: usize) -> bool
    requires well { IsWellFormed set.now }
    requires range { i < length set.now.terms }
    requires each { All (IsGroup set.now) groups.now }
    ensures { IsTrue result → IsGrouped groups.now i }
{
    for group in groups {
        if is_in(set, group.as_slice(), i) {
            return true;
        }
    }
    false
}

/// Lists the group of a term, where it is a constant that differs from others and isn't in a group yet.
fn list_group(
    alloc: Global,
    set: &GroundSet,
    groups: &mut Items<Items<u32>>,
    i: usize,
) -> Result<(), AllocError>
    requires well { IsWellFormed set.now }
    requires range { i < length set.now.terms }
    requires each { All (IsGroup set.now) groups.old }
    ensures each { OnOk result (All (IsGroup set.now) groups.new) }
    ensures grouped { OnOk result (IsDistinguishedAt set.now i → IsGrouped groups.new i) }
    ensures kept { OnOk result ((j : ℕ) → IsGrouped groups.old j → IsGrouped groups.new j) }
{
    if !is_constant(set, i) {
        return Ok(());
    }
    if !is_grouped(set, groups.as_slice(), i) {
        groups.push(group_of(alloc, set, i)?)?;
    }
    Ok(())
}

/// The constants that differ from others, in groups.
fn groups(alloc: Global, set: &GroundSet) -> Result<Items<Items<u32>>, AllocError>
    requires { IsWellFormed set.now }
    ensures { IfOk result (AreGroups set.now) }
{
    let mut groups = Items::new(alloc);
    for i in 0..set.terms.len() {
        list_group(alloc, set, &mut groups, i)?;
    }
    Ok(groups)
}

/// Lists the one literal of a clause, where it is an inequation.
fn list_unit(set: &GroundSet, list: &mut Vec<Lit>, c: usize) -> Result<(), AllocError>
    requires well { IsWellFormed set.now }
    requires clause { c < length set.now.clauses }
    requires each { All (IsInRange set.now.terms) list.old.items }
    ensures { OnOk result (All (IsInRange set.now.terms) list.new.items) }
{
    let literals = clause(set, c);
    if literals.len() == 1 && !literals[0].equal {
        list.push(literals[0])?;
    }
    Ok(())
}

/// The inequations that are the one literal of a clause.
fn units(alloc: Global, set: &GroundSet) -> Result<Vec<Lit>, AllocError>
    requires { IsWellFormed set.now }
    ensures { IfOk result (λ list. All (IsInRange set.now.terms) list.items) }
{
    let mut list = Vec::new(alloc);
    for c in 0..set.clauses.len() {
        list_unit(set, &mut list, c)?;
    }
    Ok(list)
}

/// Lists a clause, where it has one literal.
fn list_single(set: &GroundSet, list: &mut Vec<u32>, c: usize) -> Result<(), AllocError>
    requires well { IsWellFormed set.now }
    requires clause { c < length set.now.clauses }
{
    if clause(set, c).len() == 1 {
        list.push(c as u32)?;
    }
    Ok(())
}

/// The clauses of one literal.
fn singles(alloc: Global, set: &GroundSet) -> Result<Vec<u32>, AllocError>
    requires { IsWellFormed set.now }
{
    let mut list = Vec::new(alloc);
    for c in 0..set.clauses.len() {
        list_single(set, &mut list, c)?;
    }
    Ok(list)
}

/// Surveys a set.
pub(crate) fn take_survey(alloc: Global, set: &GroundSet) -> Result<Survey, AllocError>
    requires { IsWellFormed set.now }
    ensures { IfOk result (IsSurvey set.now) }
{
    Ok(Survey {
        table: list_applications(alloc, set)?,
        groups: groups(alloc, set)?,
        units: units(alloc, set)?,
        singles: singles(alloc, set)?,
    })
}
