// The next child of a split. The clause is false under the classes of the branch: a child on an
// inequation is closed at once, by that inequation; a child on an equation joins two classes, and is
// closed where two constants come together that must differ, else it is a longer branch. An
// inequation is never needed below its own leaf, since a clause that it made true has it among its
// literals and isn't split.
ghost use Rattle.std.specs.Prelude.{◌≡◌, ◌<◌, ◌∷◌, [], List, IfOk, OnOk, length, true};
ghost use Rattle.plc_ground.specs.Model.{literals};
ghost use Rattle.plc_ground.specs.Equality.{Same};
ghost use Rattle.plc_ground.specs.declared.terms.Lit.{Lit};
ghost use Rattle.plc_ground.specs.declared.terms.Node.{Node};
ghost use Rattle.plc_ground.specs.Fit.{IsWellFormed, LitFits};
ghost use Rattle.plc_solve.specs.Search.{IsSurvey, IsPlace, IsSound, Enters, Descends, GoesOn, StepGives};
ghost use Rattle.plc_solve.specs.Search.{CanSearch, CanExplain, Explains, TakesTree, TakesCore, split_on};

use crate::apart::conflict;
use crate::chain::{Forest, Pair, grow};
use crate::choice::pick;
use crate::explain::explain;
use crate::frame::{Frame, Step, take_leaf};
use crate::place::Place;
use crate::survey::{Subject, Survey};
use crate::workspace::{Workspace, empty_lists};
use plc_ground::{GroundSet, Lit, changes, classes, clause, mark, put};
use std::alloc::{AllocError, Global};

/// What an equation more makes of a branch.
#[derive(Clone, Copy)]
pub(crate) enum Descent {
    /// Two terms come into one class that must not.
    Conflict(Pair),
    /// The branch is longer.
    Longer,
}

/// A split on a clause, of which no child is closed yet.
fn begun(alloc: Global, work: &mut Workspace, clause: u32, place: &Place) -> Frame
    ensures clause { result.clause ≡ clause }
    ensures first { result.next ≡ 0 }
    ensures none { result.nodes.items ≡ [] }
    ensures unused { result.core.items ≡ [] }
    ensures depth { result.depth ≡ length place.now.branch.items }
    ensures mark { result.mark ≡ length place.now.equal.trail }
{
    let (nodes, core) = empty_lists(alloc, work);
    Frame {
        clause,
        next: 0,
        nodes,
        core,
        depth: place.branch.len(),
        mark: mark(&place.equal),
    }
}

/// A branch on which nothing is split yet: its classes are a model, or a false clause is to be split.
pub(crate) fn enter(
    subject: &Subject<'_>,
    seen: &mut [usize],
    work: &mut Workspace,
    place: &Place,
) -> Step
    requires well { IsWellFormed subject.now.set.now }
    requires survey { IsSurvey subject.now.set.now subject.now.survey.now }
    requires seen { length seen.old ≡ length subject.now.set.now.clauses }
    requires place { IsPlace subject.now.set.now place.now.branch.items place.now.equal.class }
    ensures { Enters subject.now.set.now place.now result }
{
    match pick(subject.set, subject.survey, classes(&place.equal), seen) {
        None => Step::Open,
        Some(clause) => Step::Deeper(begun(subject.alloc, work, clause as u32, place)),
    }
}

/// Puts one more equation on the branch.
fn descend(
    set: &GroundSet,
    survey: &Survey,
    last: &mut [u32],
    forest: &mut Forest,
    place: &mut Place,
    l: Lit,
) -> Result<Descent, AllocError>
    requires well { IsWellFormed set.now }
    requires survey { IsSurvey set.now survey.now }
    requires place { IsPlace set.now place.old.branch.items place.old.equal.class }
    requires fit { LitFits set.now l }
    requires equal { l.equal ≡ true }
    requires last { length last.old ≡ length set.now.terms }
    ensures descends { IfOk result (Descends set.now place.old l place.new) }
    ensures goes_on { OnOk result (GoesOn place.old place.new) }
{
    let (before, depth) = (mark(&place.equal), place.branch.len());
    put(set, &survey.table, &mut place.equal, l)?;
    place.branch.push(l)?;
    grow(forest, changes(&place.equal), before, depth)?;
    if let Some(pair) = conflict(set, survey.groups.as_slice(), classes(&place.equal), last) {
        return Ok(Descent::Conflict(pair));
    }
    Ok(Descent::Longer)
}

/// Closes the next child of a split, on its own literal, by two terms that the branch of the place makes
/// equal.
fn close_child(
    subject: &Subject<'_>,
    forest: &mut Forest,
    top: &mut Frame,
    place: &Place,
    own: Lit,
    pair: Pair,
) -> Result<(), AllocError>
    requires known { top.old.clause < length subject.now.set.now.clauses }
    requires child { top.old.next < length (literals subject.now.set.now top.old.clause) }
    requires asked { CanExplain subject.now.set.now subject.now.survey.now.table place.now.branch.items pair }
    requires same { Same subject.now.set.now.terms place.now.branch.items pair.a pair.b }
    ensures tree { OnOk result (TakesTree top.old top.new (Node.Leaf pair.a pair.b ∷ [])) }
    ensures core { OnOk result ((core : List Lit)
        × Explains subject.now.set.now place.now.branch.items pair.a pair.b core
        × TakesCore top.old.core.items top.new.core.items own core) }
{
    let table = &subject.survey.table;
    explain(
        subject.alloc,
        subject.set,
        table,
        &place.branch,
        forest,
        pair,
    )?;
    take_leaf(subject.set, top, own, pair.a, pair.b, &forest.way)?;
    Ok(())
}

/// Takes the next child of a split. The place is that of the split, and then that of the child.
pub(crate) fn take_child(
    subject: &Subject<'_>,
    seen: &mut [usize],
    last: &mut [u32],
    work: &mut Workspace,
    top: &mut Frame,
    place: &mut Place,
) -> Result<Step, AllocError>
    requires asked { CanSearch subject.now.set.now subject.now.survey.now seen.old last.old }
    requires sound { IsSound subject.now.set.now (split_on place.old.branch.items place.old.equal.class top.old) }
    ensures gives { IfOk result (StepGives subject.now.set.now place.old top.old top.new place.new) }
    ensures goes_on { OnOk result (GoesOn place.old place.new) }
{
    let literals = clause(subject.set, top.clause as usize);
    if top.next == literals.len() {
        return Ok(Step::Complete);
    }
    let l = literals[top.next];
    if !l.equal {
        let pair = Pair {
            a: l.left,
            b: l.right,
        };
        close_child(subject, &mut work.forest, top, place, l, pair)?;
        return Ok(Step::Closed);
    }
    match descend(
        subject.set,
        subject.survey,
        last,
        &mut work.forest,
        place,
        l,
    )? {
        Descent::Conflict(pair) => {
            close_child(subject, &mut work.forest, top, place, l, pair)?;
            Ok(Step::Closed)
        }
        Descent::Longer => Ok(enter(subject, seen, work, place)),
    }
}
