// The search for a tree or a model. The closure of the branch is the candidate: where no clause is
// false under it and no two constants come together that must differ, it is a model. Else a false
// clause is split. The stack of splits is a list, so no depth is too great. A split above the
// present branch has a true equation on it, so a clause that is false wasn't split: none is twice.
ghost use Rattle.std.specs.Prelude.{◌≡◌, ◌↔◌, ◌<◌, [], IfOk, IfSome, None, Ok, length, reverse, vec_len};
ghost use Rattle.plc_ground.specs.Fit.{IsWellFormed};
ghost use Rattle.plc_ground.specs.Model.{IsModel};
ghost use Rattle.plc_ground.specs.Trees.{HasModel};
ghost use Rattle.plc_solve.specs.Search.{CanSearch, IsPlace, Stands, Finds};
ghost use Rattle.plc_solve.specs.Answers.{IsOpen, CarriesModel, CarriesTree};

use crate::chain::cut;
use crate::frame::{Frame, Step};
use crate::needless::hand_up;
use crate::place::{Place, go_up};
use crate::split::{enter, take_child};
use crate::survey::{Subject, take_survey};
use crate::workspace::{Workspace, keep_lists};
use plc_base::{Items, NoMemory};
use plc_ground::{GroundModel, GroundSet, Node, Tree, all_apart, into_classes};
use std::alloc::{AllocError, Global};

/// What the solver finds.
#[derive(Drop)]
pub enum Answer {
    /// A tree that closes the set, so that no model exists. No branch splits one clause twice.
    Closed(Tree),
    /// A model of the set.
    Open(GroundModel),
}

/// The nodes of a tree that closes the set, found from the splits of the place, or `None` where the
/// classes of the place that the search comes to are a model.
fn search(
    subject: &Subject<'_>,
    seen: &mut [usize],
    last: &mut [u32],
    work: &mut Workspace,
    frames: &mut Vec<Frame>,
    place: &mut Place,
) -> Result<Option<Vec<Node>>, AllocError>
    requires asked { CanSearch subject.now.set.now subject.now.survey.now seen.old last.old }
    requires stands { Stands subject.now.set.now place.old (reverse frames.old.items) }
    requires nonempty { 0 < vec_len frames.old }
    ensures { IfOk result (Finds subject.now.set.now place.new) }
{
    'search: while let Some(mut top) = frames.pop() {
        cut(&mut work.forest, top.depth);
        go_up(place, &top);
        match take_child(subject, seen, last, work, &mut top, place)? {
            Step::Open => return Ok(None),
            Step::Closed => frames.push(top)?,
            Step::Deeper(child) => {
                frames.push(top)?;
                frames.push(child)?;
            }
            Step::Complete => {
                if let Some(nodes) = hand_up(
                    subject.alloc,
                    subject.set,
                    frames,
                    place,
                    &mut work.forest,
                    &top,
                )? {
                    return Ok(Some(nodes));
                }
                keep_lists(work, top)?;
            }
        }
    }
    unreachable!()
}

/// The nodes of a tree that closes the set, found from a branch on which nothing is split yet, or `None`
/// where the classes of the place that the search comes to are a model.
fn search_from(
    subject: &Subject<'_>,
    seen: &mut [usize],
    last: &mut [u32],
    work: &mut Workspace,
    place: &mut Place,
) -> Result<Option<Vec<Node>>, AllocError>
    requires asked { CanSearch subject.now.set.now subject.now.survey.now seen.old last.old }
    requires place { IsPlace subject.now.set.now place.old.branch.items place.old.equal.class }
    requires empty { place.old.branch.items ≡ [] }
    ensures { IfOk result (Finds subject.now.set.now place.new) }
{
    match enter(subject, seen, work, place) {
        Step::Open => Ok(None),
        Step::Deeper(first) => {
            let mut frames = Vec::new(subject.alloc);
            frames.push(first)?;
            search(subject, seen, last, work, &mut frames, place)
        }
        _ => unreachable!(),
    }
}

/// Surveys the set and searches it from an empty branch: the nodes of a tree that closes it, or `None`
/// where the classes of the place that the search comes to are a model.
fn find(alloc: Global, set: &GroundSet, place: &mut Place) -> Result<Option<Vec<Node>>, AllocError>
    requires well { IsWellFormed set.now }
    requires place { IsPlace set.now place.old.branch.items place.old.equal.class }
    requires empty { place.old.branch.items ≡ [] }
    ensures { IfOk result (Finds set.now place.new) }
{
    let survey = take_survey(alloc, set)?;
    let mut seen = vec![in alloc; 0usize; set.clauses.len()]?;
    let mut last = vec![in alloc; 0u32; set.terms.len()]?;
    let mut work = Workspace::new(alloc, set)?;
    let subject = Subject {
        alloc,
        set,
        survey: &survey,
    };
    let found = search_from(&subject, &mut seen, &mut last, &mut work, place);
    drop(survey);
    drop(seen);
    drop(last);
    drop(work);
    found
}

/// The classes of a branch on which no clause is false, as a model.
fn open(place: Place) -> Answer
    ensures { result ≡ Answer.Open (record { class = place.equal.class }) }
{
    Answer::Open(GroundModel {
        class: Items::from_vec(into_classes(place.equal)),
    })
}

/// The answer to a set that was searched: the tree that was found, or a model where none was. `place` is
/// where the search came to.
fn answered(
    set: &GroundSet,
    place: Place,
    found: Result<Option<Vec<Node>>, AllocError>,
) -> Result<Answer, AllocError>
    requires { IfOk found (Finds set.now place) }
    ensures open { IfOk result (CarriesModel set.now) }
    ensures closed { IfOk result (CarriesTree set.now) }
{
    let _set = set; // of which the contract alone speaks
    match found {
        Ok(None) => Ok(open(place)),
        Ok(Some(nodes)) => {
            drop(place);
            Ok(Answer::Closed(Tree {
                nodes: Items::from_vec(nodes),
            }))
        }
        Err(AllocError) => {
            drop(place);
            Err(AllocError)
        }
    }
}

/// The answer to a set: a tree that closes it, or a model.
fn solve(alloc: Global, set: &GroundSet) -> Result<Answer, AllocError>
    requires { IsWellFormed set.now }
    ensures open { IfOk result (CarriesModel set.now) }
    ensures closed { IfOk result (CarriesTree set.now) }
{
    let equal = all_apart(alloc, set)?;
    let mut place = Place {
        branch: Vec::new(alloc),
        equal,
    };
    let found = find(alloc, set, &mut place);
    answered(set, place, found)
}

/// A model of the set, exactly where it has one, or else a tree that closes it. It doesn't recurse.
/// The one error is that memory runs out.
pub fn refute(alloc: Global, set: &GroundSet) -> Result<Answer, NoMemory>
    requires { IsWellFormed set.now }
    ensures open { IfOk result (CarriesModel set.now) }
    ensures closed { IfOk result (CarriesTree set.now) }
    ensures exact { IfOk result (λ answer. IsOpen answer ↔ HasModel set.now) }
{
    Ok(solve(alloc, set)?)
}

/// A model of the set, or `None` exactly where it has none: what `refute` answers, without the tree. It doesn't
/// recurse. The one error is that memory runs out.
pub fn find_model(alloc: Global, set: &GroundSet) -> Result<Option<GroundModel>, NoMemory>
    requires { IsWellFormed set.now }
    ensures model { IfOk result (λ found. IfSome found (λ model. IsModel set.now model.class)) }
    ensures none { result ≡ Ok None → HasModel set.now → ⊥ }
{
    match solve(alloc, set)? {
        Answer::Open(model) => Ok(Some(model)),
        Answer::Closed(_tree) => Ok(None),
    }
}
