// Trees that close the ground sets of obligations: that of an obligation which is alike, where there is one, else the
// direct one where the obligation is still, else as the solver finds it. The sets are made one after another over the
// same memory.
ghost use Rattle.std.specs.Prelude.{◌≡◌, ◌<◌, [], IfOk, Contains, Some, length, slice_get};
ghost use Rattle.plc_vocabulary.specs.Fit.{Fits};
ghost use Rattle.plc_oblig.specs.Programs.{ProgramFits, Serves, obligations_of};
ghost use Rattle.plc_check.specs.Counterexamples.{IsShown, NotedHaveTrees, AddsShown, AreShown};

use crate::counterexample::Counterexample;
use crate::judged::Judged;
use plc_base::{Items, NoMemory};
use plc_ground::Tree;
use plc_oblig::{AlikeObligations, Annotated, Grounding, Obligation, Walk, annotate};
use plc_solve::{Answer, refute};
use std::alloc::Global;

/// What there is to show of an obligation.
#[derive(Drop)]
pub(crate) enum Shown {
    /// A tree that closes its ground set.
    Tree(Tree),
    /// What breaks it.
    Broken(Counterexample),
}

/// What there is to show of an outline.
#[derive(Drop)]
pub(crate) enum AllShown {
    /// A tree for each obligation, in order.
    Trees(Items<Tree>),
    /// What breaks the least that isn't kept.
    Broken(Counterexample),
}

/// A tree that closes the ground set of an obligation, or what breaks the obligation, as the solver answers.
fn solve_at(
    memory: &mut Grounding,
    program: &Annotated<'_>,
    obligation: Obligation,
) -> Result<Shown, NoMemory>
    requires fits { ProgramFits program.now }
    requires serves { Serves memory.old program.now }
    ensures serves { Serves memory.new program.now }
    ensures shown { IfOk result (IsShown program.now.flow.now program.now.outline.now obligation) }
{
    let set = memory.ground(program, &obligation)?;
    match refute(memory.alloc, &set) {
        Ok(Answer::Closed(tree)) => {
            memory.reuse(set);
            Ok(Shown::Tree(tree))
        }
        Ok(Answer::Open(model)) => Ok(Shown::Broken(Counterexample {
            obligation,
            set,
            model,
        })),
        Err(NoMemory) => Err(NoMemory),
    }
}

/// A tree that closes the ground set of an obligation, or what breaks it; of a still obligation the solver isn't
/// asked.
fn make_tree(
    memory: &mut Grounding,
    program: &Annotated<'_>,
    obligation: Obligation,
) -> Result<Shown, NoMemory>
    requires fits { ProgramFits program.now }
    requires there { Contains (obligations_of program.now) obligation }
    requires serves { Serves memory.old program.now }
    ensures serves { Serves memory.new program.now }
    ensures shown { IfOk result (IsShown program.now.flow.now program.now.outline.now obligation) }
{
    match memory.direct(program, &obligation)? {
        Some(tree) => Ok(Shown::Tree(tree)),
        None => solve_at(memory, program, obligation),
    }
}

/// A copy of the tree with this number.
fn copy_of(alloc: Global, trees: &[Tree], at: usize) -> Result<Tree, NoMemory>
    requires { at < length trees.now }
    ensures { IfOk result (λ tree. slice_get trees.now at ≡ Some tree) }
{
    let nodes = Vec::from_slice(alloc, trees[at].nodes.as_slice())?;
    Ok(Tree {
        nodes: Items::from_vec(nodes),
    })
}

/// A tree for one more obligation: that of one which is alike, or one that is made and noted.
fn tree_at(
    memory: &mut Grounding,
    program: &Annotated<'_>,
    noted: &mut AlikeObligations,
    trees: &[Tree],
    obligation: Obligation,
) -> Result<Shown, NoMemory>
    requires fits { ProgramFits program.now }
    requires there { Contains (obligations_of program.now) obligation }
    requires noted { NotedHaveTrees program.now.flow.now program.now.outline.now trees.now noted.old }
    requires serves { Serves memory.old program.now }
    ensures serves { Serves memory.new program.now }
    ensures shown { IfOk result
        (AddsShown program.now.flow.now program.now.outline.now obligation trees.now noted.new) }
{
    if let Some(at) = noted.find(program.flow, program.outline, &obligation) {
        return Ok(Shown::Tree(copy_of(memory.alloc, trees, at)?));
    }
    match make_tree(memory, program, obligation)? {
        Shown::Tree(tree) => {
            noted.note(&obligation, trees.len())?;
            Ok(Shown::Tree(tree))
        }
        Shown::Broken(found) => Ok(Shown::Broken(found)),
    }
}

/// A tree for each obligation that a walk hands out, or what breaks the first that isn't kept. The walk stands at its
/// beginning, and nothing is noted yet.
fn trees_on_walk(
    memory: &mut Grounding,
    program: &Annotated<'_>,
    noted: &mut AlikeObligations,
    walk: &mut Walk<'_>,
) -> Result<AllShown, NoMemory>
    requires fits { ProgramFits program.now }
    requires begun { walk.old ≡ obligations_of program.now }
    requires none_noted { noted.old ≡ [] }
    requires serves { Serves memory.old program.now }
    ensures { IfOk result (AreShown program.now.flow.now program.now.outline.now) }
{
    let mut trees = Items::new(memory.alloc);
    while let Some(obligation) = walk.next() {
        let shown = tree_at(memory, program, noted, trees.as_slice(), obligation)?;
        match shown {
            Shown::Tree(tree) => trees.push(tree)?,
            Shown::Broken(found) => return Ok(AllShown::Broken(found)),
        }
    }
    Ok(AllShown::Trees(trees))
}

/// A tree for each obligation, or what breaks the least that isn't kept.
pub(crate) fn trees_of(alloc: Global, judged: &Judged) -> Result<AllShown, NoMemory>
    requires { Fits judged.now.flow judged.now.unit_outline }
    ensures { IfOk result (AreShown judged.now.flow judged.now.unit_outline) }
{
    let program = annotate(&judged.flow, &judged.unit_outline);
    let mut walk = Walk::new(alloc, &judged.flow, &judged.unit_outline)?;
    let mut memory = Grounding::new(alloc);
    let mut noted = AlikeObligations::new(alloc);
    let trees = trees_on_walk(&mut memory, &program, &mut noted, &mut walk);
    drop(walk);
    drop(memory);
    drop(noted);
    trees
}
