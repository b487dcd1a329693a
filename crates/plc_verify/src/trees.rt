// Whether trees close the ground sets of the obligations, one for each in order. The obligations are walked over
// and one ground set is made at a time, so that no list of either is held. Obligations that are alike have one set, and
// mostly one tree too: then the tree is tried once.
ghost use Rattle.std.specs.Prelude.{◌≡◌, ◌<◌, IsTrue, IfOk, OnOk, MatchResult, length};
ghost use Rattle.plc_vocabulary.specs.Fit.{Fits};
ghost use Rattle.plc_oblig.specs.Programs.{ProgramFits, Serves, obligations_of};
ghost use Rattle.plc_verify.specs.Trees.{TreesClose};
ghost use Rattle.plc_verify.specs.Tests.{MayNotClose};
ghost use Rattle.plc_verify.specs.Evidence.{ClosesSetOf, IsVerdictOn, IsVerdictOf};
ghost use Rattle.plc_verify.specs.Evidence.{IsComplete, TriedClose, Proves, MayNotProve};

use crate::fault::VerifyFault;
use plc_base::NoMemory;
use plc_flow::Flow;
use plc_ground::{Node, Tree, closes};
use plc_logic::Outline;
use plc_oblig::{AlikeObligations, Annotated, Grounding, Obligation, Walk, annotate, count};
use std::alloc::Global;

/// What is said to show that the outline of a program holds: trees, one for each of its obligations in order.
#[derive(Clone, Copy)]
struct Evidence<'a> {
    program: Annotated<'a>,
    trees: &'a [Tree],
}

/// Whether two trees have the same nodes.
fn are_same(a: &[Node], b: &[Node]) -> bool
    ensures { IsTrue result → a.now ≡ b.now }
{
    a == b
}

/// Whether this tree was found to close the set of an obligation that is alike.
fn is_tried(evidence: &Evidence, tried: &AlikeObligations, o: &Obligation, tree: &Tree) -> bool
    requires { TriedClose evidence.now tried.now }
    ensures { IsTrue result → ClosesSetOf evidence.now o.now tree.now.nodes }
{
    let Some(at) = tried.find(evidence.program.flow, evidence.program.outline, o) else {
        return false;
    };
    match evidence.trees.get(at) {
        None => false,
        Some(other) => are_same(other.nodes.as_slice(), tree.nodes.as_slice()),
    }
}

/// None where the tree closes the ground set of the obligation, else its first bad node.
fn first_bad_node(
    memory: &mut Grounding,
    evidence: &Evidence,
    o: &Obligation,
    tree: &Tree,
) -> Result<Option<u64>, NoMemory>
    requires fits { ProgramFits evidence.now.program }
    requires serves { Serves memory.old evidence.now.program }
    ensures serves { Serves memory.new evidence.now.program }
    ensures bad { IfOk result (IsVerdictOn evidence.now o.now tree.now.nodes) }
{
    let set = memory.ground(&evidence.program, o)?;
    let bad = closes(memory.alloc, &set, tree)?;
    memory.reuse(set);
    Ok(bad)
}

/// None where the tree with this number closes the ground set of the obligation, which is then noted; else the
/// tree's first bad node.
fn try_tree(
    memory: &mut Grounding,
    tried: &mut AlikeObligations,
    evidence: &Evidence,
    o: &Obligation,
    at: usize,
) -> Result<Option<u64>, NoMemory>
    requires fits { ProgramFits evidence.now.program }
    requires there { at < length evidence.now.trees.now }
    requires tried { TriedClose evidence.now tried.old }
    requires serves { Serves memory.old evidence.now.program }
    ensures serves { Serves memory.new evidence.now.program }
    ensures bad { IfOk result (IsVerdictOf evidence.now at o.now) }
    ensures tried { OnOk result (TriedClose evidence.now tried.new) }
{
    let tree = &evidence.trees[at];
    if is_tried(evidence, tried, o, tree) {
        return Ok(None);
    }
    let bad = first_bad_node(memory, evidence, o, tree)?;
    if bad.is_none() {
        tried.note(o, at)?;
    }
    Ok(bad)
}

/// Tries each tree in order, over the walk from the first obligation on.
fn try_each(
    memory: &mut Grounding,
    tried: &mut AlikeObligations,
    walk: &mut Walk,
    evidence: &Evidence,
) -> Result<(), VerifyFault>
    requires complete { IsComplete evidence.now }
    requires tried { TriedClose evidence.now tried.old }
    requires first { walk.old ≡ obligations_of evidence.now.program }
    requires serves { Serves memory.old evidence.now.program }
    ensures { MatchResult result (λ _. Proves evidence.now) (λ fault. MayNotProve evidence.now fault) }
{
    for i in 0..evidence.trees.len() {
        let Some(o) = walk.next() else {
            unreachable!();
        };
        let bad = try_tree(memory, tried, evidence, &o, i)?;
        if let Some(node) = bad {
            return Err(VerifyFault::TreeAt {
                obligation: i as u64,
                node,
            });
        }
    }
    Ok(())
}

/// Tries each tree, where there is one for each obligation.
fn try_trees(alloc: Global, evidence: &Evidence) -> Result<(), VerifyFault>
    requires complete { IsComplete evidence.now }
    ensures { MatchResult result (λ _. Proves evidence.now) (λ fault. MayNotProve evidence.now fault) }
{
    let mut walk = Walk::new(alloc, evidence.program.flow, evidence.program.outline)?;
    let mut memory = Grounding::new(alloc);
    let mut tried = AlikeObligations::new(alloc);
    try_each(&mut memory, &mut tried, &mut walk, evidence)
}

/// Ok exactly where there is one tree for each obligation, which closes its ground set.
pub(crate) fn verify_trees(
    alloc: Global,
    flow: &Flow,
    outline: &Outline,
    trees: &[Tree],
) -> Result<(), VerifyFault>
    requires { Fits flow.now outline.now }
    ensures { MatchResult result (λ _. TreesClose flow.now outline.now trees.now)
        (λ fault. MayNotClose flow.now outline.now trees.now fault) }
{
    let want = count(flow, outline);
    let have = trees.len() as u64;
    if have != want {
        return Err(VerifyFault::TreeCount { have, want });
    }
    let evidence = Evidence {
        program: annotate(flow, outline),
        trees,
    };
    try_trees(alloc, &evidence)
}
