// A split on the present branch. It knows how long the branch above it is, and the mark of the table of
// equalities there, so that going back up is cutting both back. The trees of the children that are
// closed stay with the frame until all are, and nothing is written into an answer before: so where one
// child's tree closes the branch above too, it takes the place of the whole split, whose frame and all
// its nodes are dropped.
ghost use Rattle.std.specs.Prelude.{◌≡◌, ◌<◌, ◌+◌, ◌∷◌, [], IfOk, OnOk, length};
ghost use Rattle.plc_ground.specs.Model.{literals};
ghost use Rattle.plc_ground.specs.declared.terms.Node.{Node};
ghost use Rattle.plc_solve.specs.Search.{TakesTree, TakesCore};

use crate::cores::add_core;
use plc_ground::{GroundSet, Lit, Node, clause};
use std::alloc::{AllocError, Global};

/// A split whose children before `next` are closed by `nodes`.
#[derive(Drop)]
pub(crate) struct Frame {
    pub clause: u32,
    pub next: usize,
    pub nodes: Vec<Node>,
    /// What of the branch above these nodes need.
    pub core: Vec<Lit>,
    /// How long the branch above is.
    pub depth: usize,
    /// The mark of the table above.
    pub mark: usize,
}

/// What became of the next child of a split.
#[derive(Drop)]
pub(crate) enum Step {
    /// The classes of the branch are a model.
    Open,
    /// A leaf closes the child.
    Closed,
    /// The child is split in turn.
    Deeper(Frame),
    /// There is no further child.
    Complete,
}

/// Goes on to the child after the next.
fn next_child(set: &GroundSet, top: &mut Frame)
    requires known { top.old.clause < length set.now.clauses }
    requires child { top.old.next < length (literals set.now top.old.clause) }
    ensures { top.new ≡ record top.old { next = top.old.next + 1 } }
{
    if top.next < clause(set, top.clause as usize).len() {
        top.next += 1;
    }
}

/// Closes the next child, on its own literal, by a leaf that needs a core of the child's branch.
pub(crate) fn take_leaf(
    set: &GroundSet,
    top: &mut Frame,
    own: Lit,
    a: u32,
    b: u32,
    core: &[Lit],
) -> Result<(), AllocError>
    requires known { top.old.clause < length set.now.clauses }
    requires child { top.old.next < length (literals set.now top.old.clause) }
    ensures tree { OnOk result (TakesTree top.old top.new (Node.Leaf a b ∷ [])) }
    ensures core { OnOk result (TakesCore top.old.core.items top.new.core.items own core.now) }
{
    top.nodes.push(Node::Leaf(a, b))?;
    add_core(&mut top.core, own, core)?;
    next_child(set, top);
    Ok(())
}

/// Closes the next child, on its own literal, by the tree of a split whose children are all closed.
pub(crate) fn take_tree(
    set: &GroundSet,
    top: &mut Frame,
    own: Lit,
    done: &Frame,
) -> Result<(), AllocError>
    requires known { top.old.clause < length set.now.clauses }
    requires child { top.old.next < length (literals set.now top.old.clause) }
    ensures tree { OnOk result (TakesTree top.old top.new (Node.Split done.now.clause ∷ done.now.nodes.items)) }
    ensures core { OnOk result (TakesCore top.old.core.items top.new.core.items own done.now.core.items) }
{
    top.nodes.push(Node::Split(done.clause))?;
    top.nodes.extend_from_slice(&done.nodes)?;
    add_core(&mut top.core, own, &done.core)?;
    next_child(set, top);
    Ok(())
}

/// The tree of a split whose children are all closed.
pub(crate) fn whole(alloc: Global, done: &Frame) -> Result<Vec<Node>, AllocError>
    ensures { IfOk result (λ tree. tree.items ≡ Node.Split done.now.clause ∷ done.now.nodes.items) }
{
    let mut tree = Vec::new(alloc);
    tree.push(Node::Split(done.clause))?;
    tree.extend_from_slice(&done.nodes)?;
    Ok(tree)
}
