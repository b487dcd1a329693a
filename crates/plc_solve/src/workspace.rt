// What the search uses again at each node of a tree, so that most nodes ask for no memory of their own: the
// forest of the branch, and the lists of small splits that are done with. None of it is trusted.
ghost use Rattle.std.specs.Prelude.{◌≡◌, []};

use crate::chain::Forest;
use crate::frame::Frame;
use plc_ground::{GroundSet, Lit, Node};
use std::alloc::{AllocError, Global};

/// How many nodes a split may have whose lists are used again. Most have few, and the lists of the others
/// would take as much memory as the tree.
const MOST_NODES: usize = 64;

/// What is used again.
#[derive(Drop)]
pub(crate) struct Workspace {
    pub forest: Forest,
    spare: Vec<Frame>,
}

impl Workspace {
    /// The workspace of a search that begins.
    pub(crate) fn new(alloc: Global, set: &GroundSet) -> Result<Workspace, AllocError> {
        Ok(Workspace {
            forest: Forest::new(alloc, set)?,
            spare: Vec::new(alloc),
        })
    }
}

/// The lists of a split, emptied.
fn emptied(frame: Frame) -> (Vec<Node>, Vec<Lit>)
    ensures nodes { result.0.items ≡ [] }
    ensures core { result.1.items ≡ [] }
{
    let mut nodes = frame.nodes;
    let mut core = frame.core;
    nodes.truncate(0);
    core.truncate(0);
    (nodes, core)
}

/// Two empty lists for a split.
pub(crate) fn empty_lists(alloc: Global, work: &mut Workspace) -> (Vec<Node>, Vec<Lit>)
    ensures nodes { result.0.items ≡ [] }
    ensures core { result.1.items ≡ [] }
{
    match work.spare.pop() {
        Some(frame) => emptied(frame),
        None => (Vec::new(alloc), Vec::new(alloc)),
    }
}

/// Keeps the lists of a split that is done with.
pub(crate) fn keep_lists(work: &mut Workspace, done: Frame) -> Result<(), AllocError> {
    if done.nodes.len() <= MOST_NODES {
        work.spare.push(done)?;
    }
    Ok(())
}
