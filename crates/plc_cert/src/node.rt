// Trees as JSON values: the list of the nodes in preorder, a split `[0,clause]`, a leaf
// `[1,term,term]`. The list is flat, so that a deep tree nests no deeper than any other.
ghost use Rattle.std.specs.Prelude.{◌≡◌};
ghost use Rattle.serde_json.specs.View.{view};
ghost use Rattle.plc_cert.specs.Shape.{split_of, leaf_of, node_of, tree_of};

use crate::number::index;
use crate::part::{Part, list};
use plc_base::NoMemory;
use plc_ground::{Node, Tree};
use serde_json::Value;
use std::alloc::Global;

/// The split that two items are, if they are one.
fn split(kind: &Value, clause: &Value) -> Option<Node>
    ensures { result ≡ split_of (view kind.now) (view clause.now) }
{
    if index(kind)? == 0 {
        Some(Node::Split(index(clause)?))
    } else {
        None
    }
}

/// The leaf that three items are, if they are one.
fn leaf(kind: &Value, left: &Value, right: &Value) -> Option<Node>
    ensures { result ≡ leaf_of (view kind.now) (view left.now) (view right.now) }
{
    if index(kind)? == 1 {
        Some(Node::Leaf(index(left)?, index(right)?))
    } else {
        None
    }
}

impl Part for Node {
    ghost shape = { node_of };

    fn read(_alloc: Global, value: &Value) -> Result<Option<Node>, NoMemory> {
        let Some(items) = value.as_array() else {
            return Ok(None);
        };
        match items.as_slice() {
            [kind, clause] => Ok(split(kind, clause)),
            [kind, left, right] => Ok(leaf(kind, left, right)),
            _ => Ok(None),
        }
    }
}

impl Part for Tree {
    ghost shape = { tree_of };

    fn read(alloc: Global, value: &Value) -> Result<Option<Tree>, NoMemory> {
        match list(alloc, value)? {
            Some(nodes) => Ok(Some(Tree { nodes })),
            None => Ok(None),
        }
    }
}
