// A ground set that ends with the opposites of an earlier clause's literals: which clause that is, and the
// tree that closes the set. Nothing is searched for but the clause.
ghost use Rattle.std.specs.Prelude.{◌≡◌, ◌≢◌, ◌<◌, ◌^◌, ℕ, IsTrue, false, IfOk, IfSome, IfNone};
ghost use Rattle.std.specs.Prelude.{[], ◌∷◌, length};
ghost use Rattle.plc_oblig.specs.Direct.{opposite, IsRefuted, IsRefutedByLast, direct_nodes};

use plc_base::{Items, NoMemory};
use plc_ground::{GroundSet, Lit, Node, Tree, clause};
use std::alloc::Global;

/// Whether the clause is the opposite of a literal alone.
fn is_opposite(literals: &[Lit], l: Lit) -> bool
    ensures yes { IsTrue result → literals.now ≡ opposite l ∷ [] }
    ensures no { result ≡ false → literals.now ≢ opposite l ∷ [] }
{
    match literals {
        [unit] => unit.left == l.left && unit.right == l.right && unit.equal != l.equal,
        _ => false,
    }
}

/// Whether the set ends with the opposites of this clause's literals, and the clause stands before them.
fn is_refuted(set: &GroundSet, c: usize) -> bool
    requires { c < length set.now.clauses }
    ensures yes { IsTrue result → IsRefuted set.now c }
    ensures no { result ≡ false → IsRefuted set.now c → ⊥ }
{
    let literals = clause(set, c);
    if literals.len() >= set.clauses.len() - c {
        return false;
    }
    let first = set.clauses.len() - literals.len();
    for k in 0..literals.len() {
        if !is_opposite(clause(set, first + k), literals[k]) {
            return false;
        }
    }
    true
}

/// Whether the last n clauses are the opposites of this clause's literals, and the clause stands before them.
fn is_refuted_by_last(set: &GroundSet, n: usize, c: usize) -> bool
    requires { c < length set.now.clauses }
    ensures yes { IsTrue result → IsRefutedByLast set.now n c }
    ensures no { result ≡ false → IsRefutedByLast set.now n c → ⊥ }
{
    clause(set, c).len() == n && is_refuted(set, c)
}

/// The first clause of whose literals the last n clauses are the opposites.
pub(crate) fn find_refuted(set: &GroundSet, n: usize) -> Option<usize>
    ensures some { IfSome result (IsRefutedByLast set.now n) }
    ensures none { IfNone result ((c : ℕ) → IsRefutedByLast set.now n c → ⊥) }
{
    for c in 0..set.clauses.len() {
        if is_refuted_by_last(set, n, c) {
            return Some(c);
        }
    }
    None
}

/// The tree: splits on the last clauses, in order, then on this one, and a leaf for each of its literals.
pub(crate) fn tree_of(alloc: Global, set: &GroundSet, c: usize) -> Result<Tree, NoMemory>
    requires few { length set.now.clauses < 2 ^ 32 }
    requires refuted { IsRefuted set.now c }
    ensures { IfOk result (λ tree. tree.nodes ≡ direct_nodes set.now c) }
{
    let literals = clause(set, c);
    let mut nodes = Items::new(alloc);
    for unit in set.clauses.len() - literals.len()..set.clauses.len() {
        nodes.push(Node::Split(unit as u32))?;
    }
    nodes.push(Node::Split(c as u32))?;
    for l in literals {
        nodes.push(Node::Leaf(l.left, l.right))?;
    }
    Ok(Tree { nodes })
}
