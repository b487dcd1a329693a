// What becomes of a tree that closes a child. If its core lacks the child's literal, the branch above has
// all that the tree needs. Then it stands in place of the whole split, whose other children need no
// search, and the next split above is asked the same.
ghost use Rattle.std.specs.Prelude.{◌≡◌, ◌<◌, ◌≤◌, ◌∷◌, ℕ, length, IfOk, IfSome, OnOk, slice_get, Some};
ghost use Rattle.std.specs.Prelude.{None, Ok, reverse, vec_len};
ghost use Rattle.plc_ground.specs.Model.{literals};
ghost use Rattle.plc_ground.specs.declared.terms.Node.{Node};
ghost use Rattle.plc_solve.specs.Search.{Stands, ClosesTop, ClosesAll, splits};
ghost use Rattle.plc_solve.specs.Measure.{left, left_below};

use crate::chain::{Forest, cut};
use crate::cores::has;
use crate::frame::{Frame, take_tree, whole};
use crate::place::{Place, go_up};
use plc_ground::{GroundSet, Lit, Node, clause};
use std::alloc::{AllocError, Global};

/// The literal of the next child of a split.
fn own_literal(set: &GroundSet, top: &Frame) -> Lit
    requires known { top.now.clause < length set.now.clauses }
    requires child { top.now.next < length (literals set.now top.now.clause) }
    ensures { slice_get (literals set.now top.now.clause) top.now.next ≡ Some result }
{
    clause(set, top.clause as usize)[top.next]
}

/// Hands the tree of a split whose children are all closed to the splits above: those that it makes
/// needless go, and the next takes it. What closes all is the answer.
pub(crate) fn hand_up(
    alloc: Global,
    set: &GroundSet,
    frames: &mut Vec<Frame>,
    place: &mut Place,
    forest: &mut Forest,
    done: &Frame,
) -> Result<Option<Vec<Node>>, AllocError>
    requires stands { Stands set.now place.old (reverse frames.old.items) }
    requires closes { ClosesTop set.now (splits place.old (reverse frames.old.items)) done.now.core.items
        (Node.Split done.now.clause ∷ done.now.nodes.items) }
    ensures stands { result ≡ Ok None → Stands set.now place.new (reverse frames.new.items) }
    ensures less { result ≡ Ok None → (base : ℕ)
        → left set.now base (splits place.new (reverse frames.new.items))
        ≤ left_below set.now base (splits place.old (reverse frames.old.items)) }
    ensures nonempty { result ≡ Ok None → 0 < vec_len frames.new }
    ensures closed { IfOk result (λ o. IfSome o (λ all. ClosesAll set.now all.items)) }
{
    while let Some(mut top) = frames.pop() {
        cut(forest, top.depth);
        go_up(place, &top);
        let own = own_literal(set, &top);
        if has(&done.core, own) {
            take_tree(set, &mut top, own, done)?;
            frames.push(top)?;
            return Ok(None);
        }
    }
    Ok(Some(whole(alloc, done)?))
}
