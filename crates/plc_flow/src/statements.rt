// The table of the statements, a row each: the points that it makes, then its steps, and the point
// that the next statement goes on from. Points that no step leads to may be made; none is left out
// or joined with another.
ghost use Rattle.std.specs.Prelude.{◌≤◌};
ghost use Rattle.plc_lang.specs.Statements.{Call, If, Choose, Loop};
ghost use Rattle.plc_lang.specs.Views.{statement_of, blocks_of};
ghost use Rattle.plc_flow.specs.Lowering.{most_points, one_made, call_made, side_made, leave_made};
ghost use Rattle.plc_flow.specs.Lowering.{statement_made, statements_made, blocks_made};
ghost use Rattle.plc_flow.specs.Builder.{Makes, MakesBranches};

use crate::builder::{Builder, Here, Next, join_all, label, label_during, point, step};
use crate::flow::FlowFault;
use crate::sides::{call_prims, copied, false_prims, one, true_prims};
use plc_base::{FuncId, Items, PointId};
use plc_lang::{Block, Cond, Prim, Stmt};

/// Primitives that are one step.
fn lower_one(here: Here, from: PointId, prims: Items<Prim>, out: &mut Builder) -> Next
    requires { out.old.points ≤ most_points }
    ensures { Makes out.old out.new result (one_made prims here out.old.points from.0) }
{
    let to = point(out)?;
    step(here, from, to, prims, out)
}

/// A call and its return; `during` names the point between the two.
fn lower_call(
    here: Here,
    from: PointId,
    func: FuncId,
    prims: Items<Prim>,
    during: Option<u16>,
    out: &mut Builder,
) -> Next
    requires { out.old.points ≤ most_points }
    ensures { Makes out.old out.new result (call_made func prims during here out.old.points from.0) }
{
    let called = point(out)?;
    let done = point(out)?;
    step(here, from, called, prims, out)?;
    label_during(during, called, out)?;
    step(
        here,
        called,
        done,
        one(out.alloc, Prim::Done { func })?,
        out,
    )
}

/// A step to the exit, or out of a loop. What stands after it goes on from a point of its own.
fn lower_leave(here: Here, from: PointId, to: PointId, out: &mut Builder) -> Next
    requires { out.old.points ≤ most_points }
    ensures { Makes out.old out.new result (leave_made (λ h. to) here out.old.points from.0) }
{
    step(here, from, to, Items::new(out.alloc), out)?;
    point(out)
}

/// One statement, by its kind.
#[cycle(lower)]
fn lower_stmt(here: Here, from: PointId, stmt: &Stmt, out: &mut Builder) -> Next
    requires { out.old.points ≤ most_points }
    ensures { Makes out.old out.new result (statement_made (statement_of stmt.now) here out.old.points from.0) }
{
    match stmt {
        Stmt::One(prim) => lower_one(here, from, one(out.alloc, *prim)?, out),
        Stmt::Atomic(prims) => lower_one(here, from, copied(out.alloc, prims.as_slice())?, out),
        Stmt::Call {
            func,
            arg,
            active,
            during,
        } => {
            let prims = call_prims(out.alloc, *active, *func, *arg)?;
            lower_call(here, from, *func, prims, *during, out)
        }
        Stmt::If { cond, yes, no } => lower_if(here, from, *cond, yes, no, out),
        Stmt::Choose(blocks) => lower_choose(here, from, blocks, out),
        Stmt::Loop(block) => lower_loop(here, from, block, out),
        Stmt::Break => lower_leave(here, from, here.after, out),
        Stmt::Return => lower_leave(here, from, here.exit, out),
        Stmt::Skip => lower_one(here, from, Items::new(out.alloc), out),
        Stmt::Label(_) => label(from, out),
    }
}

/// Both sides from one point, the one on which the condition holds first, and a join.
#[cycle(lower)]
fn lower_if(
    here: Here,
    from: PointId,
    cond: Cond,
    yes: &Block,
    no: &Block,
    out: &mut Builder,
) -> Next
    requires { out.old.points ≤ most_points }
    ensures { Makes out.old out.new result (statement_made (If cond yes.now no.now) here out.old.points from.0) }
{
    let first = lower_side(here, from, true_prims(out.alloc, cond)?, yes, out)?;
    let second = lower_side(here, from, false_prims(out.alloc, cond)?, no, out)?;
    let join = point(out)?;
    step(here, first, join, Items::new(out.alloc), out)?;
    step(here, second, join, Items::new(out.alloc), out)
}

/// All blocks from one point, and a join.
#[cycle(lower)]
fn lower_choose(here: Here, from: PointId, blocks: &[Block], out: &mut Builder) -> Next
    requires { out.old.points ≤ most_points }
    ensures { Makes out.old out.new result (statement_made (Choose (blocks_of blocks.now)) here out.old.points from.0) }
{
    let ends = lower_branches(here, from, blocks, out)?;
    let after = point(out)?;
    join_all(here, ends.as_slice(), after, out)
}

/// A point to which the block's end leads back, and one after the loop, which a `break` leads to.
#[cycle(lower)]
fn lower_loop(here: Here, from: PointId, block: &Block, out: &mut Builder) -> Next
    requires { out.old.points ≤ most_points }
    ensures { Makes out.old out.new result (statement_made (Loop block.now) here out.old.points from.0) }
{
    let head = point(out)?;
    let after = point(out)?;
    step(here, from, head, Items::new(out.alloc), out)?;
    let end = lower_block(Here { after, ..here }, head, block, out)?;
    step(here, end, head, Items::new(out.alloc), out)?;
    Ok(after)
}

/// A step with these primitives to a new point, and the block from there.
#[cycle(lower)]
fn lower_side(
    here: Here,
    from: PointId,
    prims: Items<Prim>,
    block: &Block,
    out: &mut Builder,
) -> Next
    requires { out.old.points ≤ most_points }
    ensures { Makes out.old out.new result (side_made prims (statements_made block.now) here out.old.points from.0) }
{
    let first = point(out)?;
    step(here, from, first, prims, out)?;
    lower_block(here, first, block, out)
}

/// Blocks side by side from one point, and the end of each.
#[cycle(lower)]
fn lower_branches(
    here: Here,
    from: PointId,
    blocks: &[Block],
    out: &mut Builder,
) -> Result<Items<PointId>, FlowFault>
    requires { out.old.points ≤ most_points }
    ensures { MakesBranches out.old out.new result (blocks_made (blocks_of blocks.now) here out.old.points from.0) }
{
    let mut ends = Items::new(out.alloc);
    for block in blocks {
        let end = lower_side(here, from, Items::new(out.alloc), block, out)?;
        ends.push(end)?;
    }
    Ok(ends)
}

/// Statements in order, each from the point that the one before it goes on from.
#[cycle(lower)]
pub(crate) fn lower_block(here: Here, from: PointId, block: &Block, out: &mut Builder) -> Next
    requires { out.old.points ≤ most_points }
    ensures { Makes out.old out.new result (statements_made block.now here out.old.points from.0) }
{
    let mut at = from;
    for line in block.lines() {
        let here = Here {
            line: line.line,
            ..here
        };
        at = lower_stmt(here, at, &line.stmt, out)?;
    }
    Ok(at)
}
