// What the lowering has made so far. It only grows: points are counted, steps and labels are pushed,
// so that what a statement makes is said by its own points, steps and labels, and one statement
// after another by `+` and `++`.
ghost use Rattle.std.specs.Prelude.{◌≤◌, ◌+◌};
ghost use Rattle.plc_flow.specs.Lowering.{most_points, label_made};
ghost use Rattle.plc_flow.specs.Builder.{Makes, a_point, a_step, a_during, a_join};

use crate::flow::{FlowFault, Step};
use plc_base::{Items, OpId, PointId, What1};
use plc_lang::Prim;
use std::alloc::Global;

/// The points, the steps and the labels that are made so far, and where their lists are made.
#[derive(Drop)]
pub(crate) struct Builder {
    pub points: u16,
    pub steps: Items<Step>,
    pub labels: Items<PointId>,
    pub alloc: Global,
}

/// What stands around a statement.
#[derive(Clone, Copy)]
pub(crate) struct Here {
    pub op: OpId,
    /// The exit of the operation, to which a `return` leads.
    pub exit: PointId,
    /// The point after the innermost loop, to which a `break` leads.
    pub after: PointId,
    /// The line of the statement's first token.
    pub line: u32,
}

/// The point that the next step goes on from.
pub(crate) type Next = Result<PointId, FlowFault>;

/// One more point.
pub(crate) fn point(out: &mut Builder) -> Next
    requires { out.old.points ≤ most_points }
    ensures { Makes out.old out.new result (a_point out.old.points) }
{
    if u32::from(out.points) == What1::Points.most() {
        return Err(FlowFault::TooManyPoints {
            count: What1::Points.most() + 1,
        });
    }
    let made = PointId(out.points);
    out.points += 1;
    Ok(made)
}

/// One more step, which goes on from its last point.
pub(crate) fn step(
    here: Here,
    from: PointId,
    to: PointId,
    prims: Items<Prim>,
    out: &mut Builder,
) -> Next
    requires { out.old.points ≤ most_points }
    ensures { Makes out.old out.new result (a_step here from.0 to.0 prims) }
{
    out.steps.push(Step {
        op: here.op,
        from,
        to,
        prims,
        line: here.line,
    })?;
    Ok(to)
}

/// One more label, which names the point that it goes on from.
pub(crate) fn label(at: PointId, out: &mut Builder) -> Next
    requires { out.old.points ≤ most_points }
    ensures { Makes out.old out.new result (label_made at.0) }
{
    out.labels.push(at)?;
    Ok(at)
}

/// The label that a call may have between its steps.
pub(crate) fn label_during(during: Option<u16>, called: PointId, out: &mut Builder) -> Next
    requires { out.old.points ≤ most_points }
    ensures { Makes out.old out.new result (a_during during called.0) }
{
    match during {
        Some(_) => label(called, out),
        None => Ok(called),
    }
}

/// A step from each end to the point where they join.
pub(crate) fn join_all(here: Here, ends: &[PointId], join: PointId, out: &mut Builder) -> Next
    requires { out.old.points ≤ most_points }
    ensures { Makes out.old out.new result (a_join here ends.now join.0) }
{
    for end in ends {
        step(here, *end, join, Items::new(out.alloc), out)?;
    }
    Ok(join)
}
