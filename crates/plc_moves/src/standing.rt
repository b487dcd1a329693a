// Where each thread stands, and which moves of threads that leaves open. What a move does to memory stands apart from
// it, in the layers above.
ghost use Rattle.std.specs.Prelude.{◌≡◌, ◌<◌, None, get_or, length, option_map};
ghost use Rattle.plc_base.specs.Tables.{put_at};
ghost use Rattle.plc_flow.specs.StepsByPoint.{IsIndexOf, first_points};
ghost use Rattle.plc_moves.specs.Standing.{is_idle, begun, step_of, at_exit};

use crate::entries::entry_or;
use plc_base::OpId;
use plc_flow::{Flow, Point, Step, StepsByPoint, nth_step};
use plc_lang::{Op, count_parameters};

/// The point where a thread stands; `None` where it is idle, or there is no such thread.
pub fn point_at(points: &[Option<Point>], t: u32) -> Option<Point>
    ensures { result ≡ get_or points.now t None }
{
    entry_or(points, t as usize, None)
}

/// Whether there is such a thread, and it is idle.
fn is_idle(points: &[Option<Point>], t: u32) -> bool
    ensures { result ≡ is_idle points.now t }
{
    let t = t as usize;
    t < points.len() && points[t].is_none()
}

/// Puts a thread at a point, or makes it idle.
pub fn set_point(points: &mut Vec<Option<Point>>, t: u32, p: Option<Point>)
    requires { t < length points.old.items }
    ensures put { points.new.items ≡ put_at None points.old.items t p }
    ensures many { length points.new.items ≡ length points.old.items }
{
    points[t as usize] = p;
}

/// The point to which a step leads.
pub fn arrival(point: Point, step: &Step) -> Point
    ensures { result ≡ record point { at = step.now.to.0 } }
{
    Point {
        op: point.op,
        at: step.to.0,
    }
}

/// What a thread begins with these arguments, and the point where it begins. `None` comes exactly where the thread
/// isn't idle, and where there is no such operation, or none with so many parameters.
pub fn begun<'a>(
    flow: &'a Flow,
    points: &[Option<Point>],
    t: u32,
    op: OpId,
    args: &[u32],
) -> Option<(&'a Op, Point)>
    ensures { option_map (λ r. (r.0.now, r.1)) result ≡ begun flow.now points.now t op.0 args.now }
{
    if !is_idle(points, t) {
        return None;
    }
    let operation = flow.file.ops.get(op.0 as usize)?;
    let gate = flow.gates.get(op.0 as usize)?;
    if args.len() != count_parameters(operation) {
        return None;
    }
    let entry = Point {
        op: op.0,
        at: gate.entry.0,
    };
    Some((operation, entry))
}

/// The point where a busy thread stands, and the nth of the steps that leave it. `None` comes exactly where the thread
/// is idle, and where fewer steps leave.
pub fn step_at<'a>(
    flow: &'a Flow,
    points: &[Option<Point>],
    t: u32,
    nth: u16,
) -> Option<(Point, &'a Step)>
    ensures { option_map (λ r. (r.0, r.1.now)) result ≡ step_of flow.now nth (get_or points.now t None) }
{
    let point = point_at(points, t)?;
    let step = nth_step(flow, point.at, nth)?;
    Some((point, step))
}

/// The point where a busy thread stands, and the nth of the steps that leave it, which the index of the flow's steps
/// finds without a walk over all of them. `None` comes exactly where the thread is idle, and where fewer steps leave.
pub fn indexed_step_at<'a>(
    flow: &'a Flow,
    index: &StepsByPoint,
    points: &[Option<Point>],
    t: u32,
    nth: u16,
) -> Option<(Point, &'a Step)>
    requires { IsIndexOf (first_points flow.now) index.now }
    ensures { option_map (λ r. (r.0, r.1.now)) result ≡ step_of flow.now nth (get_or points.now t None) }
{
    let point = point_at(points, t)?;
    let step = index.nth_step(flow, point.at, nth)?;
    Some((point, step))
}

/// Whether a thread is busy, and stands at the exit of its operation.
pub fn at_exit(flow: &Flow, points: &[Option<Point>], t: u32) -> bool
    ensures { result ≡ at_exit flow.now (get_or points.now t None) }
{
    let Some(point) = point_at(points, t) else {
        return false;
    };
    match flow.gates.get(point.op as usize) {
        Some(gate) => point.at == gate.exit.0,
        None => false,
    }
}
