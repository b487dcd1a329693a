// A control flow as plain lists. Inference reads no more of a flow than these, and borrows them, so that
// a flow with further claims in front of some steps is judged without a copy of it: those steps get a
// longer list of primitives, and every other step keeps that of the flow.
ghost use Rattle.std.specs.Prelude.{◌≡◌, ◌++◌, ◌-◌, ◌≤◌, ◌<◌, IfOk};
ghost use Rattle.std.specs.Prelude.{OnOk, length, map, replicate};
ghost use Rattle.plc_base.specs.Limits.{most};
ghost use Rattle.plc_base.specs.declared.limits.What1.TheVariants as limits;
ghost use Rattle.plc_lang.specs.Fit.{FileFits};
ghost use Rattle.plc_lang.specs.Locals.{pointers_of};
ghost use Rattle.plc_flow.specs.declared.flow.Gate.{Gate};
ghost use Rattle.plc_flow.specs.WellFormed.{IsWellFormed};
ghost use Rattle.plc_flow.specs.Skeleton.{pointers_by_point, passage_of};
ghost use Rattle.plc_flow.specs.StepsByPoint.{IsIndexOf};
ghost use Rattle.plc_infer.specs.Programs.{IsProgram, edge_of, first_points, program_of};

use plc_base::{NoMemory, PointId};
use plc_flow::{Flow, Gate, StepsByPoint};
use plc_lang::{Op, Prim, count_pointers};
use std::alloc::Global;

/// A step from one point to another.
#[derive(Clone, Copy)]
pub struct Edge<'a> {
    pub from: PointId,
    pub to: PointId,
    pub prims: &'a [Prim],
}

/// A control flow as inference reads it.
#[derive(Clone, Copy)]
pub struct Program<'a> {
    /// How many shared pointers there are.
    pub shared: u16,
    /// How many pointer locals there are at each point.
    pub locals: &'a [u16],
    /// Where operations begin.
    pub entries: &'a [PointId],
    /// The steps, in order.
    pub steps: &'a [Edge<'a>],
}

/// The steps of a flow, in order. The one error is that memory runs out.
pub fn edges<'a>(alloc: Global, flow: &'a Flow) -> Result<Vec<Edge<'a>>, NoMemory>
    ensures { IfOk result (λ edges. map edge_of edges.items ≡ map passage_of flow.now.steps) }
{
    let steps = flow.steps.as_slice();
    let mut edges = Vec::new(alloc);
    for step in steps {
        edges.push(Edge {
            from: step.from,
            to: step.to,
            prims: step.prims.as_slice(),
        })?;
    }
    Ok(edges)
}

/// The first points of a program's steps, in order.
fn first_points(alloc: Global, program: &Program) -> Result<Vec<PointId>, NoMemory>
    ensures { IfOk result (λ firsts. firsts.items ≡ first_points program.now) }
{
    let steps = program.steps;
    let mut firsts = Vec::new(alloc);
    for step in steps {
        firsts.push(step.from)?;
    }
    Ok(firsts)
}

/// The index of a program's steps by the points that they leave, made once for all that goes on to look at its steps.
/// The one error is that memory runs out.
pub(crate) fn steps_by_point(alloc: Global, program: &Program) -> Result<StepsByPoint, NoMemory>
    requires { IsProgram (program_of program.now) }
    ensures { IfOk result (λ index. IsIndexOf (first_points program.now) index) }
{
    let firsts = first_points(alloc, program)?;
    StepsByPoint::new(alloc, program.locals.len(), firsts.as_slice())
}

/// The points where the operations of a flow begin. The one error is that memory runs out.
pub fn entries(alloc: Global, flow: &Flow) -> Result<Vec<PointId>, NoMemory>
    ensures { IfOk result (λ entries. entries.items ≡ map (λ (g : Gate). g.entry) flow.now.gates) }
{
    let gates = flow.gates.as_slice();
    let mut entries = Vec::new(alloc);
    for gate in gates {
        entries.push(gate.entry)?;
    }
    Ok(entries)
}

/// How many pointer locals an operation has, as environments count them.
fn pointer_count(op: &Op) -> u16
    requires { length op.now.locals ≤ most limits.Locals }
    ensures { result ≡ pointers_of op.now }
{
    count_pointers(op) as u16
}

/// The count of one operation at each of its points, after those of the operations before.
fn push_counts(count: u16, gate: Gate, counts: &mut Vec<u16>) -> Result<(), NoMemory>
    requires { gate.first < gate.after }
    ensures { OnOk result (counts.new.items ≡ counts.old.items ++ replicate (gate.after - gate.first) count) }
{
    for _ in gate.first..gate.after {
        counts.push(count)?;
    }
    Ok(())
}

/// The number of pointer locals at each point of a flow. The one error is that memory runs out.
pub fn pointers_by_point(alloc: Global, flow: &Flow) -> Result<Vec<u16>, NoMemory>
    requires flow { IsWellFormed flow.now }
    requires file { FileFits flow.now.file }
    ensures { IfOk result (λ counts. counts.items ≡ pointers_by_point flow.now.file.ops flow.now.gates) }
{
    let ops = flow.file.ops.as_slice();
    let gates = flow.gates.as_slice();
    let mut counts = Vec::new(alloc);
    for k in 0..ops.len() {
        push_counts(pointer_count(&ops[k]), gates[k], &mut counts)?;
    }
    Ok(counts)
}
