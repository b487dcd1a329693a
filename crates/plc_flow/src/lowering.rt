// The operations of a file one after another, each with a run of points of its own, which begins
// with its entry and its exit.
ghost use Rattle.std.specs.Prelude.{◌≡◌, ◌≤◌, ◌+◌, IfOk};
ghost use Rattle.plc_lang.specs.Fit.{FileFits, NamesWhatIsThere};
ghost use Rattle.plc_lang.specs.WellSorted.{FileIsWellSorted};
ghost use Rattle.plc_flow.specs.Lowering.{IsLowered, most_points, op_made, ops_made};
ghost use Rattle.plc_flow.specs.Builder.{Makes, MakesGates, finished};
ghost use Rattle.plc_flow.specs.WellFormed.{IsWellFormed, FlowFits};
ghost use Rattle.plc_flow.specs.WellSorted.{FlowIsWellSorted};

use crate::builder::{Builder, Here, Next, point, step};
use crate::flow::{Flow, FlowFault, Gate};
use crate::statements::lower_block;
use plc_base::{Items, OpId, PointId};
use plc_lang::{File, Op};
use std::alloc::Global;

/// An operation: its entry, its exit, its body, and a closing step without primitives. The answer
/// is its exit.
fn lower_op(id: OpId, op: &Op, out: &mut Builder) -> Next
    requires { out.old.points ≤ most_points }
    ensures { Makes out.old out.new result (op_made id.0 op.now out.old.points) }
{
    let entry = point(out)?;
    let exit = point(out)?;
    let here = Here {
        op: id,
        exit,
        after: exit,
        line: op.line,
    };
    let last = lower_block(here, entry, &op.body, out)?;
    step(here, last, exit, Items::new(out.alloc), out)
}

/// The operations in order, and the gate of each.
fn lower_ops(ops: &[Op], out: &mut Builder) -> Result<Items<Gate>, FlowFault>
    requires { out.old.points ≤ most_points }
    ensures { MakesGates out.old out.new result (ops_made 0 ops.now out.old.points) }
{
    let mut gates = Items::new(out.alloc);
    let mut id = 0;
    for op in ops {
        let first = out.points;
        let exit = lower_op(OpId(id), op, out)?;
        gates.push(Gate {
            entry: PointId(first),
            exit,
            first,
            after: out.points,
        })?;
        id += 1;
    }
    Ok(gates)
}

/// The file with all that was made of it, or the fault that ended the making.
fn finish(
    file: File,
    gates: Result<Items<Gate>, FlowFault>,
    out: Builder,
) -> Result<Flow, FlowFault>
    ensures { result ≡ finished file gates out }
{
    Ok(Flow {
        file,
        gates: gates?,
        steps: out.steps,
        points: out.points,
        labels: out.labels,
    })
}

/// The control flow of a file: points and steps over the whole file in order of creation, for each
/// operation its entry, its exit and the range of its points, and the labelled points in the order
/// of the text. `TooManyPoints` comes exactly where the file makes more than 4,096 points.
pub fn lower(alloc: Global, file: File) -> Result<Flow, FlowFault>
    ensures lowered { IsLowered file result }
    ensures fits { FileFits file → IfOk result IsWellFormed }
    ensures named { FileFits file → NamesWhatIsThere file → IfOk result FlowFits }
    ensures sorted { FileIsWellSorted file → IfOk result FlowIsWellSorted }
{
    let mut out = Builder {
        points: 0,
        steps: Items::new(alloc),
        labels: Items::new(alloc),
        alloc,
    };
    let gates = lower_ops(file.ops.as_slice(), &mut out);
    finish(file, gates, out)
}
