// What is read of a flow once, and stays the same through all trials. Inference borrows it: a trial adds the steps,
// each with its claims in front, and so makes the program that inference reads. The flow itself is never changed: a
// trial copies its primitives into lists, with the claims in front.
ghost use Rattle.std.specs.Prelude.{List};
ghost use Rattle.plc_suggest.specs.declared.spot.Spot.{Spot as ASpot};
ghost use Rattle.plc_suggest.specs.Marking.{AreMarked};
ghost use Rattle.plc_suggest.specs.Trials.{AreParts, IsMarkedProgram};

use crate::spot::Spot;
use plc_auto::Observer;
use plc_base::PointId;
use plc_flow::{Flow, StepsByPoint};
use plc_infer::{Edge, Program};

/// A flow with its observer, what inference reads of it beside its steps, and its spots.
#[derive(Clone, Copy)]
pub(crate) struct Parts<'a> {
    pub(crate) flow: &'a Flow,
    pub(crate) observer: &'a Observer,
    /// How many shared pointers there are.
    pub(crate) shared: u16,
    /// How many pointer locals there are at each point.
    pub(crate) locals: &'a [u16],
    /// Where operations begin.
    pub(crate) entries: &'a [PointId],
    /// The steps by the points that they leave, which no claims change.
    pub(crate) index: &'a StepsByPoint,
    /// All spots, in order.
    pub(crate) spots: &'a [Spot],
}

/// The program with the flow's steps marked, as these are.
pub(crate) fn marked_program<'a>(parts: &'a Parts<'_>, steps: &'a [Edge<'a>]) -> Program<'a>
    requires { AreParts parts.now }
    ensures { (spots : List ASpot) → AreMarked parts.now.flow.now spots steps.now
        → IsMarkedProgram parts.now spots result }
{
    Program {
        shared: parts.shared,
        locals: parts.locals,
        entries: parts.entries,
        steps,
    }
}
