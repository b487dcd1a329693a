// What inference reads of a flow, in lists of its own. A program only borrows: whoever infers of a flow owns these
// lists meanwhile, and lends them as one.
ghost use Rattle.std.specs.Prelude.{◌≡◌, IfOk};
ghost use Rattle.plc_lang.specs.Fit.{FileFits};
ghost use Rattle.plc_flow.specs.WellFormed.{IsWellFormed};
ghost use Rattle.plc_flow.specs.Skeleton.{skeleton_of};
ghost use Rattle.plc_infer.specs.Programs.{program_of};
ghost use Rattle.plc_infer.specs.FlowLists.{listed};

use crate::program::{Edge, Program, edges, entries, pointers_by_point};
use plc_base::{NoMemory, PointId};
use plc_flow::Flow;
use std::alloc::Global;

/// The parts of a program, read from a flow.
#[derive(Drop)]
pub(crate) struct FlowLists<'a> {
    shared: u16,
    locals: Vec<u16>,
    entries: Vec<PointId>,
    steps: Vec<Edge<'a>>,
}

impl<'a> FlowLists<'a> {
    /// The lists of a flow.
    pub(crate) fn of(alloc: Global, flow: &'a Flow) -> Result<FlowLists<'a>, NoMemory>
        requires flow { IsWellFormed flow.now }
        requires file { FileFits flow.now.file }
        ensures { IfOk result (λ lists. listed lists ≡ skeleton_of flow.now) }
    {
        let locals = pointers_by_point(alloc, flow)?;
        let entries = entries(alloc, flow)?;
        let steps = edges(alloc, flow)?;
        Ok(FlowLists {
            shared: flow.file.shared.len() as u16,
            locals,
            entries,
            steps,
        })
    }

    /// The program that they are.
    pub(crate) fn program(&self) -> Program<'_>
        ensures { program_of result ≡ listed self.now }
    {
        Program {
            shared: self.shared,
            locals: self.locals.as_slice(),
            entries: self.entries.as_slice(),
            steps: self.steps.as_slice(),
        }
    }
}
