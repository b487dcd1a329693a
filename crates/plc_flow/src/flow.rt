// Points are the places between steps; a step is a list of primitives that is taken whole. Points
// and steps are counted over the file in order of creation, and each operation has its own run of
// points, which begins with its entry and its exit.
ghost use Rattle.std.specs.Prelude.{◌≡◌};
ghost use Rattle.plc_flow.specs.declared.flow.FlowFault.TheVariants.{Memory};

use plc_base::{Items, OpId, PointId};
use plc_lang::{File, Prim};
use std::alloc::AllocError;

/// A step of an operation.
#[derive(Drop)]
pub struct Step {
    pub op: OpId,
    pub from: PointId,
    pub to: PointId,
    pub prims: Items<Prim>,
    /// The line of the first token of its statement; the closing step has that of its operation.
    pub line: u32,
}

/// The points of an operation: from `first` to below `after`.
#[derive(Clone, Copy)]
pub struct Gate {
    pub entry: PointId,
    pub exit: PointId,
    pub first: u16,
    pub after: u16,
}

/// A file with its control flow, one gate for each operation.
#[derive(Drop)]
pub struct Flow {
    pub file: File,
    pub gates: Items<Gate>,
    pub steps: Items<Step>,
    pub points: u16,
    /// The labelled points, in the order in which the labels stand in the text.
    pub labels: Items<PointId>,
}

/// Why a file has no flow.
#[derive(Debug, Drop)]
pub enum FlowFault {
    /// It has more than 4,096 points; the count is 4,097.
    TooManyPoints { count: u32 },
    /// Memory ran out.
    Memory,
}

impl From<AllocError> for FlowFault {
    ghost from_gives = { λ _ e. e ≡ Memory };

    fn from(_error: AllocError) -> Self {
        Self::Memory
    }
}
