// What has to be proved of an outline. The numbers are places in lists of the flow and of the outline.
use plc_base::{OpId, PointId, StepId};

/// One thing that has to be proved of an outline.
#[derive(Clone, Copy)]
pub enum Obligation {
    /// The invariant holds after `init`.
    Start {
        inv: u16,
    },
    /// The clause of the operation's entry holds when a thread starts the operation.
    Enter {
        op: OpId,
        clause: u16,
    },
    /// The step leads to its clause: one of the invariants, whose numbers come first, or one of the clauses of the
    /// step's last point, whose numbers go on from there.
    Own {
        step: StepId,
        clause: u16,
    },
    /// The step of one thread keeps the clause of a point at which another thread stands.
    Other {
        step: StepId,
        point: PointId,
        clause: u16,
    },
    /// The claim that this primitive of the step makes is true where it is made.
    Claim {
        step: StepId,
        prim: u16,
    },
}
