// Why a certificate isn't valid. There may be many reasons; the one that is told is the first in a fixed
// order, so that two verifiers answer alike.
ghost use Rattle.std.specs.Prelude.{◌≡◌};
ghost use Rattle.plc_verify.specs.declared.fault.VerifyFault.TheVariants.{Memory};

use plc_base::{NoMemory, OpId, PointId, StepId};

/// A part of an environment.
#[derive(Clone, Copy)]
pub enum Slot {
    /// Where any address may stand.
    W,
    /// The type of a pointer local, by its number among those of the operation.
    Local(u16),
}

/// The first item of a certificate that fails, in the order of the variants; but the items of a step,
/// `TypeAt` and then `FlowAt`, come before those of the next step.
#[derive(Clone, Copy)]
pub enum VerifyFault {
    /// The certificate has version `have`, and those of the file have `want`.
    Version { have: u8, want: u8 },
    /// There are `have` environments, and the flow has `want` points.
    EnvCount { have: u64, want: u32 },
    /// The environment of the point doesn't fit it: it has another number of locals than the point's operation has
    /// pointer locals, guarantees other than the four sets, a location that the observer lacks, locations
    /// of a local that aren't within W, or retired ones beside A.
    EnvAt { point: PointId },
    /// Where the operation begins not every location is in W. `var` is always `W`, since every type of a
    /// local is above that of null.
    EntryAt { op: OpId, var: Slot },
    /// The condition of this primitive fails as the step runs from the environment of its first point.
    TypeAt { step: StepId, prim: u16 },
    /// What the step and then interference make of that environment isn't below the environment of its
    /// last point: the first such part, W before the locals.
    FlowAt { step: StepId, var: Slot },
    /// There are `have` trees and `want` obligations.
    TreeCount { have: u64, want: u64 },
    /// The tree of the obligation doesn't close its ground set: the first node that is wrong, the tree's
    /// length where nodes are missing, or the first node left over.
    TreeAt { obligation: u64, node: u64 },
    /// Memory ran out.
    Memory,
}

impl From<NoMemory> for VerifyFault {
    ghost from_gives = { λ _ fault. fault ≡ Memory };

    fn from(_e: NoMemory) -> VerifyFault {
        VerifyFault::Memory
    }
}
