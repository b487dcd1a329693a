// The strongest pre-typing is below every other, and a condition that holds in an environment holds
// in every one below it. So a typing exists exactly where the strongest pre-typing is one, and the
// first condition that fails in it fails under every pre-typing.
ghost use Rattle.std.specs.Prelude.{◌≡◌, ℕ, IfOk, Err};
ghost use Rattle.plc_base.specs.declared.ids.StepId.{StepId};
ghost use Rattle.plc_lang.specs.Fit.{FileFits};
ghost use Rattle.plc_flow.specs.WellFormed.{IsWellFormed};
ghost use Rattle.plc_xfer.specs.declared.fault.TypeFault.{TypeFault as AFault};
ghost use Rattle.plc_xfer.specs.Typings.{IsTyping, IsStrongest, IsStuckAt};
ghost use Rattle.plc_flow.specs.Skeleton.{skeleton_of};
ghost use Rattle.plc_infer.specs.Programs.{IsProgram, program_of};
ghost use Rattle.plc_infer.specs.declared.typing.InferFault.TheVariants.{Memory};

use crate::faults::first_fault;
use crate::fixpoint::strongest;
use crate::flow_lists::FlowLists;
use crate::program::Program;
use plc_auto::Observer;
use plc_base::{Items, NoMemory, StepId};
use plc_flow::Flow;
use plc_type::Env;
use plc_xfer::TypeFault;
use std::alloc::Global;

/// An environment for each point of a flow.
#[derive(Drop)]
pub struct Typing {
    pub env: Items<Env>,
}

/// Why a flow has no typing.
#[derive(Debug, Drop)]
pub enum InferFault {
    /// The condition of this primitive fails under every pre-typing, as no earlier one does; the
    /// fault is that under the strongest.
    Stuck {
        step: StepId,
        prim: u16,
        fault: TypeFault,
    },
    /// Memory ran out.
    Memory,
}

impl From<NoMemory> for InferFault {
    ghost from_gives = { λ _ e. e ≡ Memory };

    fn from(_e: NoMemory) -> InferFault {
        InferFault::Memory
    }
}

/// The strongest typing of a flow, or the least step and primitive whose condition no pre-typing
/// meets. Every point is typed, also where no step leads.
pub fn infer(alloc: Global, flow: &Flow, observer: &Observer) -> Result<Typing, InferFault>
    requires flow { IsWellFormed flow.now }
    requires file { FileFits flow.now.file }
    ensures typing { IfOk result (λ typing. IsTyping observer.now (skeleton_of flow.now) typing.env) }
    ensures strongest { IfOk result (λ typing. IsStrongest observer.now (skeleton_of flow.now) typing.env) }
    ensures stuck { (k : StepId) (i : ℕ) (fault : AFault) → result ≡ Err (InferFault.Stuck k i fault)
        → IsStuckAt observer.now (skeleton_of flow.now) k.0 i fault }
{
    let lists = FlowLists::of(alloc, flow)?;
    infer_program(alloc, &lists.program(), observer)
}

/// The strongest typing of a program, or the least step and primitive whose condition no pre-typing
/// meets. Every point is typed, also where no step leads.
pub fn infer_program(
    alloc: Global,
    program: &Program,
    observer: &Observer,
) -> Result<Typing, InferFault>
    requires { IsProgram (program_of program.now) }
    ensures typing { IfOk result (λ typing. IsTyping observer.now (program_of program.now) typing.env) }
    ensures strongest { IfOk result (λ typing. IsStrongest observer.now (program_of program.now) typing.env) }
    ensures stuck { (k : StepId) (i : ℕ) (fault : AFault) → result ≡ Err (InferFault.Stuck k i fault)
        → IsStuckAt observer.now (program_of program.now) k.0 i fault }
{
    let envs = strongest(alloc, program, observer)?;
    match first_fault(alloc, program, observer, &envs)? {
        Some((step, prim, fault)) => Err(InferFault::Stuck { step, prim, fault }),
        None => Ok(Typing {
            env: Items::from_vec(envs),
        }),
    }
}

/// The strongest pre-typing of a flow: the environments to which its steps lead, whether or not the conditions of the
/// steps hold. Where a typing exists it is the strongest one; else it is what is known where a condition fails. Every
/// point has one, also where no step leads. The one error is that memory runs out.
pub fn pretyping(alloc: Global, flow: &Flow, observer: &Observer) -> Result<Typing, NoMemory>
    requires flow { IsWellFormed flow.now }
    requires file { FileFits flow.now.file }
    ensures { IfOk result (λ typing. IsStrongest observer.now (skeleton_of flow.now) typing.env) }
{
    let lists = FlowLists::of(alloc, flow)?;
    let envs = strongest(alloc, &lists.program(), observer)?;
    Ok(Typing {
        env: Items::from_vec(envs),
    })
}
