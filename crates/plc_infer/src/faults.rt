// The first condition that fails as the steps run from the environments of their first points.
ghost use Rattle.std.specs.Prelude.{◌<◌, IfOk, length};
ghost use Rattle.plc_xfer.specs.Rules.{FitsObserver};
ghost use Rattle.plc_infer.specs.Programs.{IsProgram, program_of};
ghost use Rattle.plc_infer.specs.Graphs.{graph_of};
ghost use Rattle.plc_infer.specs.Iteration.{Shaped};
ghost use Rattle.plc_infer.specs.Faults.{IsFirstFault, IsFirstFaultOfStep};

use crate::program::Program;
use plc_auto::Observer;
use plc_base::{NoMemory, StepId};
use plc_lang::Prim;
use plc_type::Env;
use plc_xfer::{TypeFault, apply, condition};
use std::alloc::Global;

/// The first step and primitive whose condition fails, with the fault.
pub(crate) fn first_fault(
    alloc: Global,
    program: &Program,
    observer: &Observer,
    envs: &[Env],
) -> Result<Option<(StepId, u16, TypeFault)>, NoMemory>
    requires program { IsProgram (program_of program.now) }
    requires shaped { Shaped (graph_of observer.now (program_of program.now)) envs.now }
    ensures { IfOk result (IsFirstFault observer.now program.now envs.now) }
{
    for k in 0..program.steps.len() {
        let step = &program.steps[k];
        let env = &envs[step.from.0 as usize];
        match fault_in_step(alloc, observer, step.prims, env)? {
            Some((prim, fault)) => return Ok(Some((StepId(k as u16), prim, fault))),
            None => {}
        }
    }
    Ok(None)
}

/// The first primitive of a step whose condition fails as the step runs from an environment.
fn fault_in_step(
    alloc: Global,
    observer: &Observer,
    prims: &[Prim],
    env: &Env,
) -> Result<Option<(u16, TypeFault)>, NoMemory>
    requires short { length prims.now < 65536 }
    requires fits { FitsObserver observer.now env.now }
    ensures { IfOk result (IsFirstFaultOfStep observer.now env.now prims.now) }
{
    let mut env = env.copy(alloc)?;
    for (i, prim) in prims.iter().enumerate() {
        if let Err(fault) = condition(&env, prim, observer) {
            return Ok(Some((i as u16, fault)));
        }
        apply(&mut env, prim, observer);
    }
    Ok(None)
}
