// From the least environments on, each point is taken from a work list, and each step that leaves it and
// leads too far raises the environment of its last point to the join, which puts that point on the
// list. Every pre-typing stays above what is reached, so the end is the strongest. The list begins with
// all points: also a step that nothing reaches has to lead to no more than its last point has.
ghost use Rattle.std.specs.Prelude.{◌≡◌, IfOk, OnOk, length};
ghost use Rattle.plc_xfer.specs.Rules.{FitsObserver};
ghost use Rattle.plc_xfer.specs.Typings.{led};
ghost use Rattle.plc_infer.specs.Programs.{IsProgram, program_of};
ghost use Rattle.plc_infer.specs.Graphs.{graph_of, CanRun};
ghost use Rattle.plc_infer.specs.Iteration.{Relaxed, IsStrongest as IsLeast};
ghost use Rattle.plc_infer.specs.Relaxing.{AreRelaxed, CanRelaxAll};
ghost use Rattle.plc_infer.specs.WorkLists.{Looked};
ghost use Rattle.plc_infer.specs.Starts.{starts_of};

use crate::program::{Program, steps_by_point};
use crate::starts::starts;
use crate::work_list::WorkList;
use plc_auto::Observer;
use plc_base::NoMemory;
use plc_lang::Prim;
use plc_type::{Env, env_below, env_join};
use plc_xfer::{apply, interfere};
use std::alloc::Global;

/// The strongest pre-typing of a program.
pub(crate) fn strongest(
    alloc: Global,
    program: &Program,
    observer: &Observer,
) -> Result<Vec<Env>, NoMemory>
    requires { IsProgram (program_of program.now) }
    ensures { let graph = graph_of observer.now (program_of program.now)
        in IfOk result (λ envs. IsLeast graph (starts_of observer.now (program_of program.now)) envs.items) }
{
    let index = steps_by_point(alloc, program)?;
    let mut envs = starts(alloc, program, observer)?;
    let mut list = WorkList::of_all(alloc, program.locals.len())?;
    let mut reached = Env::bottom(alloc, program.shared, 0)?;
    while let Some(point) = list.take() {
        let steps = index.leaving(point);
        relax_all(program, observer, steps, &mut envs, &mut list, &mut reached)?;
    }
    Ok(envs)
}

/// Relaxes steps one after another. What each leads to is worked out in `reached`, so that none needs memory of its
/// own.
fn relax_all(
    program: &Program,
    observer: &Observer,
    steps: &[u16],
    envs: &mut Vec<Env>,
    list: &mut WorkList,
    reached: &mut Env,
) -> Result<(), NoMemory>
    requires { CanRelaxAll observer.now program.now steps.now envs.old.items list.old }
    ensures { OnOk result (AreRelaxed observer.now program.now envs.old.items envs.new.items list.old list.new) }
{
    for k in steps {
        relax_listed(program, observer, *k as usize, envs, list, reached)?;
    }
    Ok(())
}

/// Relaxes a step, and puts its last point on the list where that raises the environment there.
fn relax_listed(
    program: &Program,
    observer: &Observer,
    k: usize,
    envs: &mut Vec<Env>,
    list: &mut WorkList,
    reached: &mut Env,
) -> Result<(), NoMemory>
    requires run { CanRun observer.now program.now k envs.old.items }
    requires marks { length list.old.marks.items ≡ length program.now.locals.now }
    ensures { let graph = graph_of observer.now (program_of program.now)
        in IfOk result (λ _. Looked graph k envs.old.items envs.new.items
        list.old.queue.items list.new.queue.items list.old.marks.items list.new.marks.items) }
{
    if !relax(program, observer, k, envs, reached)? {
        return Ok(());
    }
    list.put(program.steps[k].to.0)
}

/// Raises the environment of a step's last point to hold what the step leads to, and answers whether
/// it wasn't as large before.
fn relax(
    program: &Program,
    observer: &Observer,
    k: usize,
    envs: &mut Vec<Env>,
    reached: &mut Env,
) -> Result<bool, NoMemory>
    requires { CanRun observer.now program.now k envs.old.items }
    ensures { let graph = graph_of observer.now (program_of program.now)
        in IfOk result (λ raised. Relaxed graph k envs.old.items envs.new.items raised) }
{
    let step = &program.steps[k];
    let from = step.from.0 as usize;
    let to = step.to.0 as usize;
    led_from(observer, step.prims, &envs[from], reached)?;
    if env_below(reached, &envs[to]) {
        return Ok(false);
    }
    env_join(&mut envs[to], reached);
    Ok(true)
}

/// Puts into `reached` what the primitives of a step, and then interference, make of an environment.
fn led_from(
    observer: &Observer,
    prims: &[Prim],
    env: &Env,
    reached: &mut Env,
) -> Result<(), NoMemory>
    requires { FitsObserver observer.now env.now }
    ensures { OnOk result (reached.new ≡ led observer.now env.now prims.now) }
{
    reached.copy_from(env)?;
    for prim in prims {
        apply(reached, prim, observer);
    }
    interfere(reached, observer);
    Ok(())
}
