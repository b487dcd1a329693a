// Inference goes on from environments that it reached before, after some steps lost claims: fewer claims only raise
// what a step leads to, so the strongest pre-typing before is below that of now, and only what the changed steps raise
// is looked at again. Conditions are tested on the way, since environments only rise: the first that fails ends it.
// What is replaced is noted, so that it can be put back where the trial fails.
ghost use Rattle.std.specs.Prelude.{◌≡◌, IfOk, OnOk, length};
ghost use Rattle.plc_xfer.specs.Rules.{FitsObserver};
ghost use Rattle.plc_infer.specs.Programs.{program_of};
ghost use Rattle.plc_infer.specs.Resuming.{CanResume, IsResumed};
ghost use Rattle.plc_infer.specs.Trials.{AreLookedAt, AreWithin, CanLookAt, CanRaise, IsLookedAt, IsOnTheWay, IsRaised};
ghost use Rattle.plc_infer.specs.Trials.{RunsTo, put_back};

use crate::program::Program;
use crate::work_list::WorkList;
use plc_auto::Observer;
use plc_base::{NoMemory, PointId};
use plc_flow::StepsByPoint;
use plc_lang::Prim;
use plc_type::{Env, env_below, env_join};
use plc_xfer::{apply, condition, interfere};
use std::alloc::Global;

/// An environment that another took the place of.
#[derive(Drop)]
struct Replaced {
    point: PointId,
    env: Env,
}

/// What is still to be looked at, and what was done.
#[derive(Drop)]
struct Work {
    /// The points whose steps wait.
    list: WorkList,
    /// What each step leads to is worked out here, so that none needs memory of its own.
    reached: Env,
    /// Each environment that another took the place of, in order.
    replaced: Vec<Replaced>,
}

/// Goes on to the strongest pre-typing of a program from environments that are begun: one for each point, below that
/// of every pre-typing, above the entry environment where an operation begins, and with each step typed but those that
/// were changed. Looks at the changed steps first, and then at what they raise. `index` is that of the program's steps
/// by the points that they leave.
///
/// Answers whether the strongest pre-typing is a typing. If so, `envs` is that; if not, no typing exists, and `envs` is
/// as before. The one error is that memory runs out, and then nothing is promised of `envs`.
pub fn resume(
    alloc: Global,
    program: &Program,
    index: &StepsByPoint,
    observer: &Observer,
    changed: &[u16],
    envs: &mut Vec<Env>,
) -> Result<bool, NoMemory>
    requires { CanResume observer.now program.now index.now changed.now envs.old.items }
    ensures { IfOk result (IsResumed observer.now (program_of program.now) envs.old.items envs.new.items) }
{
    let list = WorkList::none(alloc, program.locals.len())?;
    let reached = Env::bottom(alloc, program.shared, 0)?;
    let replaced = Vec::new(alloc);
    let mut work = Work {
        list,
        reached,
        replaced,
    };
    if !look_at_all(alloc, program, observer, changed, envs, &mut work)? {
        put_back(envs, &mut work.replaced);
        return Ok(false);
    }
    while let Some(point) = work.list.take() {
        let steps = index.leaving(point);
        if !look_at_all(alloc, program, observer, steps, envs, &mut work)? {
            put_back(envs, &mut work.replaced);
            return Ok(false);
        }
    }
    Ok(true)
}

/// Puts back the environments that others took the place of, the last first.
fn put_back(envs: &mut Vec<Env>, replaced: &mut Vec<Replaced>)
    requires { AreWithin (length envs.old.items) replaced.old.items }
    ensures { envs.new.items ≡ put_back replaced.old.items envs.old.items }
{
    while let Some(last) = replaced.pop() {
        envs[last.point.0 as usize] = last.env;
    }
}

/// Looks at steps one after another, as long as their conditions hold, and answers whether they do.
fn look_at_all(
    alloc: Global,
    program: &Program,
    observer: &Observer,
    steps: &[u16],
    envs: &mut Vec<Env>,
    work: &mut Work,
) -> Result<bool, NoMemory>
    requires { IsOnTheWay observer.now program.now steps.now envs.old.items work.old }
    ensures { IfOk result (AreLookedAt observer.now program.now envs.old.items envs.new.items work.old work.new) }
{
    for k in steps {
        if !look_at(alloc, program, observer, *k as usize, envs, work)? {
            return Ok(false);
        }
    }
    Ok(true)
}

/// Looks at a step, and answers whether its conditions hold. If so, and it leads too far, its last point gets the join.
fn look_at(
    alloc: Global,
    program: &Program,
    observer: &Observer,
    k: usize,
    envs: &mut Vec<Env>,
    work: &mut Work,
) -> Result<bool, NoMemory>
    requires { CanLookAt observer.now program.now k envs.old.items work.old }
    ensures { IfOk result (IsLookedAt observer.now program.now k envs.old.items envs.new.items work.old work.new) }
{
    let step = &program.steps[k];
    let from = step.from.0 as usize;
    if !run(observer, step.prims, &envs[from], &mut work.reached)? {
        return Ok(false);
    }
    raise(alloc, step.to, envs, work)?;
    Ok(true)
}

/// Raises the environment of a point to hold what was reached. Where it doesn't yet, the one before is noted, and the
/// point is put on the list.
fn raise(
    alloc: Global,
    point: PointId,
    envs: &mut Vec<Env>,
    work: &mut Work,
) -> Result<(), NoMemory>
    requires { CanRaise point.0 envs.old.items work.old }
    ensures { OnOk result (IsRaised point.0 envs.old.items envs.new.items work.old work.new) }
{
    let at = point.0 as usize;
    if env_below(&work.reached, &envs[at]) {
        return Ok(());
    }
    let env = envs[at].copy(alloc)?;
    work.replaced.push(Replaced { point, env })?;
    env_join(&mut envs[at], &work.reached);
    work.list.put(point.0)?;
    Ok(())
}

/// Runs the primitives of a step from an environment as long as their conditions hold, and answers whether they do. If
/// so, what they, and then interference, make of it is in `reached`.
fn run(observer: &Observer, prims: &[Prim], env: &Env, reached: &mut Env) -> Result<bool, NoMemory>
    requires { FitsObserver observer.now env.now }
    ensures { IfOk result (RunsTo observer.now env.now prims.now reached.new) }
{
    reached.copy_from(env)?;
    for prim in prims {
        if condition(reached, prim, observer).is_err() {
            return Ok(false);
        }
        apply(reached, prim, observer);
    }
    interfere(reached, observer);
    Ok(true)
}
