// Where the iteration begins: with the entry environment where an operation begins, and elsewhere with
// the one below all others, so that points that no step reaches cost nothing.
ghost use Rattle.std.specs.Prelude.{◌≡◌, ◌==◌, ◌≤◌, ◌<◌, IfOk, length};
ghost use Rattle.std.specs.List.{list_any};
ghost use Rattle.plc_base.specs.Limits.{most};
ghost use Rattle.plc_base.specs.declared.limits.What1.TheVariants as limits;
ghost use Rattle.plc_base.specs.declared.ids.PointId.{PointId};
ghost use Rattle.plc_infer.specs.Programs.{program_of};
ghost use Rattle.plc_infer.specs.Starts.{start_at, starts_of};

use crate::program::Program;
use plc_auto::Observer;
use plc_base::{NoMemory, PointId};
use plc_type::Env;
use std::alloc::Global;

/// Whether an operation begins at a point.
fn is_entry(entries: &[PointId], point: u16) -> bool
    ensures { result ≡ list_any (λ (e : PointId). e.0 == point) entries.now }
{
    entries.iter().any(|e| e.0 == point)
}

/// The environment of a point at the start.
fn start(alloc: Global, program: &Program, observer: &Observer, point: u16) -> Result<Env, NoMemory>
    requires { point < length program.now.locals.now }
    ensures { IfOk result (λ env. env ≡ start_at observer.now (program_of program.now) point) }
{
    let locals = program.locals[point as usize];
    if is_entry(program.entries, point) {
        return Env::entry(alloc, program.shared, locals, &observer.all());
    }
    Env::bottom(alloc, program.shared, locals)
}

/// The environments with which the iteration begins.
pub(crate) fn starts(
    alloc: Global,
    program: &Program,
    observer: &Observer,
) -> Result<Vec<Env>, NoMemory>
    requires { length program.now.locals.now ≤ most limits.Points }
    ensures { IfOk result (λ envs. envs.items ≡ starts_of observer.now (program_of program.now)) }
{
    let mut envs = Vec::new(alloc);
    for p in 0..program.locals.len() {
        envs.push(start(alloc, program, observer, p as u16)?)?;
    }
    Ok(envs)
}
