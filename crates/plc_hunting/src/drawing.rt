// What a hunt brings in: runs of a program are drawn until one races, which is made short, and what can be said of its
// race is found out. Nothing here is trusted, and no clause here speaks of what is found: the answer follows it again.
ghost use Rattle.plc_flow.specs.WellFormed.{FlowFits};
ghost use Rattle.plc_explore.specs.Running.{IsIndexed};

use plc_base::NoMemory;
use plc_check::Judged;
use plc_explore::{
    Account, Frees, Program, Random, Trail, explore, follow_to_race, numbers_in, shorten,
};
use plc_flow::StepsByPoint;
use std::alloc::Global;

/// How many moves are made at most, over all runs of a hunt.
const MOST_MOVES: u64 = 40_000_000;

/// A run that was found, if one was, what is known of its race, and how much was tried.
#[derive(Drop)]
pub(crate) struct HuntResult {
    /// The moves of the run that races, if one was found.
    pub trail: Option<Trail>,
    /// What can be said of its race.
    pub account: Option<Account>,
    /// From what the runs were drawn.
    pub seed: u32,
    /// How many runs were drawn.
    pub runs: u64,
    /// How many moves they have together.
    pub moves: u64,
}

/// Makes a run short, and finds out what can be said of its race.
fn shortened(
    alloc: Global,
    program: &Program,
    frees: &mut Frees,
    trail: Option<Trail>,
) -> Result<(Option<Trail>, Option<Account>), NoMemory>
    requires { IsIndexed program.now }
{
    let Some(trail) = trail else {
        return Ok((None, None));
    };
    let trail = shorten(alloc, program, frees, trail)?;
    let account = follow_to_race(alloc, program, frees, &trail)?;
    Ok((Some(trail), account))
}

/// Draws runs until one races, and makes that short.
fn hunt_program(
    alloc: Global,
    program: &Program,
    frees: &mut Frees,
    seed: u32,
) -> Result<HuntResult, NoMemory>
    requires { IsIndexed program.now }
{
    let mut random = Random::new(u64::from(seed));
    let explored = explore(alloc, program, frees, &mut random, MOST_MOVES)?;
    let (trail, account) = shortened(alloc, program, frees, explored.trail)?;
    Ok(HuntResult {
        trail,
        account,
        seed,
        runs: explored.runs,
        moves: explored.moves,
    })
}

/// The same for a file that was loaded.
pub(crate) fn hunt_judged(
    alloc: Global,
    judged: &Judged,
    mut frees: Frees,
    seed: u32,
) -> Result<HuntResult, NoMemory>
    requires fits { FlowFits judged.now.flow }
{
    let steps = StepsByPoint::of_flow(alloc, &judged.flow)?;
    let numbers = numbers_in(alloc, &judged.flow)?;
    let program = Program {
        flow: &judged.flow,
        steps: &steps,
        numbers: &numbers,
        observer: &judged.observer,
        schemes: judged.schemes.as_slice(),
    };
    hunt_program(alloc, &program, &mut frees, seed)
}
