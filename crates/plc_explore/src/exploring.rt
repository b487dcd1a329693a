// Runs are drawn one after the other, until one races or as many moves were made as there may be.
ghost use Rattle.std.specs.Prelude.{◌≡◌, ◌<◌, [], IfOk, IfSome, IsTrue};
ghost use Rattle.plc_run.specs.Position.{threads_of};
ghost use Rattle.plc_explore.specs.Racing.{FindsRaces, RacesAmong};
ghost use Rattle.plc_explore.specs.Drawing.{RacesWhereSaid, kept_after};
ghost use Rattle.plc_explore.specs.Running.{IsIndexed, IsRunOf};
ghost use Rattle.plc_explore.specs.Walking.{IsWalked};

use crate::frees::Frees;
use crate::program::Program;
use crate::random::Random;
use crate::running::Running;
use crate::trail::Trail;
use crate::walker::Walker;
use plc_base::NoMemory;
use std::alloc::Global;

/// What came of drawing runs: the run that races, if there is one, and how many runs and moves were made, frees among
/// them.
#[derive(Drop)]
pub struct Explored {
    pub trail: Option<Trail>,
    pub runs: u64,
    pub moves: u64,
}

/// A run that was drawn, and whether it races.
#[derive(Drop)]
struct Drawn {
    trail: Trail,
    races: bool,
}

/// Walks from where a run begins, answers whether it races, and ends the run.
fn walk(walker: &mut Walker, program: &Program, mut run: Running) -> Result<Option<bool>, NoMemory>
    requires indexed { IsIndexed program.now }
    requires of_run { IsRunOf program.now run.config }
    requires walked { IsWalked program.now walker.old.moves run.config }
    ensures raced { IfOk result (λ walked. IfSome walked (λ ends_in_race. IsTrue ends_in_race
        → RacesAmong program.now (threads_of run.entry.config) walker.new.moves)) }
{
    let races = walker.walk(program, &mut run);
    drop(run);
    match races {
        Ok(races) => Ok(Some(races)),
        Err(fault) => Err(fault),
    }
}

/// Draws a run, and answers whether it races. `None` comes where the program has no run.
fn begin_and_walk(
    alloc: Global,
    program: &Program,
    frees: &mut Frees,
    walker: &mut Walker,
    threads: u32,
) -> Result<Option<bool>, NoMemory>
    requires indexed { IsIndexed program.now }
    requires some { 0 < threads }
    requires fresh { walker.old.moves ≡ [] }
    ensures raced { IfOk result (λ walked. IfSome walked (λ ends_in_race. IsTrue ends_in_race
        → RacesAmong program.now threads walker.new.moves)) }
{
    match Running::begin(alloc, program, frees, threads) {
        Ok(Some(run)) => walk(walker, program, run),
        Ok(None) => Ok(None),
        Err(fault) => Err(fault),
    }
}

/// Draws a run. `None` comes where the program has no run, or none with a move.
fn draw(
    alloc: Global,
    program: &Program,
    frees: &mut Frees,
    random: &mut Random,
) -> Result<Option<Drawn>, NoMemory>
    requires { IsIndexed program.now }
    ensures { IfOk result (λ drawn. IfSome drawn (RacesWhereSaid program.now)) }
{
    if program.flow.file.ops.is_empty() {
        return Ok(None);
    }
    let mut walker = Walker::new(alloc, random)?;
    let threads = walker.threads();
    let races = begin_and_walk(alloc, program, frees, &mut walker, threads);
    let moves = walker.into_moves();
    let trail = Trail { threads, moves };
    match races {
        Ok(Some(races)) => Ok(Some(Drawn { trail, races })),
        Ok(None) => Ok(None),
        Err(fault) => Err(fault),
    }
}

impl Explored {
    /// Counts a run that was drawn, and keeps it if it races.
    fn add(&mut self, drawn: Drawn)
        ensures { self.new.trail ≡ kept_after self.old.trail drawn }
    {
        self.runs = self.runs.saturating_add(1);
        self.moves = self.moves.saturating_add(drawn.trail.moves.len() as u64);
        if drawn.races {
            self.trail = Some(drawn.trail);
        }
    }
}

/// Draws runs, which are counted here, until one races, or until this many moves were made.
fn explore_into(
    explored: &mut Explored,
    alloc: Global,
    program: &Program,
    frees: &mut Frees,
    random: &mut Random,
    most: u64,
) -> Result<(), NoMemory>
    requires indexed { IsIndexed program.now }
    requires found { FindsRaces program.now explored.old.trail }
    ensures { FindsRaces program.now explored.new.trail }
{
    for _ in 0..most {
        match draw(alloc, program, frees, random) {
            Ok(Some(drawn)) => explored.add(drawn),
            Ok(None) => return Ok(()),
            Err(fault) => return Err(fault),
        }
        if explored.trail.is_some() || explored.moves >= most {
            return Ok(());
        }
    }
    Ok(())
}

/// Draws runs until one races, or until this many moves were made. Where the program has no run, or no operation, none
/// is drawn. What is found is a run of the definition whose last move is a race; its frees are those that came. The one
/// error is that memory runs out.
pub fn explore(
    alloc: Global,
    program: &Program,
    frees: &mut Frees,
    random: &mut Random,
    most: u64,
) -> Result<Explored, NoMemory>
    requires { IsIndexed program.now }
    ensures { IfOk result (λ explored. FindsRaces program.now explored.trail) }
{
    let mut explored = Explored {
        trail: None,
        runs: 0,
        moves: 0,
    };
    explore_into(&mut explored, alloc, program, frees, random, most)?;
    Ok(explored)
}
