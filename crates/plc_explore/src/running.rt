// A run as it goes on. Whoever draws one, makes one short or tells of its race makes its moves here, so that whoever
// says what is freed hears all that happens.
ghost use Rattle.std.specs.Prelude.{◌≡◌, ◌<◌, [], false, IfOk, IfSome, None};
ghost use Rattle.plc_moves.specs.declared.words.Move.TheVariants.{Free};
ghost use Rattle.plc_run.specs.Position.{Answers, threads_of};
ghost use Rattle.plc_run.specs.Run.{first_configuration};
ghost use Rattle.plc_explore.specs.Following.{IsAny};
ghost use Rattle.plc_explore.specs.Leaving.{maker_of};
ghost use Rattle.plc_explore.specs.Running.{IsIndexed, IsRunOf, MayRun};
ghost use Rattle.plc_explore.specs.Walking.{IsWalked};

use crate::frees::Frees;
use crate::program::Program;
use plc_auto::Event;
use plc_base::NoMemory;
use plc_flow::Step;
use plc_moves::{Move, StartFault};
use plc_run::{Config, Moved};
use std::alloc::Global;

/// Where a run stands, and who says what is freed in it.
#[derive(Drop)]
pub struct Running<'a> {
    /// Memory, threads and what is retired, as far as the run has come.
    pub config: Config,
    /// What the reclaimer may free.
    pub frees: &'a mut Frees,
}

/// The thread that makes a move.
pub fn mover(m: &Move) -> Option<u32>
    ensures { result ≡ maker_of m.now }
{
    match m {
        Move::Start { t, .. } | Move::Step { t, .. } | Move::Return { t } => Some(*t),
        Move::Free { .. } => None,
    }
}

/// The address that an event retires.
pub fn retired_in(event: &Event) -> Option<u32> {
    match *event {
        Event::Call { f, a, .. } if f.is_retire() => a,
        Event::Call { .. } | Event::Free { .. } | Event::Done { .. } => None,
    }
}

/// Hands over the events after so many.
fn hear(frees: &mut Frees, history: &[Event], before: usize) -> Result<(), NoMemory>
    ensures { IsAny frees.old → IsAny frees.new }
{
    for event in history.iter().skip(before) {
        frees.hear(event)?;
    }
    Ok(())
}

/// Where a run among so many threads stands before its first move; `None` where the program has none.
pub fn begin(
    alloc: Global,
    program: &Program,
    frees: &mut Frees,
    threads: u32,
) -> Result<Option<Config>, NoMemory>
    requires may { MayRun program.now }
    requires some { 0 < threads }
    ensures of_run { IfOk result (λ begun. IfSome begun (λ config. IsRunOf program.now config)) }
    ensures walked { IfOk result (λ begun. IfSome begun (λ config. IsWalked program.now [] config)) }
    ensures many { IfOk result (λ begun. IfSome begun (λ config. threads_of config ≡ threads)) }
    ensures goes { IfOk result (λ begun. IfSome begun (λ config. config.ended ≡ false)) }
    ensures none { IfOk result (λ begun. begun ≡ None → first_configuration program.now.flow.now threads ≡ None) }
    ensures any { IsAny frees.old → IsAny frees.new }
{
    frees.begin(program.schemes)?;
    match Config::start(alloc, program.flow, program.observer, threads) {
        Ok(config) => Ok(Some(config)),
        Err(StartFault::NoStart) => Ok(None),
        Err(StartFault::Memory) => Err(NoMemory),
    }
}

/// Makes a move, and hands its events over.
pub fn make(
    config: &mut Config,
    frees: &mut Frees,
    program: &Program,
    m: &Move,
) -> Result<Moved, NoMemory>
    requires { IsRunOf program.now config.old }
    ensures of_run { IsRunOf program.now config.new }
    ensures many { threads_of config.new ≡ threads_of config.old }
    ensures answers { IfOk result (λ moved.
        Answers program.now.flow.now program.now.observer.now config.old m.now moved config.new) }
    ensures any { IsAny frees.old → IsAny frees.new }
{
    let before = config.history().len();
    let moved = config.step(program.flow, program.observer, m)?;
    hear(frees, config.history(), before)?;
    Ok(moved)
}

impl<'a> Running<'a> {
    /// A run among so many threads, before its first move; `None` where the program has none.
    pub fn begin(
        alloc: Global,
        program: &Program,
        frees: &'a mut Frees,
        threads: u32,
    ) -> Result<Option<Running<'a>>, NoMemory>
        requires may { MayRun program.now }
        requires some { 0 < threads }
        ensures of_run { IfOk result (λ begun. IfSome begun (λ run. IsRunOf program.now run.config)) }
        ensures walked { IfOk result (λ begun. IfSome begun (λ run. IsWalked program.now [] run.config)) }
        ensures many { IfOk result (λ begun. IfSome begun (λ run. threads_of run.config ≡ threads)) }
    {
        match begin(alloc, program, frees, threads) {
            Ok(Some(config)) => Ok(Some(Running { config, frees })),
            Ok(None) => Ok(None),
            Err(fault) => Err(fault),
        }
    }

    /// Makes a move, and hands its events over.
    pub fn make(&mut self, program: &Program, m: &Move) -> Result<Moved, NoMemory>
        requires { IsRunOf program.now self.old.config }
        ensures of_run { IsRunOf program.now self.new.config }
        ensures many { threads_of self.new.config ≡ threads_of self.old.config }
        ensures answers { IfOk result (λ moved.
            Answers program.now.flow.now program.now.observer.now self.old.config m.now moved self.new.config) }
    {
        make(&mut self.config, self.frees, program, m)
    }

    /// Frees an address.
    pub fn free(&mut self, program: &Program, a: u32) -> Result<Moved, NoMemory>
        requires { IsRunOf program.now self.old.config }
        ensures of_run { IsRunOf program.now self.new.config }
        ensures many { threads_of self.new.config ≡ threads_of self.old.config }
        ensures answers { IfOk result (λ moved.
            Answers program.now.flow.now program.now.observer.now self.old.config (Free a) moved self.new.config) }
    {
        let m = Move::Free { a };
        self.make(program, &m)
    }
}

/// The step that a move takes, if it takes one.
pub fn step_of<'a>(program: &Program<'a>, config: &Config, m: &Move) -> Option<&'a Step>
    requires { IsIndexed program.now }
{
    let Move::Step { t, nth, .. } = m else {
        return None;
    };
    let point = config.point(*t)?;
    program.steps.nth_step(program.flow, point.at, *nth)
}
