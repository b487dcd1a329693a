// A configuration of a run in code, with the locations by which frees are judged. A step's primitives are taken on the
// memory itself, and what takes them back is noted beside them: where one is blocked, is a race, or memory runs out,
// also for what the observer hears of the step, they are taken back, and the configuration is as it was. The other
// moves ask for their memory before they change anything.
ghost use Rattle.std.specs.Prelude.{◌≡◌, ◌<◌, [], IfOk, OnOk, OnErr};
ghost use Rattle.std.specs.Prelude.{None, replicate};
ghost use Rattle.plc_auto.specs.Locations.{of_threads, locations_after_all};
ghost use Rattle.plc_flow.specs.WellFormed.{FlowFits};
ghost use Rattle.plc_flow.specs.StepsByPoint.{IsIndexOf, first_points};
ghost use Rattle.plc_mem.specs.Outcomes.{address_or_null};
ghost use Rattle.plc_mem.specs.Fit.{Kept};
ghost use Rattle.plc_run.specs.Run.{point_of};
ghost use Rattle.plc_run.specs.Ended.{IsReady, MayTry, MayExecute, IsOfFlow};
ghost use Rattle.plc_run.specs.Reach.{Breaks, concluded, came_about, Acts, ActsWith, Tries, Hears, StillFollows};
ghost use Rattle.plc_run.specs.Reach.{start_from, step_from, step_leads, return_from, free_of, reach};
ghost use Rattle.plc_run.specs.Reach.{answer, Reaches, Comes, IsUnheard, IsIdle};
ghost use Rattle.plc_run.specs.Position.{threads_of, Follows, IsOfRun, Answers, Starts};

use crate::execute::{Actor, Ended, execute, try_init};
use crate::moved::Moved;
use plc_auto::{Event, Locations, Observer};
use plc_base::{NoMemory, OpId};
use plc_flow::{Flow, Point, Step, StepsByPoint, names_rightly};
use plc_lang::Prim;
use plc_mem::{Locals, Memory, RaceKind, Undo};
use plc_moves::{
    Move, StartFault, arrival, at_exit, begun, indexed_step_at, none_held, point_at, set_point,
};
use std::alloc::Global;
use std::marker::Model;

/// Whether primitives succeeded, and what the observer hears of them stands in the history.
fn came_about(ended: &Result<Ended, NoMemory>) -> bool
    ensures { result ≡ came_about ended.now }
{
    matches!(ended, Ok(Ended::Fine))
}

/// What a configuration in which every thread is idle has besides memory and history: where threads and observer stand,
/// and the index by which the steps of a point are found.
#[derive(Drop)]
struct Idle {
    points: Vec<Option<Point>>,
    located: Locations,
    steps: StepsByPoint,
}

/// What a configuration with this history has in which every thread is idle.
fn idle_after(
    alloc: Global,
    flow: &Flow,
    observer: &Observer,
    threads: u32,
    history: &[Event],
) -> Result<Idle, NoMemory>
    requires { FlowFits flow.now }
    ensures points { IfOk result (λ idle. idle.points.items ≡ replicate threads None) }
    ensures located { IfOk result (λ idle.
        idle.located ≡ locations_after_all (of_threads observer.now threads) history.now) }
    ensures indexed { IfOk result (λ idle. IsIndexOf (first_points flow.now) idle.steps) }
{
    let points = none_held(alloc, threads as usize)?;
    let mut located = Locations::of_threads(alloc, *observer, threads)?;
    located.hear_all(history)?;
    let steps = StepsByPoint::of_flow(alloc, flow)?;
    Ok(Idle {
        points,
        located,
        steps,
    })
}

/// The configuration of a run: memory, history, where the observer stands for each thread and each
/// address, where each thread stands, and the index by which the steps of a point are found.
#[derive(Drop)]
pub struct Config {
    alloc: Global,
    pub(crate) memory: Memory,
    history: Vec<Event>,
    located: Locations,
    pub(crate) points: Vec<Option<Point>>,
    pub(crate) ended: bool,
    pub(crate) steps: StepsByPoint,
}

impl Model for Config {
    ghost use Rattle.std.specs.Prelude.{◌<◌, ◌^◌, length};
    ghost use Rattle.plc_run.specs.Position.{Position};

    ghost Value = { Position };

    ghost view = { λ c. record {
      here = record { state = c.memory; history = c.history.items; points = c.points.items };
      ended = c.ended;
      located = c.located;
      steps = c.steps;
    } };

    ghost invariant = { λ c. (0 < length c.points.items) × (length c.points.items < 2 ^ 32) };
}

impl Config {
    /// The configuration in which the runs of a flow begin, with so many threads, from 1: what
    /// `init` leaves, and every thread idle. `NoStart` comes exactly where `init` is blocked, so that
    /// the flow has no run. The observer is the one by which frees will be judged.
    pub fn start(
        alloc: Global,
        flow: &Flow,
        observer: &Observer,
        threads: u32,
    ) -> Result<Config, StartFault>
        requires fits { FlowFits flow.now }
        requires some { 0 < threads }
        ensures starts { Starts flow.now threads result }
        ensures of_run { IfOk result (λ c. IsOfRun flow.now observer.now c × (threads_of c ≡ threads)) }
    {
        let tried = try_init(alloc, flow, threads)?;
        match tried.ended {
            Ended::Fine => {
                let c = Config::idle(alloc, flow, observer, threads, tried.memory, tried.events)?;
                Ok(c)
            }
            Ended::Blocked => Err(StartFault::NoStart),
            Ended::Raced { .. } => Err(StartFault::NoStart),
        }
    }

    /// The configuration with this memory and history in which every thread is idle, with the index of the flow's
    /// steps.
    fn idle(
        alloc: Global,
        flow: &Flow,
        observer: &Observer,
        threads: u32,
        memory: Memory,
        history: Vec<Event>,
    ) -> Result<Config, NoMemory>
        requires some { 0 < threads }
        requires fits { FlowFits flow.now }
        ensures { IfOk result (λ c. IsIdle flow.now observer.now threads memory history.items c) }
    {
        let idle = idle_after(alloc, flow, observer, threads, &history)?;
        Ok(Config {
            alloc,
            memory,
            located: idle.located,
            history,
            points: idle.points,
            ended: false,
            steps: idle.steps,
        })
    }

    /// Where new lists are made.
    pub fn alloc(&self) -> Global {
        self.alloc
    }

    /// The events so far.
    pub fn history(&self) -> &[Event]
        ensures { result.now ≡ self.now.here.history }
    {
        &self.history
    }

    /// The memory.
    pub fn memory(&self) -> &Memory
        ensures { result.now ≡ self.now.here.state }
    {
        &self.memory
    }

    /// The point where a thread stands. `None` exactly where it is idle, and where there is no such thread.
    pub fn point(&self, t: u32) -> Option<Point>
        ensures { result ≡ point_of self.now.here t }
    {
        point_at(&self.points, t)
    }

    /// One move, with the flow and the observer of the start. After `Blocked` and `Forbidden`, and where
    /// memory runs out, the configuration is as it was. After a race it is ended, with its history as
    /// before the step, and every further move is `Blocked`.
    pub fn step(&mut self, flow: &Flow, observer: &Observer, m: &Move) -> Result<Moved, NoMemory>
        requires fits { FlowFits flow.now }
        requires of_run { IsOfRun flow.now observer.now self.old }
        ensures answers { IfOk result (λ r. Answers flow.now observer.now self.old m.now r self.new) }
        ensures of_run { IsOfRun flow.now observer.now self.new }
        ensures err { OnErr result (self.new ≡ self.old) }
    {
        if self.ended {
            return Ok(Moved::Blocked);
        }
        self.advance(flow, observer, m)
    }

    /// One move of a run that no race has ended.
    fn advance(&mut self, flow: &Flow, observer: &Observer, m: &Move) -> Result<Moved, NoMemory>
        requires here { IsOfFlow flow.now self.old }
        requires follows { Follows observer.now self.old }
        ensures answer { IfOk result (λ r. r ≡ answer (reach flow.now observer.now self.old.here m.now)) }
        ensures after { OnOk result (Reaches (reach flow.now observer.now self.old.here m.now) self.old self.new) }
        ensures follows { Follows observer.now self.new }
        ensures err { OnErr result (self.new ≡ self.old) }
    {
        match m {
            Move::Start { t, op, args } => self.start_move(flow, *t, *op, args.as_slice()),
            Move::Step { t, nth, addr } => self.step_move(flow, *t, *nth, *addr),
            Move::Return { t } => Ok(self.return_move(flow, *t)),
            Move::Free { a } => self.free_move(observer, *a),
        }
    }

    /// A start: the thread gets the locals of the operation.
    fn start_move(&mut self, flow: &Flow, t: u32, op: OpId, args: &[u32]) -> Result<Moved, NoMemory>
        requires { IsOfFlow flow.now self.old }
        ensures answer { IfOk result (λ r. r ≡ answer (start_from flow.now self.old.here t op.0 args.now)) }
        ensures after { OnOk result (Reaches (start_from flow.now self.old.here t op.0 args.now) self.old self.new) }
        ensures unheard { IsUnheard self.old self.new }
        ensures err { OnErr result (self.new ≡ self.old) }
    {
        let Some((operation, entry)) = begun(flow, &self.points, t, op, args) else {
            return Ok(Moved::Blocked);
        };
        let l = Locals::new(self.alloc, operation, args)?;
        self.memory.put(t, l);
        set_point(&mut self.points, t, Some(entry));
        Ok(Moved::Done)
    }

    /// A step, where there is such a step and the move has its shape.
    fn step_move(
        &mut self,
        flow: &Flow,
        t: u32,
        nth: u16,
        addr: Option<u32>,
    ) -> Result<Moved, NoMemory>
        requires { IsOfFlow flow.now self.old }
        ensures { Comes (step_from flow.now self.old.here t nth addr (point_of self.old.here t))
            self.old result self.new }
    {
        let Some((point, step)) = indexed_step_at(flow, &self.steps, &self.points, t, nth) else {
            return Ok(Moved::Blocked);
        };
        if !names_rightly(step, addr) {
            return Ok(Moved::Blocked);
        }
        self.take(step, point, t, addr)
    }

    /// Takes a step: its primitives in order, and then its thread stands where it leads.
    fn take(
        &mut self,
        step: &Step,
        point: Point,
        t: u32,
        addr: Option<u32>,
    ) -> Result<Moved, NoMemory>
        requires { IsReady self.old.here t point step.now }
        ensures { Comes (step_leads self.old.here t point step.now addr) self.old result self.new }
    {
        let ended = self.act(step.prims.as_slice(), Actor { t, addr })?;
        Ok(self.conclude(ended, arrival(point, step), t))
    }

    /// Ends a step by how its primitives ended.
    fn conclude(&mut self, ended: Ended, to: Point, t: u32) -> Moved
        requires { t < threads_of self.old }
        ensures answer { result ≡ answer (concluded self.old.here t to ended) }
        ensures after { Reaches (concluded self.old.here t to ended) self.old self.new }
        ensures unheard { IsUnheard self.old self.new }
    {
        match ended {
            Ended::Fine => {
                set_point(&mut self.points, t, Some(to));
                Moved::Done
            }
            Ended::Blocked => Moved::Blocked,
            Ended::Raced { kind, prim } => self.race(kind, prim),
        }
    }

    /// Takes primitives of a thread in order. Its locals stand outside the memory meanwhile.
    fn act(&mut self, prims: &[Prim], by: Actor) -> Result<Ended, NoMemory>
        requires { MayTry self.old.here.state by.t prims.now }
        ensures acts { IfOk result (λ e. Acts by.t (address_or_null by.addr) prims.now self.old e self.new) }
        ensures follows { StillFollows self.old self.new }
        ensures err { OnErr result (self.new ≡ self.old) }
    {
        let Some(mut me) = self.memory.take(by.t) else {
            return Ok(Ended::Blocked);
        };
        let ended = self.act_with(prims, &mut me, by);
        self.memory.put(by.t, me);
        ended
    }

    /// Takes primitives of a thread with these locals, and takes them back unless all of them come about.
    fn act_with(&mut self, prims: &[Prim], me: &mut Locals, by: Actor) -> Result<Ended, NoMemory>
        requires { MayExecute self.old.here.state me.old prims.now }
        ensures acts { IfOk result (λ e.
            ActsWith by.t (address_or_null by.addr) prims.now self.old me.old e self.new me.new) }
        ensures kept { Kept self.old.here.state me.old self.new.here.state me.new }
        ensures follows { StillFollows self.old self.new }
        ensures err { OnErr result ((self.new ≡ self.old) × (me.new ≡ me.old)) }
    {
        let mut undos = Vec::new(self.alloc);
        let ended = self.try_with(prims, me, &mut undos, by);
        if came_about(&ended) {
            return ended;
        }
        self.memory.undo_all(me, &mut undos);
        ended
    }

    /// Takes primitives of a thread with these locals, and notes what takes them back. What the observer hears of them
    /// is put after the history where all of them succeeded.
    fn try_with(
        &mut self,
        prims: &[Prim],
        me: &mut Locals,
        undos: &mut Vec<Undo>,
        by: Actor,
    ) -> Result<Ended, NoMemory>
        requires may { MayExecute self.old.here.state me.old prims.now }
        requires none { undos.old.items ≡ [] }
        ensures tries { Tries by.t (address_or_null by.addr) prims.now self.old me.old result
            self.new me.new undos.new.items }
        ensures follows { StillFollows self.old self.new }
    {
        let mut events = Vec::new(self.alloc);
        let ended = execute(&mut self.memory, me, &mut events, undos, prims, by)?;
        match ended {
            Ended::Fine => {
                self.hear(&events)?;
                Ok(Ended::Fine)
            }
            Ended::Blocked => Ok(Ended::Blocked),
            Ended::Raced { kind, prim } => Ok(Ended::Raced { kind, prim }),
        }
    }

    /// A race ends the run.
    fn race(&mut self, kind: RaceKind, prim: u16) -> Moved
        ensures answer { result ≡ answer (Breaks kind prim) }
        ensures after { Reaches (Breaks kind prim) self.old self.new }
    {
        self.ended = true;
        Moved::Race { kind, prim }
    }

    /// Puts events after the history, and moves the locations by them. The history's places are made first.
    fn hear(&mut self, events: &[Event]) -> Result<(), NoMemory>
        ensures ok { OnOk result (Hears events.now self.old self.new) }
        ensures follows { StillFollows self.old self.new }
        ensures err { OnErr result (self.new ≡ self.old) }
    {
        self.history.reserve(events.len())?;
        self.located.hear_all(events)?;
        self.history.extend_from_slice(events)?;
        Ok(())
    }

    /// A return: the thread loses its locals.
    fn return_move(&mut self, flow: &Flow, t: u32) -> Moved
        requires { IsOfFlow flow.now self.old }
        ensures answer { result ≡ answer (return_from flow.now self.old.here t (point_of self.old.here t)) }
        ensures after { Reaches (return_from flow.now self.old.here t (point_of self.old.here t)) self.old self.new }
        ensures unheard { IsUnheard self.old self.new }
    {
        if !at_exit(flow, &self.points, t) {
            return Moved::Blocked;
        }
        let _gone = self.memory.take(t);
        set_point(&mut self.points, t, None);
        Moved::Done
    }

    /// A free, judged for each thread by where it stands.
    fn free_move(&mut self, observer: &Observer, a: u32) -> Result<Moved, NoMemory>
        requires follows { Follows observer.now self.old }
        ensures answer { IfOk result (λ r. r ≡ answer (free_of observer.now self.old.here a)) }
        ensures after { OnOk result (Reaches (free_of observer.now self.old.here a) self.old self.new) }
        ensures follows { Follows observer.now self.new }
        ensures err { OnErr result (self.new ≡ self.old) }
    {
        if a == 0 {
            return Ok(Moved::Blocked);
        }
        if !self.located.may_free(a) {
            return Ok(Moved::Forbidden { a });
        }
        self.hear(&[Event::Free { a }])?;
        self.memory.free(a);
        Ok(Moved::Done)
    }
}
