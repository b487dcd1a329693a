// A garbage-collected configuration in code. What a move of several primitives leads to is computed beside it: nothing
// of the configuration is touched before the last call that may need memory, so that a move that is blocked, and
// running out of memory, leave it as it was. A step of one primitive needs no copy, and is taken in place.
ghost use Rattle.std.specs.Prelude.{◌≡◌, ◌<◌, length, [], IfOk, OnOk, OnErr, Some, None};
ghost use Rattle.plc_flow.specs.declared.flow.Step.{Step as AStep};
ghost use Rattle.plc_flow.specs.declared.points.Point.{Point as APoint};
ghost use Rattle.plc_flow.specs.WellFormed.{FlowFits};
ghost use Rattle.plc_flow.specs.WellSorted.{FlowIsWellSorted};
ghost use Rattle.plc_gc.specs.State.{node_of};
ghost use Rattle.plc_gc.specs.Run.{MayTake, point_of, execute, beginning};
ghost use Rattle.plc_gc.specs.Claims.{claims};
ghost use Rattle.plc_gc.specs.Fit.{IsReady};
ghost use Rattle.plc_gc.specs.Reach.{start_from, step_from, ended_as, return_from, reach, reached, answer};
ghost use Rattle.plc_gc.specs.Position.{threads_of, IsOfRun, Starts, Answers};

use crate::execute::{claims, take_step, try_init};
use crate::locals::Locals;
use crate::state::State;
use plc_base::{NoMemory, OpId};
use plc_flow::{Flow, Point, Step};
use plc_moves::{Move, Place, StartFault, arrival, at_exit, begun, none_held, set_point, step_at};
use std::alloc::Global;
use std::marker::Model;

/// What a move comes to.
#[derive(Clone, Copy, Debug, PartialEq, Eq)]
pub enum GcMoved {
    /// It happened.
    Done,
    /// There is no such move here.
    Blocked,
}

/// The configuration of a garbage-collected run: the values, and where each thread stands.
#[derive(Drop)]
pub struct GcConfig {
    alloc: Global,
    state: State,
    points: Vec<Option<Point>>,
}

impl Model for GcConfig {
    ghost use Rattle.std.specs.Prelude.{◌<◌, ◌^◌, length};
    ghost use Rattle.plc_gc.specs.Run.{GcConfiguration};

    ghost Value = { GcConfiguration };

    ghost view = { λ c. record { state = c.state; points = c.points.items } };

    ghost invariant = { λ c. (0 < length c.points.items) × (length c.points.items < 2 ^ 32) };
}

impl GcConfig {
    /// The configuration in which the garbage-collected runs of a flow begin, with so many threads, from 1:
    /// what `init` leaves, and every thread idle. `NoStart` comes exactly where `init` is blocked, so that
    /// the flow has no run.
    pub fn start(alloc: Global, flow: &Flow, threads: u32) -> Result<GcConfig, StartFault>
        requires fits { FlowFits flow.now }
        requires sorted { FlowIsWellSorted flow.now }
        requires some { 0 < threads }
        ensures starts { Starts flow.now threads result }
        ensures of_run { IfOk result (λ c. IsOfRun flow.now c × (threads_of c ≡ threads)) }
    {
        let Some(state) = try_init(alloc, flow, threads)? else {
            return Err(StartFault::NoStart);
        };
        Ok(GcConfig::idle(alloc, threads, state)?)
    }

    /// These values, with every thread idle, thread 0 too.
    fn idle(alloc: Global, threads: u32, state: State) -> Result<GcConfig, NoMemory>
        requires some { 0 < threads }
        requires room { 0 < length state.locals }
        ensures { IfOk result (λ c. Some c ≡ beginning threads (Some state)) }
    {
        let points = none_held(alloc, threads as usize)?;
        let mut state = state;
        state.give(0, None);
        Ok(GcConfig {
            alloc,
            state,
            points,
        })
    }

    /// What the places of the program hold now.
    pub(crate) fn state(&self) -> &State
        ensures { result.now ≡ self.now.state }
    {
        &self.state
    }

    /// The node that a pointer place holds, 0 for null; a cell is named by its node. `None` comes exactly where
    /// there is no such place: a shared pointer or a local past the last, a local of an idle thread, a field
    /// of null or of a node that isn't made, a data field.
    pub fn node(&self, place: &Place) -> Option<u32>
        ensures { result ≡ node_of self.now.state place.now }
    {
        self.state.node_in(place)
    }

    /// One move, with the flow of the start. The address of a step isn't read; a free is `Done` and changes
    /// nothing. After `Blocked`, and where memory runs out, the configuration is as it was.
    pub fn step(&mut self, flow: &Flow, m: &Move) -> Result<GcMoved, NoMemory>
        requires fits { FlowFits flow.now }
        requires sorted { FlowIsWellSorted flow.now }
        requires of_run { IsOfRun flow.now self.old }
        ensures answers { IfOk result (λ r. Answers flow.now self.old m.now r self.new) }
        ensures of_run { IsOfRun flow.now self.new }
        ensures err { OnErr result (self.new ≡ self.old) }
    {
        self.advance(flow, m)
    }

    /// Takes one move, and says what became of it.
    fn advance(&mut self, flow: &Flow, m: &Move) -> Result<GcMoved, NoMemory>
        requires fits { FlowFits flow.now }
        requires sorted { FlowIsWellSorted flow.now }
        requires of_run { IsOfRun flow.now self.old }
        ensures answer { IfOk result (λ r. r ≡ answer (reach flow.now self.old m.now)) }
        ensures after { OnOk result (self.new ≡ reached (reach flow.now self.old m.now) self.old) }
        ensures err { OnErr result (self.new ≡ self.old) }
    {
        match m {
            Move::Start { t, op, args } => self.start_move(flow, *t, *op, args.as_slice()),
            Move::Step { t, nth, .. } => self.step_move(flow, *t, *nth),
            Move::Return { t } => Ok(self.return_move(flow, *t)),
            Move::Free { .. } => Ok(GcMoved::Done),
        }
    }

    /// A start: the thread gets the locals of the operation.
    fn start_move(
        &mut self,
        flow: &Flow,
        t: u32,
        op: OpId,
        args: &[u32],
    ) -> Result<GcMoved, NoMemory>
        requires fits { FlowFits flow.now }
        requires sorted { FlowIsWellSorted flow.now }
        requires of_run { IsOfRun flow.now self.old }
        ensures answer { IfOk result (λ r. r ≡ answer (start_from flow.now self.old t op.0 args.now)) }
        ensures after { OnOk result (self.new ≡ reached (start_from flow.now self.old t op.0 args.now) self.old) }
        ensures err { OnErr result (self.new ≡ self.old) }
    {
        let Some((operation, entry)) = begun(flow, &self.points, t, op, args) else {
            return Ok(GcMoved::Blocked);
        };
        let l = Locals::new(self.alloc, operation, args)?;
        self.state.give(t, Some(l));
        set_point(&mut self.points, t, Some(entry));
        Ok(GcMoved::Done)
    }

    /// A step, if there is one.
    fn step_move(&mut self, flow: &Flow, t: u32, nth: u16) -> Result<GcMoved, NoMemory>
        requires fits { FlowFits flow.now }
        requires sorted { FlowIsWellSorted flow.now }
        requires of_run { IsOfRun flow.now self.old }
        ensures answer { IfOk result (λ r. r ≡ answer (step_from flow.now self.old t nth (point_of self.old t))) }
        ensures after { OnOk result
            (self.new ≡ reached (step_from flow.now self.old t nth (point_of self.old t)) self.old) }
        ensures err { OnErr result (self.new ≡ self.old) }
    {
        let Some((point, step)) = step_at(flow, &self.points, t, nth) else {
            return Ok(GcMoved::Blocked);
        };
        self.take(step, point, t)
    }

    /// A step is taken, unless one of its primitives is blocked.
    fn take(&mut self, step: &Step, point: Point, t: u32) -> Result<GcMoved, NoMemory>
        requires stands { point_of self.old t ≡ Some point }
        requires ready { IsReady self.old.state t step.now.prims }
        ensures answer { IfOk result
            (λ r. r ≡ answer (ended_as self.old t point step.now.to.0 (execute self.old.state t step.now.prims))) }
        ensures after { OnOk result (self.new
            ≡ reached (ended_as self.old t point step.now.to.0 (execute self.old.state t step.now.prims)) self.old) }
        ensures err { OnErr result (self.new ≡ self.old) }
    {
        if !take_step(&mut self.state, t, step.prims.as_slice())? {
            return Ok(GcMoved::Blocked);
        }
        set_point(&mut self.points, t, Some(arrival(point, step)));
        Ok(GcMoved::Done)
    }

    /// A return: the thread's locals are gone.
    fn return_move(&mut self, flow: &Flow, t: u32) -> GcMoved
        requires fits { FlowFits flow.now }
        requires sorted { FlowIsWellSorted flow.now }
        requires of_run { IsOfRun flow.now self.old }
        ensures answer { result ≡ answer (return_from flow.now self.old t (point_of self.old t)) }
        ensures after { self.new ≡ reached (return_from flow.now self.old t (point_of self.old t)) self.old }
    {
        if !at_exit(flow, &self.points, t) {
            return GcMoved::Blocked;
        }
        self.state.give(t, None);
        set_point(&mut self.points, t, None);
        GcMoved::Done
    }

    /// The truth of each `active` that a step reaches before it is blocked, in order. The step is the `nth` of
    /// those that leave the point of thread `t`; where the thread is idle, or no such step leaves, there is none.
    pub fn claims(&self, flow: &Flow, t: u32, nth: u16) -> Result<Vec<bool>, NoMemory>
        requires fits { FlowFits flow.now }
        requires sorted { FlowIsWellSorted flow.now }
        requires of_run { IsOfRun flow.now self.now }
        ensures claims { IfOk result (λ truths. (p : APoint) (step : AStep)
            → MayTake flow.now (threads_of self.now) self.now t nth p step
            → truths.items ≡ claims self.now.state t step.prims) }
        ensures none { IfOk result (λ truths. ((p : APoint) (step : AStep)
            → MayTake flow.now (threads_of self.now) self.now t nth p step → ⊥)
            → truths.items ≡ []) }
    {
        match step_at(flow, &self.points, t, nth) {
            Some((_point, step)) => self.claims_of(step, t),
            None => Ok(Vec::new(self.alloc)),
        }
    }

    /// The truth of each claim that a step reaches, on a copy of the values.
    fn claims_of(&self, step: &Step, t: u32) -> Result<Vec<bool>, NoMemory>
        requires { IsReady self.now.state t step.now.prims }
        ensures { IfOk result (λ truths. truths.items ≡ claims self.now.state t step.now.prims) }
    {
        let mut state = self.state.copy()?;
        claims(self.alloc, &mut state, t, step.prims.as_slice())
    }
}
