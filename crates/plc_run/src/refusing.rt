// Why a move was blocked. A run needs no more than that it is, so `step` says nothing of it: who shows a run asks here,
// once, about the move at which it ended. The causes are looked at in the order of the definition. Of a step the
// primitives are taken on a copy of the memory, up to the one that is blocked, so that asking changes nothing.
ghost use Rattle.std.specs.Prelude.{◌≡◌, Some, slice_get, option_map, IfOk};
ghost use Rattle.plc_flow.specs.WellFormed.{FlowFits};
ghost use Rattle.plc_mem.specs.State.{with_locals};
ghost use Rattle.plc_mem.specs.Outcomes.{address_or_null};
ghost use Rattle.plc_run.specs.Run.{point_of};
ghost use Rattle.plc_run.specs.Ended.{MayTry, MayExecute, IsOfFlow};
ghost use Rattle.plc_run.specs.Position.{threads_of, IsOfSomeRun};
ghost use Rattle.plc_run.specs.Refusals.{refusal_of, IsNamedExactly, move_refused, of_thread, start_refused};
ghost use Rattle.plc_run.specs.Refusals.{step_refused, return_refused, unstarted, untaken, blocked_in, blocked_by};

use crate::config::Config;
use crate::refusal::Refusal;
use plc_base::{NoMemory, OpId};
use plc_flow::{Flow, Step, names_rightly};
use plc_lang::{Prim, count_parameters};
use plc_mem::{Locals, Memory, Outcome};
use plc_moves::{Move, at_exit};

impl Config {
    /// Why there is no such move here, with the flow of the start: the first cause in the order in which a move is
    /// looked at. `None` comes exactly where there is such a move, where it is a race, and where it is a free that the
    /// observer forbids; after a race has ended the run there is none of these. The one error is that memory runs out.
    pub fn refusal(&self, flow: &Flow, m: &Move) -> Result<Option<Refusal>, NoMemory>
        requires fits { FlowFits flow.now }
        requires of_run { IsOfSomeRun flow.now self.now }
        ensures cause { IfOk result (λ r. r ≡ refusal_of flow.now self.now m.now) }
        ensures exact { IfOk result (λ r. IsNamedExactly flow.now self.now m.now r) }
    {
        if self.ended {
            return Ok(Some(Refusal::Ended));
        }
        self.move_refused(flow, m)
    }

    /// The cause in a run that no race has ended.
    fn move_refused(&self, flow: &Flow, m: &Move) -> Result<Option<Refusal>, NoMemory>
        requires { IsOfFlow flow.now self.now }
        ensures { IfOk result (λ r. r ≡ move_refused flow.now (threads_of self.now) self.now.here m.now) }
    {
        match m {
            Move::Start { t, op, args } => {
                let refused = self.start_refused(flow, *t, *op, args.as_slice());
                Ok(self.of_thread(*t, refused))
            }
            Move::Step { t, nth, addr } => {
                let refused = self.step_refused(flow, *t, *nth, *addr)?;
                Ok(self.of_thread(*t, refused))
            }
            Move::Return { t } => {
                let refused = self.return_refused(flow, *t);
                Ok(self.of_thread(*t, refused))
            }
            Move::Free { a } => Ok((*a == 0).then_some(Refusal::Null)),
        }
    }

    /// The cause of a move of a thread: that there is no such thread goes before what is refused of it.
    fn of_thread(&self, t: u32, refused: Option<Refusal>) -> Option<Refusal>
        ensures { result ≡ of_thread t (threads_of self.now) refused }
    {
        if (t as usize) < self.points.len() {
            refused
        } else {
            Some(Refusal::NoThread)
        }
    }

    /// The cause of a start.
    fn start_refused(&self, flow: &Flow, t: u32, op: OpId, args: &[u32]) -> Option<Refusal>
        ensures { result ≡ start_refused flow.now op.0 args.now (point_of self.now.here t) }
    {
        match self.point(t) {
            Some(_) => Some(Refusal::Busy),
            None => unstarted(flow, op, args),
        }
    }

    /// The cause of a step.
    fn step_refused(
        &self,
        flow: &Flow,
        t: u32,
        nth: u16,
        addr: Option<u32>,
    ) -> Result<Option<Refusal>, NoMemory>
        requires { IsOfFlow flow.now self.now }
        ensures { IfOk result (λ r. r
            ≡ step_refused flow.now self.now.here t nth addr (point_of self.now.here t)) }
    {
        let Some(point) = self.point(t) else {
            return Ok(Some(Refusal::Idle));
        };
        let Some(step) = self.steps.nth_step(flow, point.at, nth) else {
            return Ok(Some(Refusal::NoStep));
        };
        self.untaken(step, t, addr)
    }

    /// The cause of a step that leaves the point of the thread, by a move that names an address or none.
    fn untaken(&self, step: &Step, t: u32, addr: Option<u32>) -> Result<Option<Refusal>, NoMemory>
        requires { MayTry self.now.here.state t step.now.prims }
        ensures { IfOk result (λ r. r ≡ untaken self.now.here t addr (Some step.now)) }
    {
        if names_rightly(step, addr) {
            let blocked = self.blocked_in(step.prims.as_slice(), t, addr)?;
            return Ok(blocked_by(blocked));
        }
        if addr.is_some() {
            Ok(Some(Refusal::NotAllocating))
        } else {
            Ok(Some(Refusal::NoAddress))
        }
    }

    /// Which of these primitives of a thread is blocked, if one is before all that are races.
    fn blocked_in(&self, prims: &[Prim], t: u32, addr: Option<u32>) -> Result<Option<u16>, NoMemory>
        requires { MayTry self.now.here.state t prims.now }
        ensures { IfOk result (λ k. k
            ≡ blocked_in self.now.here.state t (address_or_null addr) 0 prims.now) }
    {
        let mut memory = self.memory.copy()?;
        let Some(mut me) = memory.take(t) else {
            return Ok(None);
        };
        first_blocked(&mut memory, &mut me, prims, t, addr)
    }

    /// The cause of a return.
    fn return_refused(&self, flow: &Flow, t: u32) -> Option<Refusal>
        ensures { result ≡ return_refused flow.now (point_of self.now.here t) }
    {
        if self.point(t).is_none() {
            return Some(Refusal::Idle);
        }
        if at_exit(flow, &self.points, t) {
            None
        } else {
            Some(Refusal::NotAtExit)
        }
    }
}

/// The cause why an idle thread doesn't begin an operation with these arguments.
fn unstarted(flow: &Flow, op: OpId, args: &[u32]) -> Option<Refusal>
    ensures { result ≡ unstarted args.now (slice_get flow.now.file.ops op.0) }
{
    let Some(operation) = flow.file.ops.get(op.0 as usize) else {
        return Some(Refusal::NoOperation);
    };
    if args.len() == count_parameters(operation) {
        None
    } else {
        Some(Refusal::Arguments)
    }
}

/// The cause of a step of which this primitive is blocked, or none.
fn blocked_by(prim: Option<u16>) -> Option<Refusal>
    ensures { result ≡ option_map blocked_by prim }
{
    match prim {
        Some(prim) => Some(Refusal::Blocked { prim }),
        None => None,
    }
}

/// Takes primitives in order, for a thread with these locals, up to the first that doesn't succeed: which that is,
/// where it is blocked.
fn first_blocked(
    memory: &mut Memory,
    me: &mut Locals,
    prims: &[Prim],
    t: u32,
    addr: Option<u32>,
) -> Result<Option<u16>, NoMemory>
    requires { MayExecute memory.old me.old prims.now }
    ensures { IfOk result (λ k. k ≡ blocked_in (with_locals memory.old t (Some me.old)) t
        (address_or_null addr) 0 prims.now) }
{
    for k in 0..prims.len() {
        let prim = &prims[k];
        match memory.apply(prim, me, t, addr)? {
            Outcome::Next(_) => {}
            Outcome::Blocked => return Ok(Some(k as u16)),
            Outcome::Race(_) => return Ok(None),
        }
    }
    Ok(None)
}
