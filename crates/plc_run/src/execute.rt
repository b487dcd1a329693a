// Primitives in order on the memory itself. Each notes what takes it back: the caller takes all of them back where the
// list of them doesn't come about.
ghost use Rattle.std.specs.Prelude.{◌≡◌, IfOk, OnOk, Some, []};
ghost use Rattle.plc_lang.specs.Shape.{PrimitiveIn};
ghost use Rattle.plc_flow.specs.WellFormed.{FlowFits};
ghost use Rattle.plc_mem.specs.State.{State, Locals, with_locals, first_state, no_locals};
ghost use Rattle.plc_mem.specs.Outcomes.{outcome_of, next_of, address_or_null};
ghost use Rattle.plc_mem.specs.Fit.{shape, Kept};
ghost use Rattle.plc_mem.specs.Undoing.{TakesBack};
ghost use Rattle.plc_run.specs.Run.{execute};
ghost use Rattle.plc_run.specs.Ended.{heard, ending, MayExecute, InitEnds};

use plc_auto::Event;
use plc_base::NoMemory;
use plc_flow::Flow;
use plc_lang::Prim;
use plc_mem::{Locals, Memory, Outcome, RaceKind, Undo};
use std::alloc::Global;

/// Who takes primitives: a thread, and the address that a `new` of them takes, where the move names one.
#[derive(Clone, Copy)]
pub struct Actor {
    pub t: u32,
    pub addr: Option<u32>,
}

/// How primitives in order ended.
#[derive(Clone, Copy)]
pub enum Ended {
    /// All succeeded.
    Fine,
    /// One is blocked.
    Blocked,
    /// This one is a race.
    Raced { kind: RaceKind, prim: u16 },
}

/// What `init` came to, with its events.
#[derive(Drop)]
pub struct Tried {
    pub memory: Memory,
    pub events: Vec<Event>,
    pub ended: Ended,
}

/// Takes one primitive, puts its event after the events and what takes it back after `undos`.
fn one(
    memory: &mut Memory,
    me: &mut Locals,
    events: &mut Vec<Event>,
    undos: &mut Vec<Undo>,
    prim: &Prim,
    by: Actor,
) -> Result<Outcome, NoMemory>
    requires { PrimitiveIn (shape memory.old me.old) prim.now }
    ensures kept { Kept memory.old me.old memory.new me.new }
    ensures undoable { (s : State) (l : Locals) → TakesBack by.t s l undos.old.items memory.old me.old
        → TakesBack by.t s l undos.new.items memory.new me.new }
    ensures events { IfOk result (λ o. events.new.items ≡ heard events.old.items o) }
    ensures outcome { IfOk result (λ o. o
        ≡ outcome_of (with_locals memory.old by.t (Some me.old)) by.t (address_or_null by.addr) prim.now) }
    ensures next { OnOk result (with_locals memory.new by.t (Some me.new)
        ≡ next_of (with_locals memory.old by.t (Some me.old)) by.t (address_or_null by.addr) prim.now) }
{
    match memory.apply_undoably(prim, me, undos, by.t, by.addr)? {
        Outcome::Next(Some(event)) => {
            events.push(event)?;
            Ok(Outcome::Next(Some(event)))
        }
        Outcome::Next(None) => Ok(Outcome::Next(None)),
        Outcome::Blocked => Ok(Outcome::Blocked),
        Outcome::Race(kind) => Ok(Outcome::Race(kind)),
    }
}

/// Takes primitives in order, for a thread with these locals, up to the first that doesn't succeed. Whatever comes of
/// them, and also where memory runs out, `undos` takes back those that did.
pub fn execute(
    memory: &mut Memory,
    me: &mut Locals,
    events: &mut Vec<Event>,
    undos: &mut Vec<Undo>,
    prims: &[Prim],
    by: Actor,
) -> Result<Ended, NoMemory>
    requires { MayExecute memory.old me.old prims.now }
    ensures ends { IfOk result (λ e. ending e (with_locals memory.new by.t (Some me.new)) events.new.items
        ≡ execute (with_locals memory.old by.t (Some me.old)) events.old.items by.t (address_or_null by.addr)
        0 prims.now) }
    ensures kept { Kept memory.old me.old memory.new me.new }
    ensures undoable { (s : State) (l : Locals) → TakesBack by.t s l undos.old.items memory.old me.old
        → TakesBack by.t s l undos.new.items memory.new me.new }
{
    for k in 0..prims.len() {
        let prim = &prims[k];
        match one(memory, me, events, undos, prim, by)? {
            Outcome::Next(_) => {}
            Outcome::Blocked => return Ok(Ended::Blocked),
            Outcome::Race(kind) => return Ok(Ended::Raced {
                kind,
                prim: k as u16,
            }),
        }
    }
    Ok(Ended::Fine)
}

/// Takes the primitives of `init`, as thread 0 before it has locals. Its `new` takes the address 1.
fn run_init(
    alloc: Global,
    flow: &Flow,
    memory: &mut Memory,
    events: &mut Vec<Event>,
) -> Result<Ended, NoMemory>
    requires { MayExecute memory.old no_locals flow.now.file.init }
    ensures { IfOk result (λ e.
        InitEnds memory.old events.old.items flow.now.file.init e memory.new events.new.items) }
{
    let mut me = Locals::none(alloc)?;
    let mut undos = Vec::new(alloc);
    let init = flow.file.init.as_slice();
    let by = Actor {
        t: 0,
        addr: Some(1),
    };
    execute(memory, &mut me, events, &mut undos, init, by)
}

/// Tries `init` on a new memory for so many threads.
pub fn try_init(alloc: Global, flow: &Flow, threads: u32) -> Result<Tried, NoMemory>
    requires { FlowFits flow.now }
    ensures { IfOk result (λ x.
        InitEnds (first_state flow.now threads) [] flow.now.file.init x.ended x.memory x.events.items) }
{
    let mut memory = Memory::new(alloc, flow, threads)?;
    let mut events = Vec::new(alloc);
    let ended = run_init(alloc, flow, &mut memory, &mut events)?;
    Ok(Tried {
        memory,
        events,
        ended,
    })
}
