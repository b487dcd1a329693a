// The primitives of a step in order, those of `init`, and the claims that primitives reach. Several primitives run on
// a state that may be thrown away, so that a step that is blocked, and running out of memory, have changed nothing. A
// step of one primitive runs in place: where it is blocked or memory runs out, it hasn't changed anything yet.
ghost use Rattle.std.specs.Prelude.{◌≡◌, ◌+◌, ◌<◌, ◌^◌, ◌++◌, ◌∷◌, [], if◌then◌else◌, length, IfOk, OnOk, OnErr};
ghost use Rattle.std.specs.Prelude.{Some, is_some};
ghost use Rattle.std.specs.Option.{unwrap_or};
ghost use Rattle.plc_lang.specs.WellSorted.{is_claim};
ghost use Rattle.plc_flow.specs.WellFormed.{FlowFits};
ghost use Rattle.plc_flow.specs.WellSorted.{FlowIsWellSorted};
ghost use Rattle.plc_gc.specs.State.{with_locals, no_locals};
ghost use Rattle.plc_gc.specs.Run.{turn, execute, initialised};
ghost use Rattle.plc_gc.specs.Claims.{claim_holds, claims};
ghost use Rattle.plc_gc.specs.Ranges.{IsInRange};
ghost use Rattle.plc_gc.specs.Fit.{IsHeld, frame, FrameHasAll, IsReady};

use crate::locals::Locals;
use crate::state::State;
use plc_base::NoMemory;
use plc_flow::Flow;
use plc_lang::Prim;
use std::alloc::Global;

/// Primitives of thread `t` in order; whether none is blocked.
fn execute(state: &mut State, t: u32, prims: &[Prim]) -> Result<bool, NoMemory>
    requires small { t + 1 < 2 ^ 32 }
    requires held { IsHeld state.old t }
    requires there { FrameHasAll (frame state.old t) prims.now }
    requires ranges { IsInRange state.old }
    ensures { IfOk result (λ went. turn went (Some state.new) ≡ execute state.old t prims.now) }
{
    for k in 0..prims.len() {
        if !state.apply(t, &prims[k])? {
            return Ok(false);
        }
    }
    Ok(true)
}

/// Primitives of thread `t` in order on a copy of these values, and nothing where one is blocked.
fn try_step(state: &State, t: u32, prims: &[Prim]) -> Result<Option<State>, NoMemory>
    requires { IsReady state.now t prims.now }
    ensures { IfOk result (λ s. s ≡ execute state.now t prims.now) }
{
    let mut state = state.copy()?;
    if execute(&mut state, t, prims)? {
        Ok(Some(state))
    } else {
        Ok(None)
    }
}

/// Takes primitives of thread `t` in order unless one is blocked, and says whether they were taken: one alone in place,
/// several on a copy, which then takes the place of these values.
pub fn take_step(state: &mut State, t: u32, prims: &[Prim]) -> Result<bool, NoMemory>
    requires { IsReady state.old t prims.now }
    ensures went { IfOk result (λ went. went ≡ is_some (execute state.old t prims.now)) }
    ensures after { OnOk result (state.new ≡ unwrap_or (execute state.old t prims.now) state.old) }
    ensures err { OnErr result (state.new ≡ state.old) }
{
    if let [prim] = prims {
        return state.apply(t, prim);
    }
    match try_step(state, t, prims)? {
        Some(next) => {
            *state = next;
            Ok(true)
        }
        None => Ok(false),
    }
}

/// The primitives of `init`, by thread 0 without locals; whether none is blocked.
fn run_init(alloc: Global, flow: &Flow, state: &mut State) -> Result<bool, NoMemory>
    requires room { 0 < length state.old.locals }
    requires ready { IsReady (with_locals state.old 0 (Some no_locals)) 0 flow.now.file.init }
    ensures { IfOk result (λ went. turn went (Some state.new)
        ≡ execute (with_locals state.old 0 (Some no_locals)) 0 flow.now.file.init) }
{
    state.give(0, Some(Locals::none(alloc)));
    execute(state, 0, flow.file.init.as_slice())
}

/// `init` on a new state for so many threads, and nothing where it is blocked.
pub fn try_init(alloc: Global, flow: &Flow, threads: u32) -> Result<Option<State>, NoMemory>
    requires fits { FlowFits flow.now }
    requires sorted { FlowIsWellSorted flow.now }
    requires some { 0 < threads }
    ensures { IfOk result (λ s. s ≡ initialised flow.now threads) }
{
    let mut state = State::first(alloc, flow, threads)?;
    if run_init(alloc, flow, &mut state)? {
        Ok(Some(state))
    } else {
        Ok(None)
    }
}

/// Adds the truth of the claim of a primitive, if it is one.
fn note_claim(truths: &mut Vec<bool>, state: &State, t: u32, prim: &Prim) -> Result<(), NoMemory>
    ensures { OnOk result (truths.new.items
        ≡ truths.old.items ++ (if is_claim prim.now then claim_holds state.now t prim.now ∷ [] else [])) }
{
    match *prim {
        Prim::Active { .. } => {
            truths.push(state.claim_holds(t, prim))?;
            Ok(())
        }
        _ => Ok(()),
    }
}

/// Adds the truth of each claim that the primitives of thread `t` reach before one is blocked.
fn note_claims(
    truths: &mut Vec<bool>,
    state: &mut State,
    t: u32,
    prims: &[Prim],
) -> Result<(), NoMemory>
    requires small { t + 1 < 2 ^ 32 }
    requires held { IsHeld state.old t }
    requires there { FrameHasAll (frame state.old t) prims.now }
    requires ranges { IsInRange state.old }
    ensures { OnOk result (truths.new.items ≡ truths.old.items ++ claims state.old t prims.now) }
{
    for k in 0..prims.len() {
        let prim = &prims[k];
        note_claim(truths, state, t, prim)?;
        if !state.apply(t, prim)? {
            return Ok(());
        }
    }
    Ok(())
}

/// The truth of each claim that the primitives of thread `t` reach before one is blocked.
pub fn claims(
    alloc: Global,
    state: &mut State,
    t: u32,
    prims: &[Prim],
) -> Result<Vec<bool>, NoMemory>
    requires small { t + 1 < 2 ^ 32 }
    requires held { IsHeld state.old t }
    requires there { FrameHasAll (frame state.old t) prims.now }
    requires ranges { IsInRange state.old }
    ensures { IfOk result (λ truths. truths.items ≡ claims state.old t prims.now) }
{
    let mut truths = Vec::new(alloc);
    note_claims(&mut truths, state, t, prims)?;
    Ok(truths)
}
