// Whether a step looks as if it could be taken. A side of `choose` begins with a step that does nothing, and a thread
// that took it can't go back, so whoever draws runs looks at what comes after it first. This is a guess, on which no
// answer rests: of a block it asks the primitives up to the first that changes what the next ones see.
use plc_flow::{Flow, Step, StepsByPoint};
use plc_lang::{Prim, is_test};
use plc_mem::{Locals, Memory, Outcome};

/// An address that no node has, for a look at a step that makes one.
const SOME_ADDRESS: Option<u32> = Some(u32::MAX);

/// A thread, and what it sees.
#[derive(Clone, Copy)]
pub struct Outlook<'a> {
    pub memory: &'a Memory,
    pub me: &'a Locals,
    pub t: u32,
}

/// Whether a primitive leaves all numbers and marks as they are.
fn only_asks(prim: &Prim) -> bool {
    is_test(prim)
        || matches!(
            prim,
            Prim::Refresh { .. }
                | Prim::RefreshLoad { .. }
                | Prim::RefreshStore { .. }
                | Prim::Active { .. }
                | Prim::Ghost { .. }
        )
}

impl Outlook<'_> {
    /// Whether the primitives of a step look as if they could be taken.
    fn primitives_go(&self, prims: &[Prim]) -> bool {
        for prim in prims {
            match self.memory.outcome(prim, self.me, self.t, SOME_ADDRESS) {
                Outcome::Blocked => return false,
                Outcome::Race(_) => return true,
                Outcome::Next(_) => {}
            }
            if !only_asks(prim) {
                return true;
            }
        }
        true
    }

    /// Whether a step looks as if it could be taken, and then another, and a third where those do nothing.
    pub fn is_open(&self, flow: &Flow, steps: &StepsByPoint, step: &Step) -> bool {
        if !step.prims.is_empty() {
            return self.primitives_go(step.prims.as_slice());
        }
        let leaving = steps.leaving(step.to.0);
        for k in leaving {
            if let Some(next) = flow.steps.get(*k as usize) {
                if self.is_open_soon(flow, steps, next) {
                    return true;
                }
            }
        }
        leaving.is_empty()
    }

    /// The same of a step that comes second.
    fn is_open_soon(&self, flow: &Flow, steps: &StepsByPoint, step: &Step) -> bool {
        if !step.prims.is_empty() {
            return self.primitives_go(step.prims.as_slice());
        }
        let leaving = steps.leaving(step.to.0);
        for k in leaving {
            if let Some(next) = flow.steps.get(*k as usize) {
                if self.primitives_go(next.prims.as_slice()) {
                    return true;
                }
            }
        }
        leaving.is_empty()
    }
}
