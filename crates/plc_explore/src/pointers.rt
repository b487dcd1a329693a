// Which pointer a race is about, and what it holds. The racing primitive may stand in a block after others that assign
// the pointer; then its value is looked for there, as far as it was copied or loaded.
use plc_base::FieldId;
use plc_lang::{Prim, Var, assigned, risked};
use plc_mem::{Cell, Memory};
use plc_moves::Place;

/// A step of a thread that races at one of its primitives, and memory as it was before the step.
#[derive(Clone, Copy)]
pub struct Seen<'a> {
    pub memory: &'a Memory,
    pub t: u32,
    pub prims: &'a [Prim],
    pub prim: u16,
}

impl Seen<'_> {
    /// The pointers that the race may be about.
    pub fn racing_pointers(&self) -> (Option<Var>, Option<Var>) {
        match self.prims.get(self.prim as usize) {
            Some(prim) => risked(prim),
            None => (None, None),
        }
    }

    /// What a pointer holds before the step.
    fn value(&self, var: Var) -> Option<Cell> {
        let place = match var {
            Var::Shared(i) => Place::Shared(i),
            Var::Local(v) => Place::Local { t: self.t, v },
        };
        self.memory.cell(&place)
    }

    /// What a field of the node of a pointer holds before the step.
    fn loaded(&self, var: Var, f: FieldId) -> Option<Cell> {
        let cell = self.value(var)?;
        self.memory.cell(&Place::Cell { a: cell.number, f })
    }

    /// What a primitive of the step before the race gives to the pointer that it assigns, if it copies or loads it.
    fn given(&self, prim: &Prim) -> Option<Cell> {
        match *prim {
            Prim::Copy { q, .. }
            | Prim::Mark { q, .. }
            | Prim::Unmark { q, .. }
            | Prim::Refresh { q, .. } => self.value(q),
            Prim::Load { q, f, .. } | Prim::RefreshLoad { q, f, .. } => self.loaded(q, f),
            _ => None,
        }
    }

    /// What a pointer holds before the racing primitive, if it can be told.
    pub fn value_before(&self, var: Var) -> Option<Cell> {
        let mut held = self.value(var);
        for prim in self.prims.iter().take(self.prim as usize) {
            if assigned(prim) == Some(var) {
                held = self.given(prim);
            }
        }
        held
    }
}
