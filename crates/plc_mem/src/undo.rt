// Taking primitives back, so that a step of several works on the memory itself, by the work of its primitives alone:
// each notes what stood where it writes, its mark and validity too, and where a later one is blocked, is a race, or
// memory runs out, the notes are read from the last to the first. A copy of the memory for each step, tried before,
// took a time by the nodes that there are.
ghost use Rattle.std.specs.Prelude.{◌≡◌, ℕ, IfOk, OnOk, OnErr, Some};
ghost use Rattle.plc_lang.specs.Shape.{PrimitiveIn};
ghost use Rattle.plc_base.specs.Functions.{is_retire};
ghost use Rattle.plc_mem.specs.State.{State, Locals, with_locals};
ghost use Rattle.plc_mem.specs.Outcomes.{outcome_of, next_of, address_or_null, Stays};
ghost use Rattle.plc_mem.specs.Fit.{shape, Kept};
ghost use Rattle.plc_mem.specs.Undoing.{undo_of, undo_of_write, undo_of_store, undo_of_data_store};
ghost use Rattle.plc_mem.specs.Undoing.{undo_of_set, undo_of_call, undone, UndoFits, UndosFit, TakesBack};

use crate::cell::{Cell, Outcome};
use crate::locals::Locals;
use crate::memory::Memory;
use plc_base::{FieldId, FuncId, NoMemory};
use plc_lang::{Arg, Prim, Var};

/// What takes a primitive back that one thread took.
#[derive(Clone, Copy)]
pub enum Undo {
    /// It changed nothing.
    Nothing,
    /// This variable held this cell.
    Pointer { p: Var, was: Cell },
    /// This field of the node at this address held this cell.
    Field { a: u32, f: FieldId, was: Cell },
    /// This data local had this number.
    Value { x: u16, was: u32 },
    /// This data field of the node at this address had this number.
    FieldValue { a: u32, f: FieldId, was: u32 },
    /// A node was made, and the variable that points to it held this cell.
    Made { p: Var, was: Cell },
    /// An address was retired.
    Retired,
}

impl Memory {
    /// One primitive of thread `t`, as `apply` takes it. Where it succeeds, what takes it back is put after `undos`;
    /// after `Blocked`, `Race`, and where memory runs out, all three are as they were.
    pub fn apply_undoably(
        &mut self,
        prim: &Prim,
        me: &mut Locals,
        undos: &mut Vec<Undo>,
        t: u32,
        addr: Option<u32>,
    ) -> Result<Outcome, NoMemory>
        requires { PrimitiveIn (shape self.old me.old) prim.now }
        ensures outcome { IfOk result (λ o. o
            ≡ outcome_of (with_locals self.old t (Some me.old)) t (address_or_null addr) prim.now) }
        ensures next { OnOk result (with_locals self.new t (Some me.new)
            ≡ next_of (with_locals self.old t (Some me.old)) t (address_or_null addr) prim.now) }
        ensures kept { Kept self.old me.old self.new me.new }
        ensures undoable { (s : State) (l : Locals) → TakesBack t s l undos.old.items self.old me.old
            → TakesBack t s l undos.new.items self.new me.new }
        ensures unchanged { IfOk result (λ o. Stays o
            → (self.new ≡ self.old) × (me.new ≡ me.old) × (undos.new.items ≡ undos.old.items)) }
        ensures err { OnErr result ((self.new ≡ self.old) × (me.new ≡ me.old) × (undos.new.items ≡ undos.old.items)) }
    {
        self.nodes_fit();
        let undo = self.undo_of(prim, me);
        undos.reserve(1)?;
        match self.apply(prim, me, t, addr)? {
            Outcome::Next(event) => {
                undos.push(undo)?;
                Ok(Outcome::Next(event))
            }
            Outcome::Blocked => Ok(Outcome::Blocked),
            Outcome::Race(kind) => Ok(Outcome::Race(kind)),
        }
    }

    /// Takes all that a thread took back, the last first: the memory and its locals are as they were before.
    pub fn undo_all(&mut self, me: &mut Locals, undos: &mut Vec<Undo>)
        requires { UndosFit (shape self.old me.old) undos.old.items }
        ensures back { (t : ℕ) (s : State) (l : Locals) → TakesBack t s l undos.old.items self.old me.old
            → (self.new ≡ s) × (me.new ≡ l) }
        ensures kept { Kept self.old me.old self.new me.new }
    {
        while let Some(undo) = undos.pop() {
            self.undo(me, undo);
        }
    }

    /// Takes one primitive back.
    fn undo(&mut self, me: &mut Locals, undo: Undo)
        requires { UndoFits (shape self.old me.old) undo }
        ensures undone { (t : ℕ) → with_locals self.new t (Some me.new)
            ≡ undone (with_locals self.old t (Some me.old)) t undo }
        ensures kept { Kept self.old me.old self.new me.new }
    {
        match undo {
            Undo::Nothing => {}
            Undo::Pointer { p, was } => self.write(me, p, was),
            Undo::Field { a, f, was } => self.set_field(a, f, was),
            Undo::Value { x, was } => me.set_value(x, was),
            Undo::FieldValue { a, f, was } => self.set_field_value(a, f, was),
            Undo::Made { p, was } => {
                self.write(me, p, was);
                self.remove_last_node();
            }
            Undo::Retired => self.remove_last_retired(),
        }
    }

    /// What would take a primitive back that succeeded now.
    fn undo_of(&self, prim: &Prim, me: &Locals) -> Undo
        ensures { (t : ℕ) → result ≡ undo_of (with_locals self.now t (Some me.now)) t prim.now }
    {
        match *prim {
            Prim::Null { p } => self.undo_of_write(me, p),
            Prim::Copy { p, .. } => self.undo_of_write(me, p),
            Prim::New { p } => Undo::Made {
                p,
                was: self.read(me, p),
            },
            Prim::Load { p, .. } => self.undo_of_write(me, p),
            Prim::Store { p, f, .. } => self.undo_of_store(me, p, f),
            Prim::StoreNull { p, f } => self.undo_of_store(me, p, f),
            Prim::DataSet { x, .. } => undo_of_set(me, x),
            Prim::DataLoad { x, .. } => undo_of_set(me, x),
            Prim::DataStore { p, f, .. } => self.undo_of_data_store(me, p, f),
            Prim::Eq { .. } => Undo::Nothing,
            Prim::Ne { .. } => Undo::Nothing,
            Prim::IsNull { .. } => Undo::Nothing,
            Prim::NotNull { .. } => Undo::Nothing,
            Prim::DataTest { .. } => Undo::Nothing,
            Prim::Refresh { p, .. } => self.undo_of_write(me, Var::Local(p)),
            Prim::RefreshLoad { p, .. } => self.undo_of_write(me, Var::Local(p)),
            Prim::RefreshStore { p, f, .. } => self.undo_of_store(me, p, f),
            Prim::Mark { p, .. } => self.undo_of_write(me, p),
            Prim::Unmark { p, .. } => self.undo_of_write(me, p),
            Prim::MarkTest { .. } => Undo::Nothing,
            Prim::Call { func, arg } => undo_of_call(func, arg),
            Prim::Done { .. } => Undo::Nothing,
            Prim::Active { .. } => Undo::Nothing,
            Prim::Ghost { .. } => Undo::Nothing,
        }
    }

    /// What takes a write to a variable back.
    fn undo_of_write(&self, me: &Locals, p: Var) -> Undo
        ensures { (t : ℕ) → result ≡ undo_of_write (with_locals self.now t (Some me.now)) t p }
    {
        Undo::Pointer {
            p,
            was: self.read(me, p),
        }
    }

    /// What takes a write to a field of the node back that a variable leads to.
    fn undo_of_store(&self, me: &Locals, p: Var, f: FieldId) -> Undo
        ensures { (t : ℕ) → result ≡ undo_of_store (with_locals self.now t (Some me.now)) t p f }
    {
        let a = self.read(me, p).number;
        Undo::Field {
            a,
            f,
            was: self.field(a, f),
        }
    }

    /// What takes a write to a data field of the node back that a variable leads to.
    fn undo_of_data_store(&self, me: &Locals, p: Var, f: FieldId) -> Undo
        ensures { (t : ℕ) → result ≡ undo_of_data_store (with_locals self.now t (Some me.now)) t p f }
    {
        let a = self.read(me, p).number;
        Undo::FieldValue {
            a,
            f,
            was: self.field_value(a, f),
        }
    }
}

/// What takes a write to a data local back.
fn undo_of_set(me: &Locals, x: u16) -> Undo
    ensures { (s : State) (t : ℕ) → result ≡ undo_of_set (with_locals s t (Some me.now)) t x }
{
    Undo::Value {
        x,
        was: me.value(x),
    }
}

/// What takes a call back.
fn undo_of_call(func: FuncId, arg: Arg) -> Undo
    ensures { result ≡ undo_of_call (is_retire func) arg }
{
    if !func.is_retire() {
        return Undo::Nothing;
    }
    match arg {
        Arg::Var(_) => Undo::Retired,
        Arg::Null => Undo::Nothing,
        Arg::None => Undo::Nothing,
    }
}
