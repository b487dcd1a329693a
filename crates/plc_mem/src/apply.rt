// One primitive, column by column of the table: where it is a race, where it is blocked, its event,
// what it changes. The first three only read, and the last takes its memory before it changes
// anything, so that a race, a blocked primitive and running out of memory leave all as it was.
ghost use Rattle.std.specs.Prelude.{◌≡◌, ℕ, ◌<◌, true, false, length, IfOk, OnOk, OnErr, Some};
ghost use Rattle.plc_lang.specs.Shape.{PrimitiveIn, VarIn};
ghost use Rattle.plc_base.specs.Functions.{is_retire};
ghost use Rattle.plc_mem.specs.State.{with_locals, put, place, at_field, marked_cell};
ghost use Rattle.plc_mem.specs.Primitives.{race_of, race_of_call, retirement, goes, goes_call, after, after_call};
ghost use Rattle.plc_mem.specs.Primitives.{address_of, event_of, cell_at, field_at};
ghost use Rattle.plc_mem.specs.Access.{takes_memory};
ghost use Rattle.plc_mem.specs.Outcomes.{outcome_of, next_of, address_or_null, Stays};
ghost use Rattle.plc_mem.specs.Fit.{shape, Kept};
ghost use Rattle.plc_mem.specs.Coherence.{IsCoherent};

use crate::cell::{Cell, Outcome, RaceKind};
use crate::locals::Locals;
use crate::memory::Memory;
use plc_auto::Event;
use plc_base::{FieldId, FuncId, NoMemory, same_bool};
use plc_lang::{Arg, Prim, Var, compares};

impl Memory {
    /// One primitive of thread `t`, which lends its locals; `addr` is the address that a `new` takes,
    /// and isn't read at other primitives. After `Blocked`, `Race`, and where memory runs out, all is as it was.
    pub fn apply(
        &mut self,
        prim: &Prim,
        me: &mut Locals,
        t: u32,
        addr: Option<u32>,
    ) -> Result<Outcome, NoMemory>
        requires { PrimitiveIn (shape self.old me.old) prim.now }
        ensures outcome { IfOk result (λ o. o
            ≡ outcome_of (with_locals self.old t (Some me.old)) t (address_or_null addr) prim.now) }
        ensures next { OnOk result (with_locals self.new t (Some me.new)
            ≡ next_of (with_locals self.old t (Some me.old)) t (address_or_null addr) prim.now) }
        ensures kept { Kept self.old me.old self.new me.new }
        ensures coherent { IsCoherent (with_locals self.old t (Some me.old))
            → IsCoherent (with_locals self.new t (Some me.new)) }
        ensures unchanged { IfOk result (λ o. Stays o → (self.new ≡ self.old) × (me.new ≡ me.old)) }
        ensures err { OnErr result ((self.new ≡ self.old) × (me.new ≡ me.old)) }
    {
        match self.outcome(prim, me, t, addr) {
            Outcome::Next(event) => {
                self.change(me, prim, addr.unwrap_or(0))?;
                Ok(Outcome::Next(event))
            }
            Outcome::Blocked => Ok(Outcome::Blocked),
            Outcome::Race(kind) => Ok(Outcome::Race(kind)),
        }
    }

    /// What `apply` would answer, memory aside. It changes nothing.
    pub fn outcome(&self, prim: &Prim, me: &Locals, t: u32, addr: Option<u32>) -> Outcome
        ensures { result ≡ outcome_of (with_locals self.now t (Some me.now)) t (address_or_null addr) prim.now }
    {
        if let Some(kind) = self.race(me, prim) {
            return Outcome::Race(kind);
        }
        if !self.goes(me, prim, addr.unwrap_or(0)) {
            return Outcome::Blocked;
        }
        Outcome::Next(self.event(me, prim, t))
    }

    /// The race of a primitive, if it is one.
    fn race(&self, me: &Locals, prim: &Prim) -> Option<RaceKind>
        ensures { (t : ℕ) → result ≡ race_of (with_locals self.now t (Some me.now)) t prim.now }
    {
        match *prim {
            Prim::Null { .. } => None,
            Prim::Copy { .. } => None,
            Prim::New { .. } => None,
            Prim::Load { q, .. } => self.read(me, q).access(),
            Prim::Store { p, .. } => self.read(me, p).access(),
            Prim::StoreNull { p, .. } => self.read(me, p).access(),
            Prim::DataSet { .. } => None,
            Prim::DataLoad { q, .. } => self.read(me, q).access(),
            Prim::DataStore { p, .. } => self.read(me, p).access(),
            Prim::Eq { p, q } => self.read(me, p).comparison(self.read(me, q)),
            Prim::Ne { p, q } => self.read(me, p).comparison(self.read(me, q)),
            Prim::IsNull { .. } => None,
            Prim::NotNull { .. } => None,
            Prim::DataTest { .. } => None,
            Prim::Refresh { .. } => None,
            Prim::RefreshLoad { q, .. } => self.read(me, q).access(),
            Prim::RefreshStore { p, .. } => self.read(me, p).access(),
            Prim::Mark { .. } => None,
            Prim::Unmark { .. } => None,
            Prim::MarkTest { .. } => None,
            Prim::Call { func, arg } => self.race_of_call(me, func, arg),
            Prim::Done { .. } => None,
            Prim::Active { .. } => None,
            Prim::Ghost { .. } => None,
        }
    }

    /// The race of a call.
    fn race_of_call(&self, me: &Locals, func: FuncId, arg: Arg) -> Option<RaceKind>
        ensures { (t : ℕ) → result ≡ race_of_call (with_locals self.now t (Some me.now)) t (is_retire func) arg }
    {
        if !func.is_retire() {
            return None;
        }
        match arg {
            Arg::Var(p) => self.retirement(self.read(me, p)),
            Arg::Null => None,
            Arg::None => None,
        }
    }

    /// The race of a retirement.
    fn retirement(&self, c: Cell) -> Option<RaceKind>
        ensures { result ≡ retirement self.now c }
    {
        if !c.valid {
            return Some(RaceKind::Pass);
        }
        if self.retired(c.number) {
            Some(RaceKind::Double)
        } else {
            None
        }
    }

    /// Whether a primitive isn't blocked.
    fn goes(&self, me: &Locals, prim: &Prim, a: u32) -> bool
        ensures { (t : ℕ) → result ≡ goes (with_locals self.now t (Some me.now)) t a prim.now }
    {
        match *prim {
            Prim::Null { .. } => true,
            Prim::Copy { .. } => true,
            Prim::New { .. } => a != 0 && !self.used(a),
            Prim::Load { q, .. } => !self.read(me, q).is_null(),
            Prim::Store { p, .. } => !self.read(me, p).is_null(),
            Prim::StoreNull { p, .. } => !self.read(me, p).is_null(),
            Prim::DataSet { .. } => true,
            Prim::DataLoad { q, .. } => !self.read(me, q).is_null(),
            Prim::DataStore { p, .. } => !self.read(me, p).is_null(),
            Prim::Eq { p, q } => self.read(me, p).same_pointer(self.read(me, q)),
            Prim::Ne { p, q } => !self.read(me, p).same_pointer(self.read(me, q)),
            Prim::IsNull { p } => self.read(me, p).is_null(),
            Prim::NotNull { p } => !self.read(me, p).is_null(),
            Prim::DataTest { rel, x, e } => compares(rel, me.value(x), me.number(e)),
            Prim::Refresh { p, q } => {
                self.read(me, Var::Local(p)).same_pointer(self.read(me, q))
            }
            Prim::RefreshLoad { p, q, f } => {
                let from = self.read(me, q);
                let cell = self.field(from.number, f);
                let same = self.read(me, Var::Local(p)).same_pointer(cell);
                !from.is_null() && same
            }
            Prim::RefreshStore { p, f, q } => {
                let to = self.read(me, p);
                let cell = self.field(to.number, f);
                let same = cell.same_pointer(self.read(me, q));
                !to.is_null() && same
            }
            Prim::Mark { .. } => true,
            Prim::Unmark { .. } => true,
            Prim::MarkTest { p, yes } => same_bool(self.read(me, p).mark, yes),
            Prim::Call { func, arg } => self.goes_call(me, func, arg),
            Prim::Done { .. } => true,
            Prim::Active { .. } => true,
            Prim::Ghost { .. } => true,
        }
    }

    /// Whether a call isn't blocked.
    fn goes_call(&self, me: &Locals, func: FuncId, arg: Arg) -> bool
        ensures { (t : ℕ) → result ≡ goes_call (with_locals self.now t (Some me.now)) t (is_retire func) arg }
    {
        if !func.is_retire() {
            return true;
        }
        match arg {
            Arg::Var(p) => !self.read(me, p).is_null(),
            Arg::Null => true,
            Arg::None => true,
        }
    }

    /// The address that a call hands over.
    fn address(&self, me: &Locals, arg: Arg) -> Option<u32>
        ensures { (t : ℕ) → result ≡ address_of (with_locals self.now t (Some me.now)) t arg }
    {
        match arg {
            Arg::Var(p) => Some(self.read(me, p).number),
            Arg::Null => Some(0),
            Arg::None => None,
        }
    }

    /// The event of a primitive, if it has one.
    fn event(&self, me: &Locals, prim: &Prim, t: u32) -> Option<Event>
        ensures { result ≡ event_of (with_locals self.now t (Some me.now)) t prim.now }
    {
        match *prim {
            Prim::Call { func, arg } => Some(Event::Call {
                t,
                f: func,
                a: self.address(me, arg),
            }),
            Prim::Done { func } => Some(Event::Done { t, f: func }),
            _ => None,
        }
    }

    /// What a primitive changes.
    fn change(&mut self, me: &mut Locals, prim: &Prim, a: u32) -> Result<(), NoMemory>
        requires named { PrimitiveIn (shape self.old me.old) prim.now }
        requires goes { (t : ℕ) × (goes (with_locals self.old t (Some me.old)) t a prim.now ≡ true) }
        ensures after { OnOk result ((t : ℕ) → with_locals self.new t (Some me.new)
            ≡ after (with_locals self.old t (Some me.old)) t a prim.now) }
        ensures kept { Kept self.old me.old self.new me.new }
        ensures err { OnErr result ((self.new ≡ self.old) × (me.new ≡ me.old)) }
    {
        match *prim {
            Prim::New { p } => {
                self.add_node(a)?;
                self.write(me, p, Cell::fresh(a));
                Ok(())
            }
            Prim::Call { func, arg } => self.change_by_call(me, func, arg),
            _ => {
                self.change_in_place(me, prim);
                Ok(())
            }
        }
    }

    /// What a primitive changes that takes no memory.
    fn change_in_place(&mut self, me: &mut Locals, prim: &Prim)
        requires named { PrimitiveIn (shape self.old me.old) prim.now }
        requires in_place { takes_memory prim.now ≡ false }
        ensures after { (t a : ℕ) → with_locals self.new t (Some me.new)
            ≡ after (with_locals self.old t (Some me.old)) t a prim.now }
        ensures kept { Kept self.old me.old self.new me.new }
    {
        match *prim {
            Prim::Null { p } => self.write(me, p, Cell::null()),
            Prim::Copy { p, q } => self.copy_pointer(me, p, q),
            Prim::Load { p, q, f } => self.load(me, p, q, f),
            Prim::Store { p, f, q } => self.store(me, p, f, self.read(me, q)),
            Prim::StoreNull { p, f } => self.store(me, p, f, Cell::null()),
            Prim::DataSet { x, e } => me.set_value(x, me.number(e)),
            Prim::DataLoad { x, q, f } => {
                let n = self.field_value(self.read(me, q).number, f);
                me.set_value(x, n);
            }
            Prim::DataStore { p, f, e } => {
                self.set_field_value(self.read(me, p).number, f, me.number(e));
            }
            Prim::Refresh { p, q } => self.copy_pointer(me, Var::Local(p), q),
            Prim::RefreshLoad { p, q, f } => self.load(me, Var::Local(p), q, f),
            Prim::RefreshStore { p, f, q } => self.store(me, p, f, self.read(me, q)),
            Prim::Mark { p, q } => self.mark_pointer(me, p, q, true),
            Prim::Unmark { p, q } => self.mark_pointer(me, p, q, false),
            _ => {}
        }
    }

    /// A variable comes to hold what another one holds.
    fn copy_pointer(&mut self, me: &mut Locals, p: Var, q: Var)
        requires { VarIn (shape self.old me.old) p }
        ensures after { (t : ℕ) → with_locals self.new t (Some me.new)
            ≡ (let s = with_locals self.old t (Some me.old) in put s (place t p) (cell_at s t q)) }
        ensures kept { Kept self.old me.old self.new me.new }
    {
        let c = self.read(me, q);
        self.write(me, p, c);
    }

    /// A variable comes to hold what another one holds, with this mark.
    fn mark_pointer(&mut self, me: &mut Locals, p: Var, q: Var, mark: bool)
        requires { VarIn (shape self.old me.old) p }
        ensures after { (t : ℕ) → with_locals self.new t (Some me.new)
            ≡ (let s = with_locals self.old t (Some me.old) in put s (place t p) (marked_cell mark (cell_at s t q))) }
        ensures kept { Kept self.old me.old self.new me.new }
    {
        let c = self.read(me, q);
        self.write(me, p, c.marked(mark));
    }

    /// A variable comes to hold what a field holds of the node that another one leads to.
    fn load(&mut self, me: &mut Locals, p: Var, q: Var, f: FieldId)
        requires { VarIn (shape self.old me.old) p }
        ensures after { (t : ℕ) → with_locals self.new t (Some me.new)
            ≡ (let s = with_locals self.old t (Some me.old) in put s (place t p) (field_at s t q f.0)) }
        ensures kept { Kept self.old me.old self.new me.new }
    {
        let c = self.field(self.read(me, q).number, f);
        self.write(me, p, c);
    }

    /// A field of the node that a variable leads to comes to hold a cell.
    fn store(&mut self, me: &Locals, p: Var, f: FieldId, c: Cell)
        requires { f.0 < length self.old.fields }
        ensures after { (t : ℕ) → with_locals self.new t (Some me.now)
            ≡ (let s = with_locals self.old t (Some me.now) in put s (at_field (cell_at s t p).number f.0) c) }
        ensures kept { Kept self.old me.now self.new me.now }
    {
        self.set_field(self.read(me, p).number, f, c);
    }

    /// What a call changes.
    fn change_by_call(&mut self, me: &Locals, func: FuncId, arg: Arg) -> Result<(), NoMemory>
        ensures after { OnOk result ((t : ℕ) → with_locals self.new t (Some me.now)
            ≡ after_call (with_locals self.old t (Some me.now)) t (is_retire func) arg) }
        ensures kept { Kept self.old me.now self.new me.now }
        ensures err { OnErr result (self.new ≡ self.old) }
    {
        if !func.is_retire() {
            return Ok(());
        }
        match arg {
            Arg::Var(p) => {
                let a = self.read(me, p).number;
                self.retire(a)?;
                Ok(())
            }
            Arg::Null => Ok(()),
            Arg::None => Ok(()),
        }
    }
}
