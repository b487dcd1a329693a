// One primitive, column by column of the table: where it isn't blocked, and what it changes. The second
// takes its memory before it changes anything.
ghost use Rattle.std.specs.Prelude.{◌≡◌, ◌+◌, ◌<◌, ◌^◌, length, false, if◌then◌else◌, IfOk, OnOk, OnErr};
ghost use Rattle.plc_base.specs.Functions.{is_retire};
ghost use Rattle.plc_lang.specs.Allocation.{is_new};
ghost use Rattle.plc_lang.specs.Shape.{VarIn, ArgIn};
ghost use Rattle.plc_gc.specs.State.{number_of, count, made, put, put_pointer, update, update_pointer, slot};
ghost use Rattle.plc_gc.specs.Primitives.{node_at, mark_at, field_at, field_mark_at, same_pointer, some_node};
ghost use Rattle.plc_gc.specs.Primitives.{is_marked, ghost_number, goes, goes_call, after, after_call};
ghost use Rattle.plc_gc.specs.Claims.{claim_holds};
ghost use Rattle.plc_gc.specs.Ranges.{IsInRange};
ghost use Rattle.plc_gc.specs.Fit.{MapIn, IsHeld, frame, FrameHas};

use crate::slot::{Map, Slot, mark_slot_of, slot_of};
use crate::state::State;
use plc_base::{FieldId, FuncId, NoMemory};
use plc_lang::{Arg, GhostVal, Num, Prim, Var, compares};

/// What a `ghost` write puts into an auxiliary field: a value, or a thread by its number and one more.
fn ghost_number(t: u32, v: GhostVal) -> u32
    requires { t + 1 < 2 ^ 32 }
    ensures { result ≡ ghost_number t v }
{
    match v {
        GhostVal::Value(k) => k as u32,
        GhostVal::Me => t + 1,
        GhostVal::None => 0,
    }
}

impl State {
    /// The node that a variable of a thread leads to.
    pub fn node(&self, t: u32, v: Var) -> u32
        ensures { result ≡ node_at self.now t v }
    {
        self.value(slot_of(t, v))
    }

    /// The mark of a variable of a thread.
    fn mark(&self, t: u32, v: Var) -> u32
        ensures { result ≡ mark_at self.now t v }
    {
        self.value(mark_slot_of(t, v))
    }

    /// Whether a variable is marked.
    fn is_marked(&self, t: u32, v: Var) -> bool
        ensures { result ≡ is_marked self.now t v }
    {
        self.mark(t, v) == 1
    }

    /// Whether two variables have one node and one mark.
    fn same_pointer(&self, t: u32, p: Var, q: Var) -> bool
        ensures { result ≡ same_pointer self.now t p q }
    {
        self.node(t, p) == self.node(t, q) && self.mark(t, p) == self.mark(t, q)
    }

    /// Whether a variable isn't null.
    fn some_node(&self, t: u32, v: Var) -> bool
        ensures { result ≡ some_node self.now t v }
    {
        self.node(t, v) != 0
    }

    /// The node in a pointer field of the node that a variable leads to.
    fn field_at(&self, t: u32, v: Var, f: FieldId) -> u32
        ensures { result ≡ field_at self.now t v f.0 }
    {
        self.entry(Map::Pointer(f.0), self.node(t, v))
    }

    /// The mark of a pointer field of the node that a variable leads to.
    fn field_mark_at(&self, t: u32, v: Var, f: FieldId) -> u32
        ensures { result ≡ field_mark_at self.now t v f.0 }
    {
        self.entry(Map::Mark(f.0), self.node(t, v))
    }

    /// The number that is put into data.
    fn number(&self, t: u32, e: Num) -> u32
        ensures { result ≡ number_of self.now t e }
    {
        match e {
            Num::Lit(n) => n,
            Num::Local(x) => self.value(Slot::Data { t, x }),
        }
    }

    /// Whether a primitive isn't blocked.
    pub fn goes(&self, t: u32, prim: &Prim) -> bool
        ensures { result ≡ goes self.now t prim.now }
    {
        match *prim {
            Prim::Null { .. } => true,
            Prim::Copy { .. } => true,
            Prim::New { .. } => true,
            Prim::Load { q, .. } => self.some_node(t, q),
            Prim::Store { p, .. } => self.some_node(t, p),
            Prim::StoreNull { p, .. } => self.some_node(t, p),
            Prim::DataSet { .. } => true,
            Prim::DataLoad { q, .. } => self.some_node(t, q),
            Prim::DataStore { p, .. } => self.some_node(t, p),
            Prim::Eq { p, q } => self.same_pointer(t, p, q),
            Prim::Ne { p, q } => !self.same_pointer(t, p, q),
            Prim::IsNull { p } => self.node(t, p) == 0,
            Prim::NotNull { p } => self.some_node(t, p),
            Prim::DataTest { rel, x, e } => {
                compares(rel, self.value(Slot::Data { t, x }), self.number(t, e))
            }
            Prim::Refresh { .. } => true,
            Prim::RefreshLoad { q, .. } => self.some_node(t, q),
            Prim::RefreshStore { p, .. } => self.some_node(t, p),
            Prim::Mark { .. } => true,
            Prim::Unmark { .. } => true,
            Prim::MarkTest { p, yes: true } => self.is_marked(t, p),
            Prim::MarkTest { p, yes: false } => !self.is_marked(t, p),
            Prim::Call { func, arg } => self.goes_call(t, func, arg),
            Prim::Done { .. } => true,
            Prim::Active { .. } => true,
            Prim::Ghost { .. } => true,
        }
    }

    /// Whether a call isn't blocked.
    fn goes_call(&self, t: u32, func: FuncId, arg: Arg) -> bool
        ensures { result ≡ goes_call self.now t (is_retire func) arg }
    {
        if !func.is_retire() {
            return true;
        }
        match arg {
            Arg::Var(p) => self.some_node(t, p),
            Arg::Null => true,
            Arg::None => true,
        }
    }

    /// Puts a node and a mark into a variable of a thread.
    fn write(&mut self, t: u32, p: Var, node: u32, mark: u32)
        requires { VarIn (frame self.old t).shape p }
        ensures { self.new ≡ put_pointer self.old t p node mark }
    {
        self.put(mark_slot_of(t, p), mark);
        self.put(slot_of(t, p), node);
    }

    /// Puts a node and a mark into a pointer field of the node that a variable of a thread leads to.
    fn write_field(&mut self, t: u32, p: Var, f: FieldId, node: u32, mark: u32)
        requires ranges { IsInRange self.old }
        requires there { f.0 < length self.old.fields }
        ensures { self.new ≡ update_pointer self.old f.0 (node_at self.old t p) node mark }
    {
        let at = self.node(t, p);
        self.update(Map::Mark(f.0), at, mark);
        self.update(Map::Pointer(f.0), at, node);
    }

    /// Changes a map at the node that a variable of a thread leads to.
    fn change_at(&mut self, t: u32, p: Var, map: Map, n: u32)
        requires ranges { IsInRange self.old }
        requires var { VarIn (frame self.old t).shape p }
        requires there { MapIn self.old map }
        ensures { self.new ≡ update self.old map (node_at self.old t p) n }
    {
        self.update(map, self.node(t, p), n);
    }

    /// A variable of a thread comes to hold what a field holds of the node that another one leads to.
    fn load(&mut self, t: u32, p: Var, q: Var, f: FieldId)
        requires { VarIn (frame self.old t).shape p }
        ensures { self.new
            ≡ put_pointer self.old t p (field_at self.old t q f.0) (field_mark_at self.old t q f.0) }
    {
        let node = self.field_at(t, q, f);
        let mark = self.field_mark_at(t, q, f);
        self.write(t, p, node, mark);
    }

    /// A node that is made, and to which a variable of a thread leads then.
    fn change_by_new(&mut self, t: u32, p: Var) -> Result<(), NoMemory>
        requires { VarIn (frame self.old t).shape p }
        ensures after { OnOk result (self.new ≡ put_pointer (made self.old) t p (count self.old) 0) }
        ensures err { OnErr result (self.new ≡ self.old) }
    {
        let node = self.make()?;
        self.write(t, p, node, 0);
        Ok(())
    }

    /// What a call changes.
    fn change_by_call(&mut self, t: u32, func: FuncId, arg: Arg)
        requires ranges { IsInRange self.old }
        requires there { ArgIn (frame self.old t).shape arg }
        ensures { self.new ≡ after_call self.old t (is_retire func) arg }
    {
        if !func.is_retire() {
            return;
        }
        match arg {
            Arg::Var(p) => self.change_at(t, p, Map::Retirement, 1),
            Arg::Null => {}
            Arg::None => {}
        }
    }

    /// What a primitive changes.
    pub fn change(&mut self, t: u32, prim: &Prim) -> Result<(), NoMemory>
        requires small { t + 1 < 2 ^ 32 }
        requires there { FrameHas (frame self.old t) prim.now }
        requires ranges { IsInRange self.old }
        ensures after { OnOk result (self.new ≡ after self.old t prim.now) }
        ensures err { OnErr result (self.new ≡ self.old) }
    {
        match *prim {
            Prim::New { p } => self.change_by_new(t, p),
            _ => {
                self.change_in_place(t, prim);
                Ok(())
            }
        }
    }

    /// What a primitive changes that makes no node.
    fn change_in_place(&mut self, t: u32, prim: &Prim)
        requires small { t + 1 < 2 ^ 32 }
        requires there { FrameHas (frame self.old t) prim.now }
        requires ranges { IsInRange self.old }
        requires in_place { is_new prim.now ≡ false }
        ensures { self.new ≡ after self.old t prim.now }
    {
        match *prim {
            Prim::Null { p } => self.write(t, p, 0, 0),
            Prim::Copy { p, q } => self.write(t, p, self.node(t, q), self.mark(t, q)),
            Prim::Load { p, q, f } => self.load(t, p, q, f),
            Prim::Store { p, f, q } => self.write_field(t, p, f, self.node(t, q), self.mark(t, q)),
            Prim::StoreNull { p, f } => self.write_field(t, p, f, 0, 0),
            Prim::DataSet { x, e } => self.put(Slot::Data { t, x }, self.number(t, e)),
            Prim::DataLoad { x, q, f } => {
                let n = self.entry(Map::Number(f.0), self.node(t, q));
                self.put(Slot::Data { t, x }, n);
            }
            Prim::DataStore { p, f, e } => {
                self.change_at(t, p, Map::Number(f.0), self.number(t, e));
            }
            Prim::Refresh { p, q } => self.write(
                t,
                Var::Local(p),
                self.node(t, q),
                self.mark(t, q),
            ),
            Prim::RefreshLoad { p, q, f } => self.load(t, Var::Local(p), q, f),
            Prim::RefreshStore { p, f, q } => {
                self.write_field(t, p, f, self.node(t, q), self.mark(t, q));
            }
            Prim::Mark { p, q } => self.write(t, p, self.node(t, q), 1),
            Prim::Unmark { p, q } => self.write(t, p, self.node(t, q), 0),
            Prim::Call { func, arg } => self.change_by_call(t, func, arg),
            Prim::Ghost { p, g, v } => {
                self.change_at(t, p, Map::Auxiliary(g), ghost_number(t, v));
            }
            _ => {}
        }
    }

    /// Takes one primitive unless it is blocked, and says whether it was taken.
    pub fn apply(&mut self, t: u32, prim: &Prim) -> Result<bool, NoMemory>
        requires small { t + 1 < 2 ^ 32 }
        requires held { IsHeld self.old t }
        requires there { FrameHas (frame self.old t) prim.now }
        requires ranges { IsInRange self.old }
        ensures goes { IfOk result (λ went. went ≡ goes self.old t prim.now) }
        ensures next { OnOk result (self.new
            ≡ (if goes self.old t prim.now then after self.old t prim.now else self.old)) }
        ensures held { OnOk result (IsHeld self.new t) }
        ensures frame { OnOk result (frame self.new t ≡ frame self.old t) }
        ensures ranges { OnOk result (IsInRange self.new) }
        ensures err { OnErr result (self.new ≡ self.old) }
    {
        if !self.goes(t, prim) {
            return Ok(false);
        }
        self.change(t, prim)?;
        Ok(true)
    }

    /// The truth of the claim of a primitive; true where it is no claim.
    pub fn claim_holds(&self, t: u32, prim: &Prim) -> bool
        ensures { result ≡ claim_holds self.now t prim.now }
    {
        match *prim {
            Prim::Active { p } => self.node(t, p) == 0 || !self.is_retired(self.node(t, p)),
            _ => true,
        }
    }
}
