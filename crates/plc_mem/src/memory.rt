// The memory that programs run on. What it is seen as is the state of the definitions, whatever index
// its nodes have, and every read is total, so that nothing here rests on how an address came to be used.
ghost use Rattle.std.specs.Prelude.{◌≡◌, ℕ, ◌<◌, ◌==◌, not, length, get_or, slice_set, filter, map, false};
ghost use Rattle.std.specs.Prelude.{if◌then◌else◌, is_ok, IfOk, IfSome, Some, None};
ghost use Rattle.std.specs.Option.{option_copied};
ghost use Rattle.plc_lang.specs.Shape.{VarIn};
ghost use Rattle.plc_lang.specs.Fields.{is_pointer_field};
ghost use Rattle.plc_mem.specs.State.{State, at, put, at_shared, at_local, at_field, place, field_value};
ghost use Rattle.plc_mem.specs.State.{put_field_value, with_node, with_retired, with_locals, is_used, is_retired};
ghost use Rattle.plc_mem.specs.State.{freed, first_state, fresh_state, cell_of, number_at, valid_at, place_of};
ghost use Rattle.plc_mem.specs.Primitives.{cell_at};
ghost use Rattle.plc_mem.specs.Fit.{shape, NodesFit, Kept, with_entry};
ghost use Rattle.plc_mem.specs.Coherence.{IsCoherent, LocalsCoherent};
ghost use Rattle.plc_mem.specs.Undoing.{without_last_node, without_last_retired};

use crate::cell::Cell;
use crate::cells::{cell_or_null, cut_cells};
use crate::locals::{Locals, cut_threads, local_of};
use crate::node::{Entry, Nodes};
use plc_base::{FieldId, NoMemory};
use plc_flow::Flow;
use plc_lang::{Field, Var};
use plc_moves::{Place, copy_held, entry_or, find_entry, held, none_held};
use std::alloc::Global;
use std::marker::Model;

/// What shared pointers, locals and nodes hold, and which addresses are used and retired.
#[derive(Drop)]
pub struct Memory {
    alloc: Global,
    fields: Vec<bool>,
    shared: Vec<Cell>,
    locals: Vec<Option<Locals>>,
    nodes: Nodes,
    retired: Vec<u32>,
}

impl Model for Memory {
    ghost Value = { State };

    ghost view = { λ m. record {
      fields = m.fields.items;
      shared = m.shared.items;
      locals = m.locals.items;
      nodes = m.nodes;
      retired = m.retired.items;
    } };

    ghost invariant = { λ m. NodesFit (length m.fields.items) m.nodes };
}

/// Which of the fields are pointer fields.
fn kinds(alloc: Global, fields: &[Field]) -> Result<Vec<bool>, NoMemory>
    ensures { IfOk result (λ kinds. kinds.items ≡ map is_pointer_field fields.now) }
{
    let mut kinds = Vec::new(alloc);
    for f in fields {
        kinds.push(f.pointer)?;
    }
    Ok(kinds)
}

/// Takes an address out of a list.
fn drop_address(addresses: &mut Vec<u32>, a: u32)
    ensures { addresses.new.items ≡ filter (λ x. not (x == a)) addresses.old.items }
{
    addresses.retain(|x| *x != a);
}

impl Memory {
    /// The memory of a flow for so many threads, before its `init`: nothing used, shared pointers
    /// null, no locals.
    pub fn new(alloc: Global, flow: &Flow, threads: u32) -> Result<Memory, NoMemory>
        ensures fresh { IfOk result (λ m. m ≡ first_state flow.now threads) }
        ensures coherent { IfOk result (λ m. IsCoherent m) }
    {
        let fields = kinds(alloc, flow.file.fields.as_slice())?;
        Memory::fresh(alloc, fields, flow.file.shared.len(), threads as usize)
    }

    /// Nothing used, shared pointers null, no locals.
    fn fresh(
        alloc: Global,
        fields: Vec<bool>,
        shared: usize,
        threads: usize,
    ) -> Result<Memory, NoMemory>
        ensures { IfOk result (λ m. m ≡ fresh_state fields.items shared threads) }
    {
        let null = Cell::null();
        Ok(Memory {
            alloc,
            fields,
            shared: vec![in alloc; null; shared]?,
            locals: none_held(alloc, threads)?,
            nodes: Nodes::new(alloc),
            retired: Vec::new(alloc),
        })
    }

    /// A copy, equal to this memory.
    pub fn copy(&self) -> Result<Memory, NoMemory>
        ensures { IfOk result (λ m. m ≡ self.now) }
    {
        Ok(Memory {
            alloc: self.alloc,
            fields: self.fields.clone()?,
            shared: self.shared.clone()?,
            locals: copy_held(self.alloc, &self.locals)?,
            nodes: self.nodes.copy(self.alloc)?,
            retired: self.retired.clone()?,
        })
    }

    /// Hands out the locals of a thread, and `None` exactly where none are held.
    pub fn take(&mut self, t: u32) -> Option<Locals>
        ensures taken { result ≡ get_or self.old.locals t None }
        ensures rest { self.new ≡ record self.old { locals = slice_set self.old.locals t None } }
        ensures coherent { IsCoherent self.old → IsCoherent self.new × IfSome result (λ l. LocalsCoherent self.new l) }
    {
        let t = t as usize;
        if t < self.locals.len() {
            self.locals[t].take()
        } else {
            None
        }
    }

    /// Gives the locals of a thread back, of which none are held.
    pub fn put(&mut self, t: u32, l: Locals)
        requires below { t < length self.old.locals }
        requires none { get_or self.old.locals t None ≡ None }
        ensures given { self.new ≡ with_locals self.old t (Some l) }
        ensures coherent { LocalsCoherent self.old l → IsCoherent self.old → IsCoherent self.new }
    {
        self.locals[t as usize] = Some(l);
    }

    /// The reclaimer frees an address: it is neither used nor retired any more, and every pointer
    /// that holds it is invalid.
    pub fn free(&mut self, a: u32)
        requires { 0 < a }
        ensures freed { self.new ≡ freed self.old a }
        ensures coherent { IsCoherent self.old → IsCoherent self.new }
    {
        self.nodes.free(a);
        cut_cells(&mut self.shared, a);
        cut_threads(&mut self.locals, a);
        drop_address(&mut self.retired, a);
    }

    /// Whether an address is used.
    pub fn used(&self, a: u32) -> bool
        ensures { result ≡ is_used self.now a }
    {
        self.nodes.holds(a)
    }

    /// Whether an address is retired.
    pub fn retired(&self, a: u32) -> bool
        ensures { result ≡ is_retired self.now a }
    {
        self.retired.contains(&a)
    }

    /// What a pointer place holds: a number, whether it is marked, and whether it is valid. `None` comes exactly where
    /// the memory has no such place: a shared pointer or a local past the last, a local of a thread without locals, a
    /// field of an address that isn't used (null has none), a data field.
    pub fn cell(&self, place: &Place) -> Option<Cell>
        ensures { result ≡ cell_of self.now (place_of place.now) }
    {
        match *place {
            Place::Shared(i) => self.shared_pointer(i),
            Place::Cell { a, f } => self.pointer_field(a, f),
            Place::Local { t, v } => self.local_pointer(t, v),
        }
    }

    /// The number of a pointer place, and `None` exactly where the memory has no such place (`cell`).
    pub fn number(&self, place: &Place) -> Option<u32>
        ensures { result ≡ number_at self.now (place_of place.now) }
    {
        match self.cell(place) {
            Some(c) => Some(c.number),
            None => None,
        }
    }

    /// Whether a pointer place is valid; false where the memory has no such place.
    pub fn valid(&self, place: &Place) -> bool
        ensures { result ≡ valid_at self.now (place_of place.now) }
    {
        match self.cell(place) {
            Some(c) => c.valid,
            None => false,
        }
    }

    /// What a thread holds: the locals of the operation that it is in. `None` exactly where it is idle, and where
    /// there is no such thread.
    pub fn locals(&self, t: u32) -> Option<&Locals>
        ensures { option_copied result ≡ get_or self.now.locals t None }
    {
        held(&self.locals, t)
    }

    /// The shared pointer, if there is one of this number.
    #[tactic(auto, unfolding(crate::specs::State::has_place, crate::specs::State::at))]
    fn shared_pointer(&self, i: u16) -> Option<Cell>
        ensures { result ≡ cell_of self.now (at_shared i) }
    {
        find_entry(&self.shared, i as usize)
    }

    /// The pointer field of a used address, if there is one of this number.
    #[tactic(auto, unfolding(crate::specs::State::has_place))]
    fn pointer_field(&self, a: u32, f: FieldId) -> Option<Cell>
        ensures { result ≡ cell_of self.now (at_field a f.0) }
    {
        if self.used(a) && self.is_pointer(f) {
            Some(self.field(a, f))
        } else {
            None
        }
    }

    /// The pointer local of a busy thread, if there is one of this number.
    #[tactic(auto, unfolding(crate::specs::State::has_place, crate::specs::State::at, crate::specs::State::locals_of))]
    fn local_pointer(&self, t: u32, v: u16) -> Option<Cell>
        ensures { result ≡ cell_of self.now (at_local t v) }
    {
        local_of(&self.locals, t, v)
    }

    /// Whether a field is a pointer field.
    fn is_pointer(&self, f: FieldId) -> bool
        ensures { result ≡ get_or self.now.fields f.0 false }
    {
        entry_or(&self.fields, f.0 as usize, false)
    }

    /// What a variable of the acting thread holds.
    pub(crate) fn read(&self, me: &Locals, v: Var) -> Cell
        ensures { (t : ℕ) → result ≡ cell_at (with_locals self.now t (Some me.now)) t v }
    {
        match v {
            Var::Shared(i) => cell_or_null(&self.shared, i as usize),
            Var::Local(i) => me.pointer(i),
        }
    }

    /// Puts a cell into a variable of the acting thread.
    pub(crate) fn write(&mut self, me: &mut Locals, v: Var, c: Cell)
        requires { VarIn (shape self.old me.old) v }
        ensures written { (t : ℕ) → with_locals self.new t (Some me.new)
            ≡ put (with_locals self.old t (Some me.old)) (place t v) c }
        ensures kept { Kept self.old me.old self.new me.new }
    {
        match v {
            Var::Shared(i) => self.shared[i as usize] = c,
            Var::Local(i) => me.set_pointer(i, c),
        }
    }

    /// What a field of a node holds.
    pub(crate) fn field(&self, a: u32, f: FieldId) -> Cell
        ensures { result ≡ at self.now (at_field a f.0) }
    {
        self.nodes.cell(a, f.0 as usize)
    }

    /// Puts a cell into a field of a node.
    pub(crate) fn set_field(&mut self, a: u32, f: FieldId, c: Cell)
        requires { f.0 < length self.old.fields }
        ensures { self.new ≡ put self.old (at_field a f.0) c }
    {
        self.set_entry(a, f, Entry::Pointer(c));
    }

    /// The number of a data field of the node at an address, and 0 where no node stands there, or nodes have no such
    /// field.
    pub fn field_value(&self, a: u32, f: FieldId) -> u32
        ensures { result ≡ field_value self.now a f.0 }
    {
        self.nodes.value(a, f.0 as usize)
    }

    /// Puts a number into a data field of a node.
    pub(crate) fn set_field_value(&mut self, a: u32, f: FieldId, n: u32)
        requires { f.0 < length self.old.fields }
        ensures { self.new ≡ put_field_value self.old a f.0 n }
    {
        self.set_entry(a, f, Entry::Number(n));
    }

    /// Puts an entry into a field of a node.
    fn set_entry(&mut self, a: u32, f: FieldId, entry: Entry)
        requires { f.0 < length self.old.fields }
        ensures { self.new ≡ with_entry self.old a f.0 entry }
    {
        self.nodes.set(a, f.0 as usize, entry);
    }

    /// A fresh node of an address that isn't used.
    pub(crate) fn add_node(&mut self, a: u32) -> Result<(), NoMemory>
        requires { is_used self.old a ≡ false }
        ensures { self.new ≡ (if is_ok result then with_node self.old a else self.old) }
    {
        self.nodes.add(self.alloc, self.fields.len(), a)
    }

    /// An address is handed to the reclaimer.
    pub(crate) fn retire(&mut self, a: u32) -> Result<(), NoMemory>
        ensures { self.new ≡ (if is_ok result then with_retired self.old a else self.old) }
    {
        self.retired.push(a)?;
        Ok(())
    }

    /// Each node has a cell and a number for each field.
    pub(crate) fn nodes_fit(&self)
        ensures { NodesFit (length self.now.fields) self.now.nodes }
    {
        let _ = &self.nodes;
    }

    /// The node that was added last goes.
    pub(crate) fn remove_last_node(&mut self)
        ensures { self.new ≡ without_last_node self.old }
    {
        self.nodes.remove_last();
    }

    /// The address that was retired last is so no more.
    pub(crate) fn remove_last_retired(&mut self)
        ensures { self.new ≡ without_last_retired self.old }
    {
        let _last = self.retired.pop();
    }
}
