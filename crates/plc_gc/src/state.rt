// The values of a garbage-collected state. A node's number is the place of its row, and no row is taken
// back, so that a look-up is an index. What it is seen as is the state of the definitions; reads are total.
ghost use Rattle.std.specs.Prelude.{◌≡◌, ◌<◌, get_or, slice_get, length, IfOk, OnOk, OnErr};
ghost use Rattle.plc_moves.specs.declared.words.Place.TheVariants as places;
ghost use Rattle.plc_gc.specs.State.{GcState, first_state, locals_of, with_locals, value, entry, count, put};
ghost use Rattle.plc_gc.specs.State.{update, made};
ghost use Rattle.plc_gc.specs.State.{is_retired, is_made, is_pointer_field, node_of, null_pointer};
ghost use Rattle.plc_gc.specs.Clauses.{local_value, local_mark_value, field_map};
ghost use Rattle.plc_gc.specs.Named.{named_local};
ghost use Rattle.plc_gc.specs.Fit.{RowsFit, SlotIn, MapIn};

use crate::locals::{Locals, local_of, put_pointer, put_value};
use crate::pointers::{find_node, pointer_at, put_mark, put_node};
use crate::row::{Row, copy_rows};
use crate::slot::{Map, Pointer, Slot};
use plc_base::{FieldId, NoMemory};
use plc_flow::Flow;
use plc_lang::Field;
use plc_moves::{Place, copy_held, held, none_held};
use std::alloc::Global;
use std::marker::Model;

/// What shared pointers and locals hold, and what is known of each node; the first row is that of null.
#[derive(Drop)]
pub struct State {
    alloc: Global,
    fields: Vec<Field>,
    ghosts: usize,
    shared: Vec<Pointer>,
    locals: Vec<Option<Locals>>,
    rows: Vec<Row>,
}

impl Model for State {
    ghost Value = { GcState };

    ghost view = { λ s. record {
      fields = s.fields.items;
      ghosts = s.ghosts;
      shared = s.shared.items;
      locals = s.locals.items;
      rows = s.rows.items;
    } };

    ghost invariant = { λ s. RowsFit (length s.fields.items) s.ghosts s.rows.items };
}

impl State {
    /// The state of a flow before its `init`: null alone, shared pointers null, every thread idle.
    pub fn first(alloc: Global, flow: &Flow, threads: u32) -> Result<State, NoMemory>
        ensures { IfOk result (λ s. s ≡ first_state flow.now threads) }
    {
        let fields = Vec::from_slice(alloc, flow.file.fields.as_slice())?;
        let ghosts = flow.file.ghosts.len();
        let null = Row::fresh(alloc, fields.len(), ghosts)?;
        let mut rows = Vec::new(alloc);
        rows.push(null)?;
        Ok(State {
            alloc,
            fields,
            ghosts,
            shared: vec![in alloc; Pointer::null(); flow.file.shared.len()]?,
            locals: none_held(alloc, threads as usize)?,
            rows,
        })
    }

    /// A copy of this state, in memory of its own.
    pub fn copy(&self) -> Result<State, NoMemory>
        ensures { IfOk result (λ s. s ≡ self.now) }
    {
        Ok(State {
            alloc: self.alloc,
            fields: self.fields.clone()?,
            ghosts: self.ghosts,
            shared: self.shared.clone()?,
            locals: copy_held(self.alloc, &self.locals)?,
            rows: copy_rows(self.alloc, &self.rows)?,
        })
    }

    /// Gives a thread its locals, or takes them.
    pub fn give(&mut self, t: u32, l: Option<Locals>)
        requires { t < length self.old.locals }
        ensures { self.new ≡ with_locals self.old t l }
    {
        self.locals[t as usize] = l;
    }

    /// A pointer local of a thread, null where there is none.
    fn pointer(&self, t: u32, v: u16) -> Pointer
        ensures { result ≡ get_or (locals_of self.now t).pointers v null_pointer }
    {
        match held(&self.locals, t) {
            Some(l) => l.pointer(v),
            None => Pointer::null(),
        }
    }

    /// The value of a place.
    pub fn value(&self, slot: Slot) -> u32
        ensures { result ≡ value self.now slot }
    {
        match slot {
            Slot::Shared(i) => pointer_at(&self.shared, i as usize).node,
            Slot::Local { t, v } => self.pointer(t, v).node,
            Slot::SharedMark(i) => pointer_at(&self.shared, i as usize).mark,
            Slot::LocalMark { t, v } => self.pointer(t, v).mark,
            Slot::Data { t, x } => match held(&self.locals, t) {
                Some(l) => l.value(x),
                None => 0,
            },
        }
    }

    /// The entry of a map at a node.
    pub fn entry(&self, map: Map, node: u32) -> u32
        ensures { result ≡ entry self.now map node }
    {
        match self.rows.get(node as usize) {
            Some(row) => row.entry(map),
            None => 0,
        }
    }

    /// Whether a node was retired.
    pub fn is_retired(&self, node: u32) -> bool
        ensures { result ≡ is_retired self.now node }
    {
        self.entry(Map::Retirement, node) == 1
    }

    /// Puts a value into a place.
    pub fn put(&mut self, slot: Slot, n: u32)
        requires { SlotIn self.old slot }
        ensures { self.new ≡ put self.old slot n }
    {
        match slot {
            Slot::Shared(i) => put_node(&mut self.shared, i as usize, n),
            Slot::Local { t, v } => {
                let p = self.pointer(t, v).with_node(n);
                put_pointer(&mut self.locals, t, v, p);
            }
            Slot::SharedMark(i) => put_mark(&mut self.shared, i as usize, n),
            Slot::LocalMark { t, v } => {
                let p = self.pointer(t, v).with_mark(n);
                put_pointer(&mut self.locals, t, v, p);
            }
            Slot::Data { t, x } => put_value(&mut self.locals, t, x, n),
        }
    }

    /// Changes a map at a node that was made.
    pub fn update(&mut self, map: Map, node: u32, n: u32)
        requires made { node < count self.old }
        requires there { MapIn self.old map }
        ensures { self.new ≡ update self.old map node n }
    {
        self.rows[node as usize].set(map, n);
    }

    /// Makes a node, whose number is how many there were with null. There are at most 2^32.
    pub fn make(&mut self) -> Result<u32, NoMemory>
        ensures node { IfOk result (λ node. node ≡ count self.old) }
        ensures made { OnOk result (self.new ≡ made self.old) }
        ensures err { OnErr result (self.new ≡ self.old) }
    {
        let made = self.rows.len();
        if made > u32::MAX as usize {
            return Err(NoMemory);
        }
        let row = Row::fresh(self.alloc, self.fields.len(), self.ghosts)?;
        self.rows.push(row)?;
        Ok(made as u32)
    }

    /// The node that a pointer place holds, if there is such a place.
    pub fn node_in(&self, place: &Place) -> Option<u32>
        ensures { result ≡ node_of self.now place.now }
    {
        match *place {
            Place::Shared(i) => self.shared_pointer(i),
            Place::Cell { a, f } => self.pointer_field(a, f),
            Place::Local { t, v } => self.local_pointer(t, v),
        }
    }

    /// The node that a shared pointer holds, if there is one of this number.
    #[tactic(auto, unfolding(crate::specs::State::has_place, crate::specs::State::value))]
    fn shared_pointer(&self, i: u16) -> Option<u32>
        ensures { result ≡ node_of self.now (places.Shared i) }
    {
        find_node(&self.shared, i as usize)
    }

    /// The node that a pointer field holds of a node that was made, if there is one of this number.
    #[tactic(auto, unfolding(crate::specs::State::has_place))]
    fn pointer_field(&self, k: u32, f: FieldId) -> Option<u32>
        ensures { result ≡ node_of self.now (places.Cell k f) }
    {
        if self.is_made(k) && self.is_pointer_field(f) {
            Some(self.entry(Map::Pointer(f.0), k))
        } else {
            None
        }
    }

    /// The node that a pointer local of a busy thread holds, if there is one of this number.
    #[tactic(auto, unfolding(crate::specs::State::has_place, crate::specs::State::value))]
    fn local_pointer(&self, t: u32, v: u16) -> Option<u32>
        ensures { result ≡ node_of self.now (places.Local t v) }
    {
        local_of(&self.locals, t, v)
    }

    /// Whether a node was made and isn't null.
    #[tactic(auto, unfolding(crate::specs::State::is_made, crate::specs::State::count))]
    fn is_made(&self, node: u32) -> bool
        ensures { result ≡ is_made self.now node }
    {
        0 < node && (node as usize) < self.rows.len()
    }

    /// Whether there is such a field, and it is a pointer field.
    fn is_pointer_field(&self, f: FieldId) -> bool
        ensures { result ≡ is_pointer_field (slice_get self.now.fields f.0) }
    {
        match self.fields.get(f.0 as usize) {
            Some(field) => field.pointer,
            None => false,
        }
    }

    /// What the local of a thread holds that has this number among all that are declared (`Locals::named`); null where
    /// there is none.
    fn named(&self, thread: Option<u32>, i: u16) -> Pointer
        ensures { result ≡ named_local self.now thread i }
    {
        let Some(t) = thread else {
            return Pointer::null();
        };
        match held(&self.locals, t) {
            Some(l) => l.named(i),
            None => Pointer::null(),
        }
    }

    /// The local of a thread by its number among all that are declared; 0 where there is none.
    pub fn local(&self, thread: Option<u32>, i: u16) -> u32
        ensures { result ≡ local_value self.now thread i }
    {
        self.named(thread, i).node
    }

    /// The mark of the pointer local of a thread by its number among all that are declared; 0 where there is none.
    pub fn local_mark(&self, thread: Option<u32>, i: u16) -> u32
        ensures { result ≡ local_mark_value self.now thread i }
    {
        self.named(thread, i).mark
    }

    /// What a field holds at a node, whichever kind it has.
    pub fn field(&self, f: FieldId, node: u32) -> u32
        ensures { result ≡ entry self.now (field_map self.now f.0) node }
    {
        match self.fields.get(f.0 as usize) {
            Some(Field { pointer: true, .. }) => self.entry(Map::Pointer(f.0), node),
            Some(Field { pointer: false, .. }) => self.entry(Map::Number(f.0), node),
            None => self.entry(Map::Number(f.0), node),
        }
    }
}
