// The locals of a thread that is in an operation. Clauses count pointer and data locals together, so the
// declarations stand beside the values.
ghost use Rattle.std.specs.Prelude.{◌≡◌, ◌<◌, ◌≤◌, get_or, slice_get, length, nat_lt, if◌then◌else◌};
ghost use Rattle.std.specs.Prelude.{IfOk, Some, None};
ghost use Rattle.std.specs.Option.{unwrap_or};
ghost use Rattle.plc_base.specs.Tables.{put_at};
ghost use Rattle.plc_lang.specs.Numbering.{data_number, pointer_number};
ghost use Rattle.plc_gc.specs.State.{Locals, no_locals, starting};
ghost use Rattle.plc_gc.specs.State.{null_pointer};
ghost use Rattle.plc_gc.specs.Named.{declared_local};

use crate::pointers::{find_node, pointer_at};
use crate::slot::Pointer;
use plc_base::NoMemory;
use plc_lang::{Local, Op, count_other_data, count_pointers, data_number, pointer_number};
use plc_moves::{TryCopy, entry_or, held};
use std::alloc::Global;
use std::marker::Model;

/// The pointer locals and the data locals of a thread, with the declarations of both.
#[derive(Drop)]
pub struct Locals {
    declared: Vec<Local>,
    pointers: Vec<Pointer>,
    values: Vec<u32>,
}

impl Model for Locals {
    ghost use Rattle.plc_gc.specs.State.{Locals};

    ghost Value = { Locals };

    ghost view = { λ l. record { declared = l.declared.items; pointers = l.pointers.items; values = l.values.items } };
}

impl TryCopy for Locals {
    fn try_copy(&self) -> Result<Locals, NoMemory> {
        Ok(Locals {
            declared: self.declared.clone()?,
            pointers: self.pointers.clone()?,
            values: self.values.clone()?,
        })
    }
}

impl Locals {
    /// The locals at the start of an operation: pointers null, parameters as given, other data 0.
    pub fn new(alloc: Global, op: &Op, args: &[u32]) -> Result<Locals, NoMemory>
        ensures { IfOk result (λ l. l ≡ starting op.now args.now) }
    {
        let zeros = vec![in alloc; 0; count_other_data(op)]?;
        let mut values = Vec::from_slice(alloc, args)?;
        values.extend_from_slice(&zeros)?;
        Ok(Locals {
            declared: Vec::from_slice(alloc, op.locals.as_slice())?,
            pointers: vec![in alloc; Pointer::null(); count_pointers(op)]?,
            values,
        })
    }

    /// The locals of `init`, which has none.
    pub fn none(alloc: Global) -> Locals
        ensures { result ≡ no_locals }
    {
        Locals {
            declared: Vec::new(alloc),
            pointers: Vec::new(alloc),
            values: Vec::new(alloc),
        }
    }

    /// The pointer local, null past the last.
    pub fn pointer(&self, v: u16) -> Pointer
        ensures { result ≡ get_or self.now.pointers v null_pointer }
    {
        pointer_at(&self.pointers, v as usize)
    }

    /// The data local, 0 past the last.
    pub fn value(&self, x: u16) -> u32
        ensures { result ≡ get_or self.now.values x 0 }
    {
        entry_or(&self.values, x as usize, 0)
    }

    /// The pointer local, if there is one of this number.
    pub fn find(&self, v: u16) -> Option<u32>
        ensures { result
            ≡ (if nat_lt v (length self.now.pointers) then Some (get_or self.now.pointers v null_pointer).node
            else None) }
    {
        find_node(&self.pointers, v as usize)
    }

    /// What the local holds that has this number among all that are declared: a pointer local its pointer, a data local
    /// its number, unmarked. Null past the last.
    pub fn named(&self, i: u16) -> Pointer
        ensures { result ≡ declared_local self.now i (slice_get self.now.declared i) }
    {
        let i = i as usize;
        match self.declared.get(i) {
            None => Pointer::null(),
            Some(l) => {
                if l.pointer {
                    self.declared_pointer(i)
                } else {
                    Pointer::unmarked(self.declared_value(i))
                }
            }
        }
    }

    /// The pointer local that is declared at a place.
    fn declared_pointer(&self, i: usize) -> Pointer
        requires { i ≤ length self.now.declared }
        ensures { result ≡ get_or self.now.pointers (pointer_number self.now.declared i) null_pointer }
    {
        pointer_at(&self.pointers, pointer_number(&self.declared, i))
    }

    /// The data local that is declared at a place.
    fn declared_value(&self, i: usize) -> u32
        requires { i ≤ length self.now.declared }
        ensures { result ≡ get_or self.now.values (data_number self.now.declared i) 0 }
    {
        entry_or(&self.values, data_number(&self.declared, i), 0)
    }

    /// Puts a pointer into a pointer local.
    pub fn set_pointer(&mut self, v: u16, p: Pointer)
        requires { v < length self.old.pointers }
        ensures { self.new ≡ record self.old { pointers = put_at null_pointer self.old.pointers v p } }
    {
        self.pointers[v as usize] = p;
    }

    /// Puts a number into a data local.
    pub fn set_value(&mut self, x: u16, n: u32)
        requires { x < length self.old.values }
        ensures { self.new ≡ record self.old { values = put_at 0 self.old.values x n } }
    {
        self.values[x as usize] = n;
    }
}

/// A pointer local of a thread, if there is one of this number.
pub fn local_of(locals: &[Option<Locals>], t: u32, v: u16) -> Option<u32>
    ensures { let l = unwrap_or (get_or locals.now t None) no_locals
        in result ≡ (if nat_lt v (length l.pointers) then Some (get_or l.pointers v null_pointer).node else None) }
{
    held(locals, t)?.find(v)
}

/// Puts a pointer into a pointer local of a thread.
pub fn put_pointer(locals: &mut Vec<Option<Locals>>, t: u32, v: u16, p: Pointer)
    requires { v < length (unwrap_or (get_or locals.old.items t None) no_locals).pointers }
    ensures { let l = unwrap_or (get_or locals.old.items t None) no_locals
        in locals.new.items
        ≡ put_at None locals.old.items t (Some (record l { pointers = put_at null_pointer l.pointers v p })) }
{
    if let Some(l) = &mut locals[t as usize] {
        l.set_pointer(v, p);
    }
}

/// Puts a number into a data local of a thread.
pub fn put_value(locals: &mut Vec<Option<Locals>>, t: u32, x: u16, n: u32)
    requires { x < length (unwrap_or (get_or locals.old.items t None) no_locals).values }
    ensures { let l = unwrap_or (get_or locals.old.items t None) no_locals
        in locals.new.items ≡ put_at None locals.old.items t (Some (record l { values = put_at 0 l.values x n })) }
{
    if let Some(l) = &mut locals[t as usize] {
        l.set_value(x, n);
    }
}
