// The locals of a thread that is in an operation. Between steps they lie in the memory; the acting
// thread takes its own out, so that a primitive writes them and the memory side by side.
ghost use Rattle.std.specs.Prelude.{◌≡◌, ℕ, ◌<◌, get_or, set, map, length, nat_lt, if◌then◌else◌, IfOk};
ghost use Rattle.std.specs.Prelude.{Some, None};
ghost use Rattle.std.specs.Option.{unwrap_or};
ghost use Rattle.plc_lang.specs.Locals.{parameters_of};
ghost use Rattle.plc_mem.specs.State.{State, Locals, null_cell, no_locals, starting, with_locals};
ghost use Rattle.plc_mem.specs.State.{value_at, number_of, cut_locals};

use crate::cell::Cell;
use crate::cells::{cell_or_null, cut_cells};
use plc_base::NoMemory;
use plc_lang::{Num, Op, count_other_data, count_pointers};
use plc_moves::{TryCopy, entry_or, find_entry, held};
use std::alloc::Global;
use std::marker::Model;

/// The pointer locals and the data locals of a thread.
#[derive(Drop)]
pub struct Locals {
    pointers: Vec<Cell>,
    values: Vec<u32>,
}

impl Model for Locals {
    ghost use Rattle.plc_mem.specs.State.{Locals};

    ghost Value = { Locals };

    ghost view = { λ l. record { pointers = l.pointers.items; values = l.values.items } };
}

impl TryCopy for Locals {
    fn try_copy(&self) -> Result<Locals, NoMemory> {
        self.copy()
    }
}

impl Locals {
    /// The locals at the start of an operation, with one number for each parameter: pointers null,
    /// other data 0.
    pub fn new(alloc: Global, op: &Op, args: &[u32]) -> Result<Locals, NoMemory>
        requires { length args.now ≡ parameters_of op.now }
        ensures { IfOk result (λ l. l ≡ starting op.now args.now) }
    {
        let null = Cell::null();
        let zeros = vec![in alloc; 0; count_other_data(op)]?;
        let mut values = Vec::from_slice(alloc, args)?;
        values.extend_from_slice(&zeros)?;
        Ok(Locals {
            pointers: vec![in alloc; null; count_pointers(op)]?,
            values,
        })
    }

    /// The locals of `init`, which has none.
    pub fn none(alloc: Global) -> Result<Locals, NoMemory>
        ensures { IfOk result (λ l. l ≡ no_locals) }
    {
        Ok(Locals {
            pointers: Vec::new(alloc),
            values: Vec::new(alloc),
        })
    }

    /// A copy, equal to these.
    pub fn copy(&self) -> Result<Locals, NoMemory>
        ensures { IfOk result (λ l. l ≡ self.now) }
    {
        Ok(Locals {
            pointers: self.pointers.clone()?,
            values: self.values.clone()?,
        })
    }

    /// The pointer local, if there is one of this number.
    fn find(&self, v: u16) -> Option<Cell>
        ensures { result
            ≡ (if nat_lt v (length self.now.pointers) then Some (get_or self.now.pointers v null_cell) else None) }
    {
        find_entry(&self.pointers, v as usize)
    }

    /// The pointer local, or null.
    pub(crate) fn pointer(&self, v: u16) -> Cell
        ensures { result ≡ get_or self.now.pointers v null_cell }
    {
        cell_or_null(&self.pointers, v as usize)
    }

    /// Puts a cell into a pointer local.
    pub(crate) fn set_pointer(&mut self, v: u16, c: Cell)
        requires { v < length self.old.pointers }
        ensures { self.new ≡ record self.old { pointers = set self.old.pointers v c } }
    {
        self.pointers[v as usize] = c;
    }

    /// The number of a data local, and 0 where there is no such local.
    pub fn value(&self, x: u16) -> u32
        ensures { (s : State) (t : ℕ) → result ≡ value_at (with_locals s t (Some self.now)) t x }
    {
        entry_or(&self.values, x as usize, 0)
    }

    /// Puts a number into a data local.
    pub(crate) fn set_value(&mut self, x: u16, n: u32)
        requires { x < length self.old.values }
        ensures { self.new ≡ record self.old { values = set self.old.values x n } }
    {
        self.values[x as usize] = n;
    }

    /// The number that is put into data.
    pub(crate) fn number(&self, e: Num) -> u32
        ensures { (s : State) (t : ℕ) → result ≡ number_of (with_locals s t (Some self.now)) t e }
    {
        match e {
            Num::Lit(n) => n,
            Num::Local(x) => self.value(x),
        }
    }
}

/// A pointer local of a thread, if there is one of this number.
pub fn local_of(locals: &[Option<Locals>], t: u32, v: u16) -> Option<Cell>
    ensures { let l = unwrap_or (get_or locals.now t None) no_locals
        in result ≡ (if nat_lt v (length l.pointers) then Some (get_or l.pointers v null_cell) else None) }
{
    held(locals, t)?.find(v)
}

/// Makes the pointers of a thread invalid that hold an address.
fn cut_held(held: &mut Option<Locals>, a: u32)
    ensures { held.new ≡ cut_locals a held.old }
{
    if let Some(l) = held {
        cut_cells(&mut l.pointers, a);
    }
}

/// Makes the pointers of all threads invalid that hold an address.
pub fn cut_threads(locals: &mut [Option<Locals>], a: u32)
    ensures { locals.new ≡ map (cut_locals a) locals.old }
{
    for held in locals.iter_mut() {
        cut_held(held, a);
    }
}
