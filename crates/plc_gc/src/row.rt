// The row of a node: a pointer for each field in `pointers` and a number for each in `values`, of which a
// pointer field has the first and a data field the second, a number for each auxiliary field, and the retirement.
ghost use Rattle.std.specs.Prelude.{◌≡◌, IfOk};
ghost use Rattle.plc_gc.specs.State.{row_entry, row_with, fresh_row};
ghost use Rattle.plc_gc.specs.Fit.{EntryIn};

use crate::pointers::{pointer_at, put_mark, put_node};
use crate::slot::{Map, Pointer};
use plc_base::NoMemory;
use plc_moves::entry_or;
use std::alloc::Global;
use std::marker::Model;

/// What is known of a node.
#[derive(Drop)]
pub struct Row {
    pointers: Vec<Pointer>,
    values: Vec<u32>,
    auxiliary: Vec<u32>,
    retired: u32,
}

impl Model for Row {
    ghost use Rattle.plc_gc.specs.State.{Row};

    ghost Value = { Row };

    ghost view = { λ r. record {
      pointers = r.pointers.items;
      values = r.values.items;
      auxiliary = r.auxiliary.items;
      retired = r.retired;
    } };
}

impl Row {
    /// A node that was just allocated, and null.
    pub fn fresh(alloc: Global, fields: usize, ghosts: usize) -> Result<Row, NoMemory>
        ensures { IfOk result (λ r. r ≡ fresh_row fields ghosts) }
    {
        Ok(Row {
            pointers: vec![in alloc; Pointer::null(); fields]?,
            values: vec![in alloc; 0; fields]?,
            auxiliary: vec![in alloc; 0; ghosts]?,
            retired: 0,
        })
    }

    /// A copy of this row, in memory of its own.
    pub fn copy(&self) -> Result<Row, NoMemory>
        ensures { IfOk result (λ r. r ≡ self.now) }
    {
        Ok(Row {
            pointers: self.pointers.clone()?,
            values: self.values.clone()?,
            auxiliary: self.auxiliary.clone()?,
            retired: self.retired,
        })
    }

    /// What a map has at this node.
    pub fn entry(&self, map: Map) -> u32
        ensures { result ≡ row_entry self.now map }
    {
        match map {
            Map::Pointer(f) => pointer_at(&self.pointers, f as usize).node,
            Map::Mark(f) => pointer_at(&self.pointers, f as usize).mark,
            Map::Number(f) => entry_or(&self.values, f as usize, 0),
            Map::Auxiliary(h) => entry_or(&self.auxiliary, h as usize, 0),
            Map::Retirement => self.retired,
        }
    }

    /// Puts a number into a map at this node.
    pub fn set(&mut self, map: Map, n: u32)
        requires { EntryIn self.old map }
        ensures { self.new ≡ row_with self.old map n }
    {
        match map {
            Map::Pointer(f) => put_node(&mut self.pointers, f as usize, n),
            Map::Mark(f) => put_mark(&mut self.pointers, f as usize, n),
            Map::Number(f) => self.values[f as usize] = n,
            Map::Auxiliary(h) => self.auxiliary[h as usize] = n,
            Map::Retirement => self.retired = n,
        }
    }
}

/// Copies of rows.
pub fn copy_rows(alloc: Global, rows: &[Row]) -> Result<Vec<Row>, NoMemory>
    ensures { IfOk result (λ copy. copy.items ≡ rows.now) }
{
    let mut copy = Vec::new(alloc);
    for row in rows {
        copy.push(row.copy()?)?;
    }
    Ok(copy)
}
