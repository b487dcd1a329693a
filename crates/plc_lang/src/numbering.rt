// A local has two numbers: primitives and environments count pointer locals and data locals apart,
// clauses count all locals of an operation together. A value of an auxiliary field has two as well: in
// its field, and over the file. Here one is turned into the other.
ghost use Rattle.std.specs.Prelude.{◌≡◌, ◌+◌, ◌≤◌, ◌<◌, length, List};
ghost use Rattle.std.specs.List.{sum_by};
ghost use Rattle.plc_lang.specs.declared.syntax.Local.{Local as ALocal};
ghost use Rattle.plc_lang.specs.declared.syntax.Ghost.{Ghost as AField};
ghost use Rattle.plc_lang.specs.Numbering.{pointer_place, data_place, pointer_number, data_number};
ghost use Rattle.plc_lang.specs.Numbering.{value_number, value_at, values_in, NumbersAreOne, ValuesAreNumbered};

use crate::syntax::{Ghost, Local};

/// The place among all locals of a pointer local, by its number among the pointer locals; `None` where
/// there are no more than that.
pub fn pointer_place(locals: &[Local], number: u16) -> Option<usize>
    ensures { result ≡ pointer_place locals.now number }
{
    let mut left = number;
    for (place, local) in locals.iter().enumerate() {
        if local.pointer {
            if left == 0 {
                return Some(place);
            }
            left -= 1;
        }
    }
    None
}

/// The place of a data local, by its number among the data locals.
pub fn data_place(locals: &[Local], number: u16) -> Option<usize>
    ensures { result ≡ data_place locals.now number }
{
    let mut left = number;
    for (place, local) in locals.iter().enumerate() {
        if !local.pointer {
            if left == 0 {
                return Some(place);
            }
            left -= 1;
        }
    }
    None
}

/// The number among the pointer locals of the one at a place.
pub fn pointer_number(locals: &[Local], place: usize) -> usize
    requires { place ≤ length locals.now }
    ensures { result ≡ pointer_number locals.now place }
{
    locals[..place].iter().filter(|l| l.pointer).count()
}

/// The number among the data locals of the one at a place.
pub fn data_number(locals: &[Local], place: usize) -> usize
    requires { place ≤ length locals.now }
    ensures { result ≡ data_number locals.now place }
{
    locals[..place].iter().filter(|l| !l.pointer).count()
}

/// The number over the file of a value of an auxiliary field, by the field's number and its own there,
/// where all fields have fewer than 65,536 values.
pub fn value_number(fields: &[Ghost], field: usize, value: u16) -> u32
    requires field { field ≤ length fields.now }
    requires few { sum_by values_in fields.now < 65536 }
    ensures { result ≡ value_number fields.now field value }
{
    let mut before = 0;
    for earlier in &fields[..field] {
        before += earlier.values.len() as u32;
    }
    before + value as u32
}

/// The field of a value and its number there, by its number over the file; `None` where there are no more
/// values than that.
pub fn value_at(fields: &[Ghost], number: u32) -> Option<(usize, u32)>
    ensures { result ≡ value_at fields.now number }
{
    let mut left = number;
    for (place, field) in fields.iter().enumerate() {
        let count = field.values.len();
        if (left as usize) < count {
            return Some((place, left));
        }
        left -= count as u32;
    }
    None
}

/// The two numbers of a value lead to each other.
pub fn values_are_numbered()
    ensures { (fields : List AField) → ValuesAreNumbered fields }
{}

/// The two numbers of a local lead to each other, and each number below the count of its kind has a place.
pub fn numbers_are_one()
    ensures { (locals : List ALocal) → NumbersAreOne locals }
{}
