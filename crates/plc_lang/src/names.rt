// Names by the numbers of what they name, as texts show them. A number that nothing has shows as the
// empty name, so that whoever writes a text of a file asks nothing of it.
ghost use Rattle.std.specs.Prelude.{◌≡◌, option_map};
ghost use Rattle.plc_lang.specs.Lookup.{local_at};
ghost use Rattle.plc_lang.specs.Names.{name_at, name_of, field_name, function_name, operation_name};
ghost use Rattle.plc_lang.specs.Names.{auxiliary_name, value_name, label_name, shared_name};
ghost use Rattle.plc_lang.specs.Names.{pointer_name, data_name, local_name, variable_name};

use crate::numbering::{data_place, pointer_place};
use crate::syntax::{File, Local, Var};
use plc_base::{FieldId, FuncId, OpId};

/// The name with a number among the names of the file.
pub fn name_at(file: &File, number: u16) -> &[u8]
    ensures { result.now ≡ name_at file.now number }
{
    if number < file.names.len() {
        file.names.get(number)
    } else {
        &[]
    }
}

/// The name whose number a declaration has.
fn name_of(file: &File, number: Option<u16>) -> &[u8]
    ensures { result.now ≡ name_of file.now number }
{
    match number {
        None => &[],
        Some(number) => name_at(file, number),
    }
}

/// The name of a field of the struct.
pub fn field_name(file: &File, field: FieldId) -> &[u8]
    ensures { result.now ≡ field_name file.now field }
{
    name_of(file, file.fields.get(field.0 as usize).map(|f| f.name))
}

/// The name of a reclaimer function.
pub fn function_name(file: &File, func: FuncId) -> &[u8]
    ensures { result.now ≡ function_name file.now func }
{
    name_of(file, file.funcs.get(func.0 as usize).map(|f| f.name))
}

/// The name of an operation.
pub fn operation_name(file: &File, op: OpId) -> &[u8]
    ensures { result.now ≡ operation_name file.now op }
{
    name_of(file, file.ops.get(op.0 as usize).map(|o| o.name))
}

/// The name of an auxiliary field.
pub fn auxiliary_name(file: &File, g: u16) -> &[u8]
    ensures { result.now ≡ auxiliary_name file.now g }
{
    name_of(file, file.ghosts.get(g as usize).map(|a| a.name))
}

/// The name of a value of an auxiliary field.
pub fn value_name(file: &File, g: u16, v: u16) -> &[u8]
    ensures { result.now ≡ value_name file.now g v }
{
    match file.ghosts.get(g as usize) {
        None => &[],
        Some(auxiliary) => name_of(file, auxiliary.values.get(v as usize).copied()),
    }
}

/// The name of a label.
pub fn label_name(file: &File, label: u16) -> &[u8]
    ensures { result.now ≡ label_name file.now label }
{
    name_of(file, file.labels.get(label as usize).copied())
}

/// The name of a shared pointer.
pub fn shared_name(file: &File, i: u16) -> &[u8]
    ensures { result.now ≡ shared_name file.now i }
{
    name_of(file, file.shared.get(i as usize).copied())
}

/// The number of the name of the local at a place.
fn number_at(locals: &[Local], place: Option<usize>) -> Option<u16>
    ensures { result ≡ option_map (λ l. l.name) (local_at locals.now place) }
{
    match place {
        None => None,
        Some(place) => locals.get(place).map(|l| l.name),
    }
}

/// The name of a pointer local of an operation with these locals, by its number among its pointer locals.
pub fn pointer_name<'a>(file: &'a File, locals: &[Local], v: u16) -> &'a [u8]
    ensures { result.now ≡ pointer_name file.now locals.now v }
{
    name_of(file, number_at(locals, pointer_place(locals, v)))
}

/// The name of a data local of an operation with these locals, by its number among its data locals.
pub fn data_name<'a>(file: &'a File, locals: &[Local], x: u16) -> &'a [u8]
    ensures { result.now ≡ data_name file.now locals.now x }
{
    name_of(file, number_at(locals, data_place(locals, x)))
}

/// The name of a local of an operation with these locals, by its number among all of them.
pub fn local_name<'a>(file: &'a File, locals: &[Local], v: u16) -> &'a [u8]
    ensures { result.now ≡ local_name file.now locals.now v }
{
    name_of(file, locals.get(v as usize).map(|l| l.name))
}

/// The name of a pointer variable in an operation with these locals.
pub fn variable_name<'a>(file: &'a File, locals: &[Local], var: Var) -> &'a [u8]
    ensures { result.now ≡ variable_name file.now locals.now var }
{
    match var {
        Var::Shared(i) => shared_name(file, i),
        Var::Local(v) => pointer_name(file, locals, v),
    }
}
