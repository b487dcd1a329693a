// The names of variables, as faults name them with the operation in which they are.
ghost use Rattle.std.specs.Prelude.{◌≡◌};
ghost use Rattle.plc_answers.specs.Names.{variable_in};

use plc_lang::{File, Var, locals_of, variable_name};

/// The name of a pointer variable of the operation with a number; empty where there is none.
pub fn variable_in<'a>(file: &'a File, operation: u16, var: Var) -> &'a [u8]
    ensures { result.now ≡ variable_in file.now operation var }
{
    variable_name(
        file,
        locals_of(file.ops.as_slice(), operation as usize),
        var,
    )
}
