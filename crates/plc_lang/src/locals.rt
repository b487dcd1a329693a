// The locals of operations by the numbers of these, and how many of each kind there are.
ghost use Rattle.std.specs.Prelude.{◌≡◌};
ghost use Rattle.plc_lang.specs.Locals.{locals_of, pointers_of, parameters_of, other_data_of};

use crate::syntax::{Local, Op};

/// The locals of the operation with a number; none where there is no such operation.
pub fn locals_of(ops: &[Op], op: usize) -> &[Local]
    ensures { result.now ≡ locals_of ops.now op }
{
    match ops.get(op) {
        Some(op) => op.locals.as_slice(),
        None => &[],
    }
}

/// How many pointer locals an operation has.
pub fn count_pointers(op: &Op) -> usize
    ensures { result ≡ pointers_of op.now }
{
    op.locals.as_slice().iter().filter(|l| l.pointer).count()
}

/// How many parameters it has.
pub fn count_parameters(op: &Op) -> usize
    ensures { result ≡ parameters_of op.now }
{
    op.locals.as_slice().iter().filter(|l| l.param).count()
}

/// How many data locals it has that are no parameters.
pub fn count_other_data(op: &Op) -> usize
    ensures { result ≡ other_data_of op.now }
{
    op.locals
        .as_slice()
        .iter()
        .filter(|l| !l.pointer && !l.param)
        .count()
}
