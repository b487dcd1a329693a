//! The syntax of a file as the layers above see it: types, and what is asked of them everywhere.
#![tactic(auto)]

mod allocation;
mod block;
mod comparison;
mod facts;
mod labels;
mod locals;
mod marks;
mod names;
mod numbering;
mod syntax;

pub use allocation::{has_new, is_new};
pub use block::Block;
pub use comparison::compares;
pub use facts::{accessed, assigned, called, compared, is_test, risked};
pub use labels::{labels_by_op, op_of_label};
pub use locals::{count_other_data, count_parameters, count_pointers, locals_of};
pub use marks::speak_of_marks;
pub use names::{
    auxiliary_name, data_name, field_name, function_name, label_name, local_name, name_at,
    operation_name, pointer_name, shared_name, value_name, variable_name,
};
pub use numbering::{
    data_number, data_place, numbers_are_one, pointer_number, pointer_place, value_at,
    value_number, values_are_numbered,
};
pub use syntax::{
    Arg, Cond, Field, File, Func, Ghost, GhostVal, Line, Local, Num, Op, Primitive as Prim, Rel,
    Stmt, Var,
};
