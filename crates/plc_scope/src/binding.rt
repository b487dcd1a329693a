// What names stand for. A name of the file has a binding; where locals are in reach a name is found to
// be one of them, or else what its binding says; in an operation it has a role by what it is found to be.
use plc_base::{FieldId, FuncId};
use plc_lang::Var;

/// What a name stands for in the file.
#[derive(Clone, Copy)]
pub enum Binding {
    /// The struct, an operation or a label, which stand for no value.
    Taken,
    Shared(u16),
    PointerField(FieldId),
    DataField(FieldId),
    /// A reclaimer function, and whether it takes a pointer.
    Function(FuncId, bool),
    /// An auxiliary field, and whether it holds a thread.
    Auxiliary(u16, bool),
    /// A value, by its auxiliary field and its number among the values of that field.
    Value(u16, u16),
    /// Locals of operations have the name, and nothing else.
    LocalOnly,
}

/// What a name is found to be where the locals of an operation are in reach.
#[derive(Clone, Copy)]
pub enum Found {
    /// A local, by its number among all of these, and whether it is a pointer.
    Local(u16, bool),
    /// No local of these, but a name that stands in the file.
    OfFile(Binding),
}

/// What a name is in an operation.
#[derive(Clone, Copy)]
pub enum Role {
    PointerVariable(Var),
    DataLocal(u16),
    PointerField(FieldId),
    DataField(FieldId),
    /// A reclaimer function, and whether it takes a pointer.
    Function(FuncId, bool),
    /// An auxiliary field, and whether it holds a thread.
    Auxiliary(u16, bool),
    /// A value, by its auxiliary field and its number among the values of that field.
    Value(u16, u16),
    /// The name stands for no value.
    NoValue,
}
