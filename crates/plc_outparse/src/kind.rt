// What names are in the clauses of an outline.
use plc_base::FieldId;
use plc_logic::{Base, Sort};

/// What a name is in a clause.
#[derive(Clone, Copy)]
pub enum Kind {
    /// A shared pointer, a pointer local or a quantified name.
    Node(Base),
    /// A data local, by its number among all locals of the operation.
    Data(u16),
    /// A field of the struct, with the sort of what it holds.
    Field(FieldId, Sort),
    /// An auxiliary field, with the sort of what it holds.
    Auxiliary(u16, Sort),
    /// A value, by its auxiliary field and its number among the values of that field.
    Value(u16, u16),
    /// The struct, a function, an operation or a label, which stand for no value.
    NoValue,
}
