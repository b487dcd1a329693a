// What a picture shows, apart from how it is drawn. Names are texts already, so whoever draws asks neither the file nor
// the model, and what differs from the state before is noted where it stands.
use plc_base::Items;

/// A state of memory, as far as a model speaks of it.
#[derive(Drop)]
pub struct Picture {
    /// The nodes to which pointers and fields of nodes lead. They are told by their numbers, which count from 0 here
    /// and from 1 where they are drawn.
    pub boxes: Items<NodeBox>,
    /// The pointers that are null.
    pub nulls: Items<Name>,
}

/// A node.
#[derive(Drop)]
pub struct NodeBox {
    /// What points to it: shared pointers, locals, the names of the clause. What the step reads is named only where
    /// nothing else is.
    pub names: Items<Name>,
    /// What its fields hold, those of the struct first, then auxiliary fields and whether it is retired. A field of
    /// which nothing is said has no row.
    pub rows: Items<Row>,
}

/// What points to a node, or is null.
#[derive(Drop)]
pub struct Name {
    pub text: Items<u8>,
    /// Whether the pointer's mark is set.
    pub marked: bool,
    /// Whether it pointed elsewhere before the step, or had another mark.
    pub changed: bool,
}

/// What a field of a node holds.
#[derive(Drop)]
pub struct Row {
    pub field: Items<u8>,
    pub value: Value,
    /// Whether the mark in the field is set.
    pub marked: bool,
    /// Whether the field held something else before the step, or had another mark.
    pub changed: bool,
}

/// A value of a field.
#[derive(Drop)]
pub enum Value {
    Null,
    /// The node with this number.
    Node(usize),
    /// Whether it is so; that of `retired`.
    Truth(bool),
    /// A number, a local that holds the same number, a thread, or a value of an auxiliary field.
    Text(Items<u8>),
    /// Nothing is said of it: the row is there since the mark is set.
    Unsaid,
}
