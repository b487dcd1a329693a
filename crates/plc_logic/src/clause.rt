// An outline after its names were looked up. A clause is a disjunction of literals under at most two
// names that range over all nodes that aren't null. All locals of an operation have one numbering
// here, its parameters first, unlike in primitives, where pointers and data are counted apart.
use plc_base::{FieldId, Items, Names, OpId};

/// What a field, or `retired`, is asked of: a node by its name.
#[derive(Clone, Copy, Debug)]
pub enum Base {
    /// A shared pointer.
    Shared(u16),
    /// A pointer local, by its number among all locals of the operation.
    Local(u16),
    /// A quantified name of the clause.
    Bound(u16),
}

/// One side of an equation.
#[derive(Clone, Copy, Debug)]
pub enum Term {
    /// A shared pointer.
    Shared(u16),
    /// A pointer or data local, by its number among all locals of the operation.
    Local(u16),
    /// A quantified name of the clause.
    Bound(u16),
    /// A pointer field or data field of a node.
    FieldOf { base: Base, f: FieldId },
    /// An auxiliary field of a node.
    GhostOf { base: Base, g: u16 },
    /// `null`
    Null,
    /// A number that stands in the text.
    Number(u32),
    /// A value, by its auxiliary field and its number among the values of that field.
    Value { g: u16, v: u16 },
    /// `me`, the thread that is in the operation.
    Me,
    /// `none`, no thread.
    Nobody,
}

/// What a term stands for, in a clause and in a ground set. The two sides of an equation have one sort.
#[derive(Clone, Copy, PartialEq, Eq)]
pub enum Sort {
    /// A node, or null.
    Node,
    Number,
    /// A thread, or none.
    Thread,
    /// A value of the auxiliary field of this number.
    Value(u16),
    /// Whether something is so: that of `retired` and of marks in ground sets. No term of a clause has it.
    Truth,
}

/// A literal of a clause.
#[derive(Clone, Copy, Debug)]
pub enum Literal {
    /// Two terms of one sort are equal, or are not.
    Same { a: Term, b: Term, equal: bool },
    /// A node is retired, or is not.
    Retired { x: Base, yes: bool },
    /// The pointer in a shared pointer, a pointer local or a pointer field of a node is marked, or is not.
    Marked { t: Term, yes: bool },
}

/// A disjunction of at most 16 literals.
#[derive(Drop)]
pub struct Clause {
    /// The quantified names, at most two.
    pub bound: Names,
    pub literals: Items<Literal>,
}

/// The points at which an item puts its clause.
#[derive(Drop)]
pub enum Site {
    /// Every point of the operation but its exit.
    Over(OpId),
    /// The points of these labels, which stand in one operation.
    At(Items<u16>),
}

/// A clause at points.
#[derive(Drop)]
pub struct Item {
    pub site: Site,
    pub clause: Clause,
}

/// An outline of a file.
#[derive(Drop)]
pub struct Outline {
    /// How many fields deep premises are instantiated, 0 or 1.
    pub depth: u8,
    /// They name no local and no thread.
    pub invariants: Items<Clause>,
    pub items: Items<Item>,
}
