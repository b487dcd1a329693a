// The forms that readers answer, one type for each kind of tree. They borrow the bytes of names from
// the tokens, so reading takes no memory. Names, numbers, statements and what else a fault can be told at carry
// their place, so that nobody above counts tokens.

/// What stands at a place.
#[derive(Clone, Copy, Drop)]
pub struct Placed<T> {
    /// The number of its first token, counted from 0.
    pub at: u32,
    /// What stands there.
    pub value: T,
}

/// A name where it stands.
pub type Name<'a> = Placed<&'a [u8]>;

/// A shared pointer, by its name.
#[derive(Clone, Copy)]
pub struct Shared<'a> {
    pub name: Name<'a>,
}

/// A reclaimer function.
#[derive(Clone, Copy)]
pub struct Function<'a> {
    /// How it is called.
    pub name: Name<'a>,
    /// Whether it takes a pointer.
    pub takes_pointer: bool,
}

/// A field of the struct or a local, by its name.
#[derive(Clone, Copy)]
pub enum Declaration<'a> {
    Pointer(Name<'a>),
    Data(Name<'a>),
}

/// What the reclaimer watches.
#[derive(Clone, Copy)]
pub enum Watch<'a> {
    /// The function that sets a hazard pointer.
    Hazard(Name<'a>),
    /// The functions that enter and leave an epoch.
    Epoch(Name<'a>, Name<'a>),
}

/// A name, or a field of what it points to.
#[derive(Clone, Copy)]
pub struct Place<'a> {
    /// The name.
    pub name: Name<'a>,
    /// The field, where it is one.
    pub field: Option<Name<'a>>,
}

/// What is put into a name.
#[derive(Clone, Copy)]
pub enum Value<'a> {
    /// `null`, at its place.
    Null(u32),
    /// `new`, at its place.
    New(u32),
    Number(Placed<u32>),
    /// The place of `mark`, and the name whose value is taken with its mark set.
    Mark(u32, Name<'a>),
    /// The place of `unmark`, and the name whose value is taken with its mark cleared.
    Unmark(u32, Name<'a>),
    Place(Place<'a>),
}

/// What is put into a field, or compared with a name.
#[derive(Clone, Copy)]
pub enum Atom<'a> {
    /// `null`, at its place.
    Null(u32),
    Number(Placed<u32>),
    Name(Name<'a>),
}

/// An assignment to a name, or to a field of what a name points to.
#[derive(Clone, Copy)]
pub enum Set<'a> {
    Name(Name<'a>, Value<'a>),
    Field(Name<'a>, Name<'a>, Atom<'a>),
}

/// A refresh into a name, or into a field of what a name points to.
#[derive(Clone, Copy)]
pub enum Refresh<'a> {
    Name(Name<'a>, Place<'a>),
    Field(Name<'a>, Name<'a>, Name<'a>),
}

/// What is put into an auxiliary field.
#[derive(Clone, Copy)]
pub enum GhostValue<'a> {
    Name(Name<'a>),
    /// `me`, at its place.
    Me(u32),
    /// `none`, at its place.
    None(u32),
}

/// An assignment to an auxiliary field of what a name points to.
#[derive(Clone, Copy)]
pub struct GhostSet<'a> {
    /// What points to the node.
    pub name: Name<'a>,
    /// The auxiliary field.
    pub field: Name<'a>,
    /// What it is set to.
    pub value: GhostValue<'a>,
}

/// How a test compares.
#[derive(Clone, Copy)]
pub enum Relation {
    Same,
    Other,
    Less,
    NotLess,
}

/// A test of a name: its mark is set, or isn't; or it stands in a relation to what it is compared with.
#[derive(Clone, Copy)]
pub enum Test<'a> {
    Marked(Name<'a>),
    Unmarked(Name<'a>),
    Compares {
        name: Name<'a>,
        relation: Placed<Relation>,
        atom: Atom<'a>,
    },
}

/// The condition of an `if`.
#[derive(Clone, Copy)]
pub enum Condition<'a> {
    Test(Test<'a>),
    Refresh(Name<'a>, Place<'a>),
    Cas(Cas<'a>),
}

/// A compare-and-set of a pointer.
#[derive(Clone, Copy)]
pub struct Cas<'a> {
    /// Whether the pointer is claimed to be active.
    pub is_active: bool,
    /// The pointer.
    pub name: Name<'a>,
    /// What it is compared with; none is null.
    pub old: Option<Name<'a>>,
    /// What it is set to; none is null.
    pub new: Option<Name<'a>>,
}

/// A primitive.
#[derive(Clone, Copy)]
pub enum Primitive<'a> {
    Set(Set<'a>),
    Refresh(Refresh<'a>),
    Ghost(GhostSet<'a>),
    Active(Name<'a>),
    Assume(Test<'a>),
    Skip,
}

/// An assignment of `init`.
#[derive(Clone, Copy)]
pub enum Initial<'a> {
    Set(Set<'a>),
    Ghost(GhostSet<'a>),
}

/// What a function is called with.
#[derive(Clone, Copy)]
pub enum Argument<'a> {
    None,
    Null,
    Name(Name<'a>),
    Active(Name<'a>),
}

/// A call.
#[derive(Clone, Copy)]
pub struct Call<'a> {
    /// The function.
    pub name: Name<'a>,
    /// What it is called with.
    pub argument: Argument<'a>,
}

/// A side of an equation.
#[derive(Clone, Copy)]
pub enum Term<'a> {
    Place(Place<'a>),
    /// `null`, at its place.
    Null(u32),
    Number(Placed<u32>),
    /// `me`, at its place.
    Me(u32),
    /// `none`, at its place.
    None(u32),
}

/// What a literal says of a node or of a place.
#[derive(Clone, Copy)]
pub enum Flag<'a> {
    Retired(Name<'a>),
    Marked(Place<'a>),
}

/// A literal.
#[derive(Clone, Copy)]
pub enum Literal<'a> {
    Flag(Flag<'a>),
    /// The flag is denied.
    Not(Flag<'a>),
    /// Two sides, and whether they are said to be equal.
    Equation(Term<'a>, bool, Term<'a>),
}

/// The quantified names of a clause.
#[derive(Clone, Copy)]
pub enum Bound<'a> {
    None,
    All(Name<'a>, Option<Name<'a>>),
}
