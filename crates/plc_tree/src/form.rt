// Forms that hold a list. They borrow the bytes of names from the tokens, so only their lists take memory.

use plc_base::Items;
use plc_syntax::{Bound, Literal, Name, Placed};

/// What an auxiliary field holds.
#[derive(Drop)]
pub enum AuxiliaryKind<'a> {
    /// One of these values, of which the first stands apart.
    OneOf(Name<'a>, Items<Name<'a>>),
    /// A thread or none.
    OfThreads,
}

/// An auxiliary field.
#[derive(Drop)]
pub struct Auxiliary<'a> {
    /// How it is called.
    pub name: Name<'a>,
    /// What it holds.
    pub kind: AuxiliaryKind<'a>,
}

/// A clause, which holds where one of its literals does.
#[derive(Drop)]
pub struct Clause<'a> {
    /// The quantified names.
    pub bound: Bound<'a>,
    /// The first literal.
    pub first: Literal<'a>,
    /// The others in order.
    pub others: Items<Placed<Literal<'a>>>,
}

/// An item of an outline.
#[derive(Drop)]
pub enum Item<'a> {
    /// Everywhere.
    Invariant(Clause<'a>),
    /// Over an operation, by its name.
    Over(Name<'a>, Clause<'a>),
    /// At labels, of which the first stands apart.
    At(Name<'a>, Items<Name<'a>>, Clause<'a>),
}

/// An outline.
#[derive(Drop)]
pub struct Outline<'a> {
    /// Its depth, which may be left out.
    pub depth: Option<Placed<u32>>,
    /// Its items in order.
    pub items: Items<Item<'a>>,
}
