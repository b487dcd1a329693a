//! The syntax of a file, over `plc_lex`'s tokens: its grammar as trees with their spelling, what the words of
//! its rules say (which tokens are a file's, where others stop being so, how deep blocks stand within one
//! another, and whether they use marks), and a reader of each form that holds no list. `plc_tree` reads lists,
//! blocks and whole files with them: each answers the tree that is read at the front of tokens by
//! `specs/Forms.antt`.
#![tactic(auto)]

mod clause;
mod condition;
mod declaration;
mod depth;
mod fault;
mod form;
mod front;
mod marks;
mod rest;
mod statement;

pub use clause::{bound_at, depth_at, literal_at, or_literal_at};
pub use condition::condition_at;
pub use declaration::{field_at, function_at, initial_at, shared_at, watch_at};
pub use depth::depth_is_that_of_braces;
pub use fault::Fault;
pub use form::{
    Argument, Atom, Bound, Call, Cas, Condition, Declaration, Flag, Function, GhostSet, GhostValue,
    Initial, Literal, Name, Place, Placed, Primitive, Refresh, Relation, Set, Shared, Term, Test,
    Value, Watch,
};
pub use front::{
    Front, Read, at_front, comma_name_at, first, name_and_at, name_at, symbol_at, syntax_fault,
    word_at,
};
pub use marks::trees_spell_their_marks;
pub use rest::Rest;
pub use statement::{argument_at, during_at, named_tail_at, primitive_line_at};
