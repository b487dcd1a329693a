//! A file as a tree, over `plc_lex`'s tokens and the grammar of `plc_syntax`. The layer above uses
//! `file_tree`: the tree whose spelling the tokens are, or the fault at the least token with which no
//! file begins any more, or at the brace of the first block that stands within 64 others.
#![tactic(auto)]

mod auxiliary;
mod block;
mod clause;
mod fault;
mod file;
mod form;
mod list;
mod listed;
mod nesting;
mod one_fault;
mod operation;
mod outline;
mod statement;
mod tree;

pub use fault::SyntaxFault;
pub use file::{File, Heading, Struct, file_tree};
pub use form::{Auxiliary, AuxiliaryKind, Clause, Item, Outline};
pub use one_fault::syntax_faults_are_one;
pub use operation::{Operation, Parameters};
pub use outline::outline_tree;
pub use tree::{Block, Stmt};
