// Statements and blocks as trees. A statement holds blocks, so the two types hold each other; contracts
// see a block as the grammar's tree.
ghost use Rattle.std.specs.Prelude.{◌≡◌};
ghost use Rattle.plc_tree.specs.Views.{block_tree};

use plc_base::Items;
use plc_syntax::{Argument, Condition, Name, Placed, Primitive};
use std::marker::Model;

/// A statement.
#[cycle(tree)]
#[derive(Drop)]
pub enum Stmt<'a> {
    /// A primitive.
    Primitive(Primitive<'a>),
    /// Primitives in one step.
    Atomic(Items<Placed<Primitive<'a>>>),
    /// A call of a function of the reclaimer, with the label between it and its return.
    Call {
        /// The function.
        name: Name<'a>,
        /// What it is called with.
        argument: Argument<'a>,
        /// The label.
        during: Option<Name<'a>>,
    },
    /// Either of two blocks, of which the second may be left out.
    If {
        condition: Condition<'a>,
        yes: Block<'a>,
        no: Option<Block<'a>>,
    },
    /// Any of two blocks or more.
    Choose {
        first: Block<'a>,
        second: Block<'a>,
        others: Vec<Block<'a>>,
    },
    /// A block again and again, until it is left.
    Loop(Block<'a>),
    /// The end of the innermost loop.
    Break,
    /// The end of the operation.
    Return,
    /// A label of the point where it stands.
    Label(Name<'a>),
}

/// Statements in order.
#[cycle(tree)]
#[derive(Drop)]
pub struct Block<'a> {
    stmts: Vec<Placed<Stmt<'a>>>,
}

impl<'a> Model for Block<'a> {
    ghost use Rattle.std.specs.Coded.{codes, code_by, coded_list};
    ghost use Rattle.std.specs.Prelude.{List};
    ghost use Rattle.plc_syntax.specs.Trees.{BlockTree};
    ghost use Rattle.plc_tree.specs.Postorder.{Head, block_size, heads_of, read_block, read_back};

    ghost Value = { BlockTree };

    ghost size = { block_size };

    ghost coded = { code_by (List Head) (coded_list (Prim.hlevel codes)) heads_of read_block read_back };

    ghost use Rattle.plc_tree.specs.Views.{block_tree};

    ghost view = { λ b. block_tree b.stmts.items };

    ghost use Rattle.std.proofs.Common.{arith};
    ghost use Rattle.plc_tree.specs.Falls.{statements_fall};

    ghost size_decreases = { λ a h. omega (arith, statements_fall a.stmts.items) };
}

impl<'a> Block<'a> {
    /// The block of these statements. It takes no memory.
    pub fn new(stmts: Vec<Placed<Stmt<'a>>>) -> Block<'a>
        ensures { result ≡ block_tree stmts.entry.items }
    {
        Block { stmts }
    }

    /// The statements in order.
    pub fn stmts(&self) -> &[Placed<Stmt<'a>>]
        ensures { block_tree result.now ≡ self.now }
    {
        &self.stmts
    }
}
