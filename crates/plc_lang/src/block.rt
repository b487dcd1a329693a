// The statements of a block. A statement holds blocks, so the two types hold each other; contracts see
// a block as a tree, in which no list lies in memory, so that equal blocks are equal trees.
ghost use Rattle.std.specs.Prelude.{◌≡◌};
ghost use Rattle.plc_lang.specs.Views.{block_of};

use crate::syntax::Line;
use std::marker::Model;

/// Statements in order, each with the line of its first token.
#[cycle(syntax)]
#[derive(Drop)]
pub struct Block {
    lines: Vec<Line>,
}

impl Model for Block {
    ghost use Rattle.std.specs.Coded.{codes, code_by, coded_list};
    ghost use Rattle.std.specs.Prelude.{List};
    ghost use Rattle.plc_lang.specs.Statements.{Statements, block_size};
    ghost use Rattle.plc_lang.specs.Postorder.{Head, heads_of, read_block, read_back};

    ghost Value = { Statements };

    ghost coded = { code_by (List Head) (coded_list (Prim.hlevel codes)) heads_of read_block read_back };

    ghost use Rattle.plc_lang.specs.Views.{block_of};

    ghost view = { λ b. block_of b.lines.items };

    ghost size = { block_size };

    ghost use Rattle.std.proofs.Common.{arith};
    ghost use Rattle.plc_lang.specs.Falls.{lines_fall};

    ghost size_decreases = { λ a h. omega (arith, lines_fall a.lines.items) };
}

impl Block {
    /// The block of these lines. It takes no memory.
    pub fn new(lines: Vec<Line>) -> Block
        ensures { result ≡ block_of lines.items }
    {
        Block { lines }
    }

    /// The lines in order.
    pub fn lines(&self) -> &[Line]
        ensures { block_of result.now ≡ self.now }
    {
        &self.lines
    }
}
