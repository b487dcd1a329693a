// Clauses of an outline.
ghost use Rattle.plc_syntax.specs.Syntax.{kinds};
ghost use Rattle.plc_syntax.specs.Answers.{Gives};
ghost use Rattle.plc_tree.specs.Forms.{clause_of};
ghost use Rattle.plc_tree.specs.FormViews.{clause_tree};

use crate::form::Clause;
use crate::list::ended_list_at;
use plc_lex::Symbol;
use plc_syntax::{Read, Rest, bound_at, form, in_turn, literal_at};
use std::alloc::Global;

/// A clause and its semicolon.
pub fn clause_at<'a>(alloc: Global, most: usize, rest: Rest<'a>) -> Read<'a, Clause<'a>>
    ensures { Gives clause_tree result (clause_of most rest.entry.at (kinds rest.entry.tokens.now)) }
{
    in_turn!(
        (bound, after) = bound_at(rest);
        (first, after) = literal_at(after);
        form!(
            Clause { bound, first, others };
            others = ended_list_at(alloc, most, after, Symbol::Semicolon)
        )
    )
}
