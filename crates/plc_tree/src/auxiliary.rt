// Auxiliary fields, and the init block.
ghost use Rattle.plc_syntax.specs.Syntax.{kinds};
ghost use Rattle.plc_syntax.specs.Answers.{Gives};
ghost use Rattle.plc_tree.specs.Forms.{values_of, ghost_kind_of, ghost_tail_of, ghost_of, init_of};
ghost use Rattle.plc_tree.specs.FormViews.{kind_tree, auxiliary_tree, starts_tree};

use crate::form::{Auxiliary, AuxiliaryKind};
use crate::list::{braced_list_at, ended_list_at};
use plc_base::Items;
use plc_lex::{Keyword, Symbol};
use plc_syntax::{
    Front, Initial, Placed, Read, Rest, at_front, form, in_turn, name_at, symbol_at, syntax_fault,
};
use std::alloc::Global;

/// The values of an auxiliary field, from after the opening brace.
fn values_at<'a>(alloc: Global, most: usize, rest: Rest<'a>) -> Read<'a, AuxiliaryKind<'a>>
    ensures { Gives kind_tree result (values_of most rest.entry.at (kinds rest.entry.tokens.now)) }
{
    in_turn!(
        (first, after) = name_at(rest);
        form!(
            AuxiliaryKind::OneOf(first, others);
            others = ended_list_at(alloc, most, after, Symbol::CloseBrace)
        )
    )
}

/// What an auxiliary field holds.
fn ghost_kind_at<'a>(alloc: Global, most: usize, rest: Rest<'a>) -> Read<'a, AuxiliaryKind<'a>>
    ensures { Gives kind_tree result (ghost_kind_of most rest.entry.at (kinds rest.entry.tokens.now)) }
{
    match at_front(rest) {
        (Front::Symbol(Symbol::OpenBrace), after) => values_at(alloc, most, after),
        (Front::Word(Keyword::Thread), after) => Ok((AuxiliaryKind::OfThreads, after)),
        _ => Err(syntax_fault(rest)),
    }
}

/// An auxiliary field, from after its word.
fn ghost_tail_at<'a>(alloc: Global, most: usize, rest: Rest<'a>) -> Read<'a, Auxiliary<'a>>
    ensures { Gives auxiliary_tree result (ghost_tail_of most rest.entry.at (kinds rest.entry.tokens.now)) }
{
    in_turn!(
        (name, after) = name_at(rest);
        (kind, after) = ghost_kind_at(alloc, most, after);
        after = symbol_at(after, Symbol::Semicolon), dropping kind;
        Ok((Auxiliary { name, kind }, after))
    )
}

/// An auxiliary field.
pub fn ghost_at<'a>(alloc: Global, most: usize, rest: Rest<'a>) -> Read<'a, Auxiliary<'a>>
    ensures { Gives auxiliary_tree result (ghost_of most rest.entry.at (kinds rest.entry.tokens.now)) }
{
    match at_front(rest) {
        (Front::Word(Keyword::Ghost), after) => ghost_tail_at(alloc, most, after),
        _ => Err(syntax_fault(rest)),
    }
}

/// The init block, which may be left out.
pub fn init_at<'a>(
    alloc: Global,
    most: usize,
    rest: Rest<'a>,
) -> Read<'a, Option<Items<Placed<Initial<'a>>>>>
    ensures { Gives starts_tree result (init_of most rest.entry.at (kinds rest.entry.tokens.now)) }
{
    match at_front(rest) {
        (Front::Word(Keyword::Init), after) =>
            form!(Some(sets); sets = braced_list_at(alloc, most, after)),
        _ => Ok((None, rest)),
    }
}
