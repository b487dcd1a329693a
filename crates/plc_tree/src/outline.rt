// Items, and the outline.
ghost use Rattle.std.specs.Prelude.{◌≡◌, ◌+◌, length, IfOk, IfErr};
ghost use Rattle.plc_syntax.specs.Syntax.{kinds};
ghost use Rattle.plc_syntax.specs.Stops.{AreOfOutline};
ghost use Rattle.plc_syntax.specs.Answers.{Gives};
ghost use Rattle.plc_tree.specs.Forms.{over_of, at_of, item_of, outline_tail_of, outline_of, outlined_of};
ghost use Rattle.plc_tree.specs.FormViews.{item_tree, outline_tree, outlined_tree};
ghost use Rattle.plc_tree.specs.Whole.{OutlineStops};

use crate::clause::clause_at;
use crate::form::{Item, Outline};
use crate::list::ended_list_at;
use plc_lex::{Keyword, Symbol};
use plc_syntax::{
    Front, Read, Rest, at_front, depth_at, form, in_turn, name_and_at, name_at, symbol_at,
    syntax_fault, word_at,
};
use std::alloc::Global;

/// An item over an operation, from after its word.
fn over_item_at<'a>(alloc: Global, most: usize, rest: Rest<'a>) -> Read<'a, Item<'a>>
    ensures { Gives item_tree result (over_of most rest.entry.at (kinds rest.entry.tokens.now)) }
{
    in_turn!(
        (name, after) = name_and_at(rest, Symbol::Colon);
        form!(Item::Over(name, clause); clause = clause_at(alloc, most, after))
    )
}

/// An item at labels, from after its word.
fn at_item_at<'a>(alloc: Global, most: usize, rest: Rest<'a>) -> Read<'a, Item<'a>>
    ensures { Gives item_tree result (at_of most rest.entry.at (kinds rest.entry.tokens.now)) }
{
    in_turn!(
        (name, after) = name_at(rest);
        (others, after) = ended_list_at(alloc, most, after, Symbol::Colon);
        form!(
            Item::At(name, others, clause);
            clause = clause_at(alloc, most, after), dropping others
        )
    )
}

/// An item.
pub fn item_at<'a>(alloc: Global, most: usize, rest: Rest<'a>) -> Read<'a, Item<'a>>
    ensures { Gives item_tree result (item_of most rest.entry.at (kinds rest.entry.tokens.now)) }
{
    match at_front(rest) {
        (Front::Word(Keyword::Inv), after) =>
            form!(Item::Invariant(clause); clause = clause_at(alloc, most, after)),
        (Front::Word(Keyword::Over), after) => over_item_at(alloc, most, after),
        (Front::Word(Keyword::At), after) => at_item_at(alloc, most, after),
        _ => Err(syntax_fault(rest)),
    }
}

/// An outline, from after its word.
fn outline_tail_at<'a>(alloc: Global, most: usize, rest: Rest<'a>) -> Read<'a, Outline<'a>>
    ensures { Gives outline_tree result (outline_tail_of most rest.entry.at (kinds rest.entry.tokens.now)) }
{
    in_turn!(
        after = symbol_at(rest, Symbol::OpenBrace);
        (depth, after) = depth_at(after);
        form!(
            Outline { depth, items };
            items = ended_list_at(alloc, most, after, Symbol::CloseBrace)
        )
    )
}

/// An outline.
fn outline_at<'a>(alloc: Global, most: usize, rest: Rest<'a>) -> Read<'a, Outline<'a>>
    ensures { Gives outline_tree result (outline_of most rest.entry.at (kinds rest.entry.tokens.now)) }
{
    in_turn!(after = word_at(rest, Keyword::Outline); outline_tail_at(alloc, most, after))
}

/// The outline at the front of tokens, and what stands after its closing brace, whatever it is. Where
/// none stands there the fault is `Syntax`, at the least token with which none begins any more, or
/// after the last one where the tokens begin an outline.
pub fn outline_tree<'a>(alloc: Global, start: Rest<'a>) -> Read<'a, Outline<'a>>
    ensures tree { IfOk result (λ r. AreOfOutline (outline_tree r.0) start.entry.at (kinds start.entry.tokens.now)
        (kinds r.1.tokens.now)) }
    ensures after { IfOk result
        (λ r. r.1.at + length r.1.tokens.now ≡ start.entry.at + length start.entry.tokens.now) }
    ensures fault { IfErr result (OutlineStops start.entry.at (kinds start.entry.tokens.now)) }
{
    outline_at(alloc, start.tokens.len() + 1, start)
}

/// An outline, which may be left out.
pub fn outlined_at<'a>(alloc: Global, most: usize, rest: Rest<'a>) -> Read<'a, Option<Outline<'a>>>
    ensures { Gives outlined_tree result (outlined_of most rest.entry.at (kinds rest.entry.tokens.now)) }
{
    match at_front(rest) {
        (Front::Word(Keyword::Outline), after) =>
            form!(Some(outline); outline = outline_tail_at(alloc, most, after)),
        _ => Ok((None, rest)),
    }
}
