// What an outline is made of: its depth, and the literals and the quantified names of its clauses.
ghost use Rattle.plc_syntax.specs.Syntax.{kinds};
ghost use Rattle.plc_syntax.specs.Views.{name_or_none, number_or_none, term_tree, flag_tree, literal_tree};
ghost use Rattle.plc_syntax.specs.Views.{placed_as, bound_tree};
ghost use Rattle.plc_syntax.specs.Forms.{term_of, equality_of, retired_of, marked_of, flag_of, equation_of, literal_of};
ghost use Rattle.plc_syntax.specs.Forms.{or_literal_of, second_of, all_of, bound_of, depth_of};
ghost use Rattle.plc_syntax.specs.Answers.{Gives};

use crate::form::{Bound, Flag, Literal, Name, Placed, Term};
use crate::front::{
    Front, Read, at_front, name_and_at, name_at, number_at, symbol_at, syntax_fault, word_at,
};
use crate::rest::Rest;
use crate::statement::{place_at, place_of_name_at};
use crate::{form, in_turn};
use plc_lex::{Keyword, Symbol};

/// A side of an equation.
fn term_at<'a>(rest: Rest<'a>) -> Read<'a, Term<'a>>
    ensures { Gives term_tree result (term_of rest.entry.at (kinds rest.entry.tokens.now)) }
{
    match at_front(rest) {
        (Front::Word(Keyword::Null), after) => Ok((Term::Null(rest.at), after)),
        (Front::Number(value), after) => Ok((Term::Number(Placed { at: rest.at, value }), after)),
        (Front::Word(Keyword::Me), after) => Ok((Term::Me(rest.at), after)),
        (Front::Word(Keyword::None), after) => Ok((Term::None(rest.at), after)),
        (Front::Name(value), after) =>
            form!(Term::Place(place); place = place_of_name_at(Placed { at: rest.at, value }, after)),
        _ => Err(syntax_fault(rest)),
    }
}

/// What stands between the sides, and whether it says that they are equal.
fn equality_at<'a>(rest: Rest<'a>) -> Read<'a, bool>
    ensures { Gives (λ b. b) result (equality_of rest.entry.at (kinds rest.entry.tokens.now)) }
{
    match at_front(rest) {
        (Front::Symbol(Symbol::Equal), after) => Ok((true, after)),
        (Front::Symbol(Symbol::Unequal), after) => Ok((false, after)),
        _ => Err(syntax_fault(rest)),
    }
}

/// "retired" of a name, from after its word.
fn retired_at<'a>(rest: Rest<'a>) -> Read<'a, Flag<'a>>
    ensures { Gives flag_tree result (retired_of rest.entry.at (kinds rest.entry.tokens.now)) }
{
    in_turn!(
        after = symbol_at(rest, Symbol::OpenParen);
        form!(Flag::Retired(name); name = name_and_at(after, Symbol::CloseParen))
    )
}

/// "marked" of a place, from after its word.
fn marked_at<'a>(rest: Rest<'a>) -> Read<'a, Flag<'a>>
    ensures { Gives flag_tree result (marked_of rest.entry.at (kinds rest.entry.tokens.now)) }
{
    in_turn!(
        after = symbol_at(rest, Symbol::OpenParen);
        form!(Flag::Marked(place); place = place_at(after), CloseParen)
    )
}

/// A flag.
fn flag_at<'a>(rest: Rest<'a>) -> Read<'a, Flag<'a>>
    ensures { Gives flag_tree result (flag_of rest.entry.at (kinds rest.entry.tokens.now)) }
{
    match at_front(rest) {
        (Front::Word(Keyword::Retired), after) => retired_at(after),
        (Front::Word(Keyword::Marked), after) => marked_at(after),
        _ => Err(syntax_fault(rest)),
    }
}

/// An equation or an inequation.
fn equation_at<'a>(rest: Rest<'a>) -> Read<'a, Literal<'a>>
    ensures { Gives literal_tree result (equation_of rest.entry.at (kinds rest.entry.tokens.now)) }
{
    in_turn!(
        (left, after) = term_at(rest);
        (is_equal, after) = equality_at(after);
        form!(Literal::Equation(left, is_equal, right); right = term_at(after))
    )
}

/// A literal.
pub fn literal_at<'a>(rest: Rest<'a>) -> Read<'a, Literal<'a>>
    ensures { Gives literal_tree result (literal_of rest.entry.at (kinds rest.entry.tokens.now)) }
{
    match at_front(rest) {
        (Front::Word(Keyword::Not), after) => form!(Literal::Not(flag); flag = flag_at(after)),
        (Front::Word(Keyword::Retired), after) =>
            form!(Literal::Flag(flag); flag = retired_at(after)),
        (Front::Word(Keyword::Marked), after) =>
            form!(Literal::Flag(flag); flag = marked_at(after)),
        _ => equation_at(rest),
    }
}

/// A further literal, with its "or".
pub fn or_literal_at<'a>(rest: Rest<'a>) -> Read<'a, Placed<Literal<'a>>>
    ensures { Gives (placed_as literal_tree) result (or_literal_of rest.entry.at (kinds rest.entry.tokens.now)) }
{
    in_turn!(
        after = word_at(rest, Keyword::Or);
        form!(Placed { at: after.at, value }; value = literal_at(after))
    )
}

/// A second quantified name, which may be left out.
fn second_at<'a>(rest: Rest<'a>) -> Read<'a, Option<Name<'a>>>
    ensures { Gives name_or_none result (second_of rest.entry.at (kinds rest.entry.tokens.now)) }
{
    match at_front(rest) {
        (Front::Symbol(Symbol::Comma), after) => form!(Some(name); name = name_at(after)),
        _ => Ok((None, rest)),
    }
}

/// One or two quantified names, from after "all".
fn all_at<'a>(rest: Rest<'a>) -> Read<'a, Bound<'a>>
    ensures { Gives bound_tree result (all_of rest.entry.at (kinds rest.entry.tokens.now)) }
{
    in_turn!(
        (name, after) = name_at(rest);
        form!(Bound::All(name, second); second = second_at(after), Colon)
    )
}

/// The quantified names of a clause, which may be left out.
pub fn bound_at<'a>(rest: Rest<'a>) -> Read<'a, Bound<'a>>
    ensures { Gives bound_tree result (bound_of rest.entry.at (kinds rest.entry.tokens.now)) }
{
    match at_front(rest) {
        (Front::Word(Keyword::All), after) => all_at(after),
        _ => Ok((Bound::None, rest)),
    }
}

/// The depth, which may be left out.
pub fn depth_at<'a>(rest: Rest<'a>) -> Read<'a, Option<Placed<u32>>>
    ensures { Gives number_or_none result (depth_of rest.entry.at (kinds rest.entry.tokens.now)) }
{
    match at_front(rest) {
        (Front::Word(Keyword::Depth), after) =>
            form!(Some(depth); depth = number_at(after), Semicolon),
        _ => Ok((None, rest)),
    }
}
