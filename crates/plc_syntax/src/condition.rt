// Tests and the conditions of `if`.
ghost use Rattle.plc_syntax.specs.Syntax.{kinds};
ghost use Rattle.plc_syntax.specs.Views.{name_tree, name_or_none, relation_tree, test_tree, cas_tree, condition_tree};
ghost use Rattle.plc_syntax.specs.Forms.{comparison_of, compared_of, test_of, name_or_null_of, cas_of};
ghost use Rattle.plc_syntax.specs.Forms.{cas_condition_of, named_condition_of, condition_of};
ghost use Rattle.plc_syntax.specs.Answers.{Gives};

use crate::form::{Cas, Condition, Name, Placed, Relation, Test};
use crate::front::{
    Front, Read, at_front, name_and_at, name_at, symbol_at, syntax_fault, word_if_at,
};
use crate::rest::Rest;
use crate::statement::{atom_at, place_at};
use crate::{form, in_turn};
use plc_lex::{Keyword, Symbol};

/// What stands between the sides of a test.
fn relation_at<'a>(rest: Rest<'a>) -> Read<'a, Relation>
    ensures { Gives relation_tree result (comparison_of rest.entry.at (kinds rest.entry.tokens.now)) }
{
    match at_front(rest) {
        (Front::Symbol(Symbol::Equal), after) => Ok((Relation::Same, after)),
        (Front::Symbol(Symbol::Unequal), after) => Ok((Relation::Other, after)),
        (Front::Symbol(Symbol::Less), after) => Ok((Relation::Less, after)),
        (Front::Symbol(Symbol::AtLeast), after) => Ok((Relation::NotLess, after)),
        _ => Err(syntax_fault(rest)),
    }
}

/// A comparison, from after its name.
fn compared_at<'a>(name: Name<'a>, rest: Rest<'a>) -> Read<'a, Test<'a>>
    ensures { Gives test_tree result (compared_of (name_tree name.entry) rest.entry.at (kinds rest.entry.tokens.now)) }
{
    in_turn!(
        (value, after) = relation_at(rest);
        form!(Test::Compares { name, relation: Placed { at: rest.at, value }, atom }; atom = atom_at(after))
    )
}

/// A test.
pub fn test_at<'a>(rest: Rest<'a>) -> Read<'a, Test<'a>>
    ensures { Gives test_tree result (test_of rest.entry.at (kinds rest.entry.tokens.now)) }
{
    match at_front(rest) {
        (Front::Name(value), after) => compared_at(Placed { at: rest.at, value }, after),
        (Front::Word(Keyword::Marked), after) => form!(Test::Marked(name); name = name_at(after)),
        (Front::Word(Keyword::Unmarked), after) =>
            form!(Test::Unmarked(name); name = name_at(after)),
        _ => Err(syntax_fault(rest)),
    }
}

/// A name, or `null`.
fn name_or_null_at<'a>(rest: Rest<'a>) -> Read<'a, Option<Name<'a>>>
    ensures { Gives name_or_none result (name_or_null_of rest.entry.at (kinds rest.entry.tokens.now)) }
{
    match at_front(rest) {
        (Front::Name(value), after) => Ok((Some(Placed { at: rest.at, value }), after)),
        (Front::Word(Keyword::Null), after) => Ok((None, after)),
        _ => Err(syntax_fault(rest)),
    }
}

/// The three pointers of a cas and the parenthesis after them.
fn cas_at<'a>(is_active: bool, rest: Rest<'a>) -> Read<'a, Cas<'a>>
    ensures { Gives cas_tree result (cas_of is_active rest.entry.at (kinds rest.entry.tokens.now)) }
{
    in_turn!(
        (name, after) = name_and_at(rest, Symbol::Comma);
        (old, after) = name_or_null_at(after);
        after = symbol_at(after, Symbol::Comma);
        form!(Cas { is_active, name, old, new }; new = name_or_null_at(after), CloseParen)
    )
}

/// A cas, from after its word.
fn cas_condition_at<'a>(rest: Rest<'a>) -> Read<'a, Condition<'a>>
    ensures { Gives condition_tree result (cas_condition_of rest.entry.at (kinds rest.entry.tokens.now)) }
{
    in_turn!(
        after = symbol_at(rest, Symbol::OpenParen);
        (is_active, after) = word_if_at(after, Keyword::Active);
        form!(Condition::Cas(cas); cas = cas_at(is_active, after))
    )
}

/// A condition, from after its name.
fn named_condition_at<'a>(name: Name<'a>, rest: Rest<'a>) -> Read<'a, Condition<'a>>
    ensures { Gives condition_tree result
        (named_condition_of (name_tree name.entry) rest.entry.at (kinds rest.entry.tokens.now)) }
{
    match at_front(rest) {
        (Front::Symbol(Symbol::Refresh), after) =>
            form!(Condition::Refresh(name, place); place = place_at(after)),
        _ => form!(Condition::Test(test); test = compared_at(name, rest)),
    }
}

/// The condition of an `if`.
pub fn condition_at<'a>(rest: Rest<'a>) -> Read<'a, Condition<'a>>
    ensures { Gives condition_tree result (condition_of rest.entry.at (kinds rest.entry.tokens.now)) }
{
    match at_front(rest) {
        (Front::Word(Keyword::Cas), after) => cas_condition_at(after),
        (Front::Name(value), after) => named_condition_at(Placed { at: rest.at, value }, after),
        _ => form!(Condition::Test(test); test = test_at(rest)),
    }
}
