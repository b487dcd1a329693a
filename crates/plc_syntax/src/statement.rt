// What statements are made of: places, what is put into names, fields and auxiliary fields, primitives,
// and what a call holds besides its name.
ghost use Rattle.plc_syntax.specs.Syntax.{kinds};
ghost use Rattle.plc_syntax.specs.Views.{place_tree, value_tree, atom_tree, ghost_value_tree, primitive_tree};
ghost use Rattle.plc_syntax.specs.Views.{ghost_set_tree, name_tree, name_or_none, argument_tree};
ghost use Rattle.plc_syntax.specs.Forms.{place_of_name, place_of, value_of, atom_of, ghost_value_of, field_tail_of};
ghost use Rattle.plc_syntax.specs.Forms.{named_tail_of, ghost_set_of, primitive_of, primitive_line_of, argument_of};
ghost use Rattle.plc_syntax.specs.Forms.{during_of};
ghost use Rattle.plc_syntax.specs.Answers.{Gives};

use crate::condition::test_at;
use crate::form::{
    Argument, Atom, GhostSet, GhostValue, Name, Place, Placed, Primitive, Refresh, Set, Value,
};
use crate::front::{Front, Read, at_front, name_and_at, name_at, syntax_fault};
use crate::rest::Rest;
use crate::{form, in_turn};
use plc_lex::{Keyword, Symbol};

/// A place, from after its name.
pub fn place_of_name_at<'a>(name: Name<'a>, rest: Rest<'a>) -> Read<'a, Place<'a>>
    ensures { Gives place_tree result
        (place_of_name (name_tree name.entry) rest.entry.at (kinds rest.entry.tokens.now)) }
{
    match at_front(rest) {
        (Front::Symbol(Symbol::Dot), after) =>
            form!(Place { name, field: Some(field) }; field = name_at(after)),
        _ => Ok((Place { name, field: None }, rest)),
    }
}

/// A name, or a field of what it points to.
pub fn place_at<'a>(rest: Rest<'a>) -> Read<'a, Place<'a>>
    ensures { Gives place_tree result (place_of rest.entry.at (kinds rest.entry.tokens.now)) }
{
    in_turn!(
        (name, after) = name_at(rest);
        place_of_name_at(name, after)
    )
}

/// What is put into a name.
pub fn value_at<'a>(rest: Rest<'a>) -> Read<'a, Value<'a>>
    ensures { Gives value_tree result (value_of rest.entry.at (kinds rest.entry.tokens.now)) }
{
    match at_front(rest) {
        (Front::Word(Keyword::Null), after) => Ok((Value::Null(rest.at), after)),
        (Front::Word(Keyword::New), after) => Ok((Value::New(rest.at), after)),
        (Front::Number(value), after) => Ok((Value::Number(Placed { at: rest.at, value }), after)),
        (Front::Word(Keyword::Mark), after) =>
            form!(Value::Mark(rest.at, name); name = name_at(after)),
        (Front::Word(Keyword::Unmark), after) =>
            form!(Value::Unmark(rest.at, name); name = name_at(after)),
        (Front::Name(value), after) =>
            form!(Value::Place(place); place = place_of_name_at(Placed { at: rest.at, value }, after)),
        _ => Err(syntax_fault(rest)),
    }
}

/// What is put into a field, or compared with a name.
pub fn atom_at<'a>(rest: Rest<'a>) -> Read<'a, Atom<'a>>
    ensures { Gives atom_tree result (atom_of rest.entry.at (kinds rest.entry.tokens.now)) }
{
    match at_front(rest) {
        (Front::Word(Keyword::Null), after) => Ok((Atom::Null(rest.at), after)),
        (Front::Number(value), after) => Ok((Atom::Number(Placed { at: rest.at, value }), after)),
        (Front::Name(value), after) => Ok((Atom::Name(Placed { at: rest.at, value }), after)),
        _ => Err(syntax_fault(rest)),
    }
}

/// What is put into an auxiliary field.
fn ghost_value_at<'a>(rest: Rest<'a>) -> Read<'a, GhostValue<'a>>
    ensures { Gives ghost_value_tree result (ghost_value_of rest.entry.at (kinds rest.entry.tokens.now)) }
{
    match at_front(rest) {
        (Front::Name(value), after) => Ok((GhostValue::Name(Placed { at: rest.at, value }), after)),
        (Front::Word(Keyword::Me), after) => Ok((GhostValue::Me(rest.at), after)),
        (Front::Word(Keyword::None), after) => Ok((GhostValue::None(rest.at), after)),
        _ => Err(syntax_fault(rest)),
    }
}

/// What follows a name and a dot on the left.
fn field_tail_at<'a>(name: Name<'a>, rest: Rest<'a>) -> Read<'a, Primitive<'a>>
    ensures { Gives primitive_tree result
        (field_tail_of (name_tree name.entry) rest.entry.at (kinds rest.entry.tokens.now)) }
{
    in_turn!(
        (field, rest) = name_at(rest);
        match at_front(rest) {
            (Front::Symbol(Symbol::Assign), after) =>
                form!(Primitive::Set(Set::Field(name, field, atom)); atom = atom_at(after)),
            (Front::Symbol(Symbol::Refresh), after) =>
                form!(Primitive::Refresh(Refresh::Field(name, field, from)); from = name_at(after)),
            _ => Err(syntax_fault(rest)),
        }
    )
}

/// What follows a name on the left.
pub fn named_tail_at<'a>(name: Name<'a>, rest: Rest<'a>) -> Read<'a, Primitive<'a>>
    ensures { Gives primitive_tree result
        (named_tail_of (name_tree name.entry) rest.entry.at (kinds rest.entry.tokens.now)) }
{
    match at_front(rest) {
        (Front::Symbol(Symbol::Assign), after) =>
            form!(Primitive::Set(Set::Name(name, value)); value = value_at(after)),
        (Front::Symbol(Symbol::Refresh), after) =>
            form!(Primitive::Refresh(Refresh::Name(name, place)); place = place_at(after)),
        (Front::Symbol(Symbol::Dot), after) => field_tail_at(name, after),
        _ => Err(syntax_fault(rest)),
    }
}

/// An assignment to an auxiliary field, from after its word.
pub fn ghost_set_at<'a>(rest: Rest<'a>) -> Read<'a, GhostSet<'a>>
    ensures { Gives ghost_set_tree result (ghost_set_of rest.entry.at (kinds rest.entry.tokens.now)) }
{
    in_turn!(
        (name, after) = name_and_at(rest, Symbol::Dot);
        (field, after) = name_and_at(after, Symbol::Assign);
        form!(GhostSet { name, field, value }; value = ghost_value_at(after))
    )
}

/// A primitive, without its semicolon.
fn primitive_at<'a>(rest: Rest<'a>) -> Read<'a, Primitive<'a>>
    ensures { Gives primitive_tree result (primitive_of rest.entry.at (kinds rest.entry.tokens.now)) }
{
    match at_front(rest) {
        (Front::Name(value), after) => named_tail_at(Placed { at: rest.at, value }, after),
        (Front::Word(Keyword::Ghost), after) =>
            form!(Primitive::Ghost(set); set = ghost_set_at(after)),
        (Front::Word(Keyword::Active), after) =>
            form!(Primitive::Active(name); name = name_at(after)),
        (Front::Word(Keyword::Assume), after) =>
            form!(Primitive::Assume(test); test = test_at(after)),
        (Front::Word(Keyword::Skip), after) => Ok((Primitive::Skip, after)),
        _ => Err(syntax_fault(rest)),
    }
}

/// A primitive and its semicolon.
pub fn primitive_line_at<'a>(rest: Rest<'a>) -> Read<'a, Primitive<'a>>
    ensures { Gives primitive_tree result (primitive_line_of rest.entry.at (kinds rest.entry.tokens.now)) }
{
    form!(primitive; primitive = primitive_at(rest), Semicolon)
}

/// What stands between the parentheses of a call.
pub fn argument_at<'a>(rest: Rest<'a>) -> Read<'a, Argument<'a>>
    ensures { Gives argument_tree result (argument_of rest.entry.at (kinds rest.entry.tokens.now)) }
{
    match at_front(rest) {
        (Front::Word(Keyword::Null), after) => Ok((Argument::Null, after)),
        (Front::Name(value), after) => Ok((Argument::Name(Placed { at: rest.at, value }), after)),
        (Front::Word(Keyword::Active), after) =>
            form!(Argument::Active(name); name = name_at(after)),
        _ => Ok((Argument::None, rest)),
    }
}

/// The label between a call and its return, which may be left out.
pub fn during_at<'a>(rest: Rest<'a>) -> Read<'a, Option<Name<'a>>>
    ensures { Gives name_or_none result (during_of rest.entry.at (kinds rest.entry.tokens.now)) }
{
    match at_front(rest) {
        (Front::Word(Keyword::During), after) => form!(Some(name); name = name_at(after)),
        _ => Ok((None, rest)),
    }
}
