// What a file declares before its operations: fields, shared pointers, functions of the reclaimer, what
// it watches, and the assignments of the init block.
ghost use Rattle.plc_syntax.specs.Syntax.{kinds};
ghost use Rattle.plc_syntax.specs.Views.{field_tree, function_tree, watch_tree, shared_name, watched_tree, set_tree};
ghost use Rattle.plc_syntax.specs.Views.{initial_tree, name_tree};
ghost use Rattle.plc_syntax.specs.Forms.{field_of, shared_of, function_of, hazard_of, epoch_of};
ghost use Rattle.plc_syntax.specs.Forms.{scheme_of, watch_of, set_field_of, set_of_name, initial_of};
ghost use Rattle.plc_syntax.specs.Answers.{Gives};

use crate::form::{Declaration, Function, Initial, Name, Placed, Set, Shared, Watch};
use crate::front::{
    Front, Read, at_front, name_and_at, symbol_at, syntax_fault, word_at, word_if_at,
};
use crate::rest::Rest;
use crate::statement::{atom_at, ghost_set_at, value_at};
use crate::{form, in_turn};
use plc_lex::{Keyword, Symbol};

/// A field of the struct or a local.
pub fn field_at<'a>(rest: Rest<'a>) -> Read<'a, Declaration<'a>>
    ensures { Gives field_tree result (field_of rest.entry.at (kinds rest.entry.tokens.now)) }
{
    match at_front(rest) {
        (Front::Word(Keyword::Ptr), after) =>
            form!(Declaration::Pointer(name); name = name_and_at(after, Symbol::Semicolon)),
        (Front::Word(Keyword::Data), after) =>
            form!(Declaration::Data(name); name = name_and_at(after, Symbol::Semicolon)),
        _ => Err(syntax_fault(rest)),
    }
}

/// A shared pointer.
pub fn shared_at<'a>(rest: Rest<'a>) -> Read<'a, Shared<'a>>
    ensures { Gives shared_name result (shared_of rest.entry.at (kinds rest.entry.tokens.now)) }
{
    in_turn!(
        after = word_at(rest, Keyword::Shared);
        form!(Shared { name }; name = name_and_at(after, Symbol::Semicolon))
    )
}

/// A function of the reclaimer.
pub fn function_at<'a>(rest: Rest<'a>) -> Read<'a, Function<'a>>
    ensures { Gives function_tree result (function_of rest.entry.at (kinds rest.entry.tokens.now)) }
{
    in_turn!(
        after = word_at(rest, Keyword::Call);
        (name, after) = name_and_at(after, Symbol::OpenParen);
        form!(
            Function { name, takes_pointer };
            takes_pointer = word_if_at(after, Keyword::Ptr), CloseParen, Semicolon
        )
    )
}

/// The function of hazard pointers, from after its word.
fn hazard_at<'a>(rest: Rest<'a>) -> Read<'a, Watch<'a>>
    ensures { Gives watch_tree result (hazard_of rest.entry.at (kinds rest.entry.tokens.now)) }
{
    in_turn!(
        after = symbol_at(rest, Symbol::OpenParen);
        form!(Watch::Hazard(function); function = name_and_at(after, Symbol::CloseParen), Semicolon)
    )
}

/// The two functions of epochs, from after the word.
fn epoch_at<'a>(rest: Rest<'a>) -> Read<'a, Watch<'a>>
    ensures { Gives watch_tree result (epoch_of rest.entry.at (kinds rest.entry.tokens.now)) }
{
    in_turn!(
        after = symbol_at(rest, Symbol::OpenParen);
        (enter, after) = name_and_at(after, Symbol::Comma);
        form!(Watch::Epoch(enter, leave); leave = name_and_at(after, Symbol::CloseParen), Semicolon)
    )
}

/// What is watched, from after "use".
fn scheme_at<'a>(rest: Rest<'a>) -> Read<'a, Watch<'a>>
    ensures { Gives watch_tree result (scheme_of rest.entry.at (kinds rest.entry.tokens.now)) }
{
    match at_front(rest) {
        (Front::Word(Keyword::Hazard), after) => hazard_at(after),
        (Front::Word(Keyword::Epoch), after) => epoch_at(after),
        _ => Err(syntax_fault(rest)),
    }
}

/// What the reclaimer watches, which may be left out.
pub fn watch_at<'a>(rest: Rest<'a>) -> Read<'a, Option<Watch<'a>>>
    ensures { Gives watched_tree result (watch_of rest.entry.at (kinds rest.entry.tokens.now)) }
{
    match at_front(rest) {
        (Front::Word(Keyword::Use), after) => form!(Some(watch); watch = scheme_at(after)),
        _ => Ok((None, rest)),
    }
}

/// An assignment to a field, from after the dot.
fn set_field_at<'a>(name: Name<'a>, rest: Rest<'a>) -> Read<'a, Set<'a>>
    ensures { Gives set_tree result (set_field_of (name_tree name.entry) rest.entry.at (kinds rest.entry.tokens.now)) }
{
    in_turn!(
        (field, after) = name_and_at(rest, Symbol::Assign);
        form!(Set::Field(name, field, atom); atom = atom_at(after))
    )
}

/// An assignment, from after its first name.
fn set_of_name_at<'a>(name: Name<'a>, rest: Rest<'a>) -> Read<'a, Set<'a>>
    ensures { Gives set_tree result (set_of_name (name_tree name.entry) rest.entry.at (kinds rest.entry.tokens.now)) }
{
    match at_front(rest) {
        (Front::Symbol(Symbol::Assign), after) =>
            form!(Set::Name(name, value); value = value_at(after)),
        (Front::Symbol(Symbol::Dot), after) => set_field_at(name, after),
        _ => Err(syntax_fault(rest)),
    }
}

/// An assignment and its semicolon.
pub fn initial_at<'a>(rest: Rest<'a>) -> Read<'a, Initial<'a>>
    ensures { Gives initial_tree result (initial_of rest.entry.at (kinds rest.entry.tokens.now)) }
{
    match at_front(rest) {
        (Front::Name(value), after) =>
            form!(Initial::Set(set); set = set_of_name_at(Placed { at: rest.at, value }, after), Semicolon),
        (Front::Word(Keyword::Ghost), after) =>
            form!(Initial::Ghost(set); set = ghost_set_at(after), Semicolon),
        _ => Err(syntax_fault(rest)),
    }
}
