// Statements that hold no blocks of statements, and the condition of an `if`.
ghost use Rattle.plc_syntax.specs.Syntax.{kinds};
ghost use Rattle.plc_syntax.specs.Views.{name_tree, condition_tree};
ghost use Rattle.plc_syntax.specs.Answers.{Gives};
ghost use Rattle.plc_tree.specs.Forms.{call_of, named_statement_of, atomic_of, label_of, guard_of, step_of};
ghost use Rattle.plc_tree.specs.Views.{statement_tree};

use crate::list::braced_list_at;
use crate::tree::Stmt;
use plc_lex::Symbol;
use plc_syntax::{
    Condition, Front, Name, Read, Rest, argument_at, at_front, condition_at, during_at, form,
    in_turn, name_and_at, named_tail_at, primitive_line_at, symbol_at,
};
use std::alloc::Global;

/// A call, from after its opening parenthesis.
fn call_at<'a>(name: Name<'a>, rest: Rest<'a>) -> Read<'a, Stmt<'a>>
    ensures { Gives statement_tree result (call_of (name_tree name.entry) rest.entry.at (kinds rest.entry.tokens.now)) }
{
    in_turn!(
        (argument, after) = argument_at(rest);
        after = symbol_at(after, Symbol::CloseParen);
        form!(Stmt::Call { name, argument, during }; during = during_at(after), Semicolon)
    )
}

/// A call or a primitive, from after the name with which it begins.
pub fn named_statement_at<'a>(name: Name<'a>, rest: Rest<'a>) -> Read<'a, Stmt<'a>>
    ensures { Gives statement_tree result
        (named_statement_of (name_tree name.entry) rest.entry.at (kinds rest.entry.tokens.now)) }
{
    match at_front(rest) {
        (Front::Symbol(Symbol::OpenParen), after) => call_at(name, after),
        _ => form!(Stmt::Primitive(primitive); primitive = named_tail_at(name, rest), Semicolon),
    }
}

/// An atomic block, from after its word; at most so many primitives.
pub fn atomic_at<'a>(alloc: Global, most: usize, rest: Rest<'a>) -> Read<'a, Stmt<'a>>
    ensures { Gives statement_tree result (atomic_of most rest.entry.at (kinds rest.entry.tokens.now)) }
{
    form!(Stmt::Atomic(primitives); primitives = braced_list_at(alloc, most, rest))
}

/// A label, from after its word.
pub fn label_at<'a>(rest: Rest<'a>) -> Read<'a, Stmt<'a>>
    ensures { Gives statement_tree result (label_of rest.entry.at (kinds rest.entry.tokens.now)) }
{
    form!(Stmt::Label(name); name = name_and_at(rest, Symbol::Semicolon))
}

/// The condition of an `if` and its parentheses.
pub fn guard_at<'a>(rest: Rest<'a>) -> Read<'a, Condition<'a>>
    ensures { Gives condition_tree result (guard_of rest.entry.at (kinds rest.entry.tokens.now)) }
{
    in_turn!(
        after = symbol_at(rest, Symbol::OpenParen);
        form!(condition; condition = condition_at(after), CloseParen)
    )
}

/// A primitive as a statement.
pub fn primitive_statement_at<'a>(rest: Rest<'a>) -> Read<'a, Stmt<'a>>
    ensures { Gives statement_tree result (step_of rest.entry.at (kinds rest.entry.tokens.now)) }
{
    form!(Stmt::Primitive(primitive); primitive = primitive_line_at(rest))
}
