// An operation.
ghost use Rattle.plc_syntax.specs.Syntax.{kinds};
ghost use Rattle.plc_syntax.specs.Answers.{Gives};
ghost use Rattle.plc_tree.specs.Forms.{parameters_of, op_tail_of, op_of};
ghost use Rattle.plc_tree.specs.FileViews.{parameters_names, operation_tree};

use crate::block::block_at;
use crate::list::{ended_list_at, list_at};
use crate::tree::Block;
use plc_base::Items;
use plc_lex::{Keyword, Symbol};
use plc_syntax::{
    Declaration, Front, Name, Placed, Read, Rest, at_front, form, in_turn, name_and_at, symbol_at,
    syntax_fault,
};
use std::alloc::Global;

/// The parameters of an operation, of which there may be none.
#[derive(Drop)]
pub enum Parameters<'a> {
    /// None.
    None,
    /// The first, and the others.
    Some(Name<'a>, Items<Name<'a>>),
}

/// An operation.
#[derive(Drop)]
pub struct Operation<'a> {
    /// How it is called.
    pub name: Name<'a>,
    /// Its parameters.
    pub parameters: Parameters<'a>,
    /// What it declares before its statements.
    pub locals: Items<Declaration<'a>>,
    /// Its statements.
    pub body: Block<'a>,
}

/// The parameters of an operation, and the closing parenthesis.
fn parameters_at<'a>(alloc: Global, most: usize, rest: Rest<'a>) -> Read<'a, Parameters<'a>>
    ensures { Gives parameters_names result (parameters_of most rest.entry.at (kinds rest.entry.tokens.now)) }
{
    match at_front(rest) {
        (Front::Name(value), after) => form!(
            Parameters::Some(Placed { at: rest.at, value }, others);
            others = ended_list_at(alloc, most, after, Symbol::CloseParen)
        ),
        (Front::Symbol(Symbol::CloseParen), after) => Ok((Parameters::None, after)),
        _ => Err(syntax_fault(rest)),
    }
}

/// An operation, from after its word.
fn op_tail_at<'a>(alloc: Global, most: usize, rest: Rest<'a>) -> Read<'a, Operation<'a>>
    ensures { Gives operation_tree result (op_tail_of most rest.entry.at (kinds rest.entry.tokens.now)) }
{
    in_turn!(
        (name, after) = name_and_at(rest, Symbol::OpenParen);
        (parameters, after) = parameters_at(alloc, most, after);
        after = symbol_at(after, Symbol::OpenBrace), dropping parameters;
        (locals, after) = list_at(alloc, most, after), dropping parameters;
        form!(
            Operation { name, parameters, locals, body };
            body = block_at(alloc, most, after), dropping parameters, locals
        )
    )
}

/// An operation.
pub fn op_at<'a>(alloc: Global, most: usize, rest: Rest<'a>) -> Read<'a, Operation<'a>>
    ensures { Gives operation_tree result (op_of most rest.entry.at (kinds rest.entry.tokens.now)) }
{
    match at_front(rest) {
        (Front::Word(Keyword::Op), after) => op_tail_at(alloc, most, after),
        _ => Err(syntax_fault(rest)),
    }
}
