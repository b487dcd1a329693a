// Blocks, and the statements that hold blocks. Each statement takes a token, so fewer stand after and
// within one another than there are tokens: `most` is above that number, and ends the recursion. How
// deep blocks are nested is judged before, on the tokens, so that the recursion is 66 deep at most: the body of
// an operation, 64 blocks within it, and the one that stands too deep. Short blocks are many where a file
// is long, so each gives back the room that it doesn't need.
ghost use Rattle.std.specs.Prelude.{◌≡◌};
ghost use Rattle.plc_syntax.specs.Syntax.{kinds};
ghost use Rattle.plc_syntax.specs.Forms.{first_is};
ghost use Rattle.plc_syntax.specs.Answers.{Gives};
ghost use Rattle.plc_tree.specs.Forms.{is_statement_word, begins_statement, begins_or, braced_of, loop_of, else_of};
ghost use Rattle.plc_tree.specs.Forms.{if_of, or_block_of, ors_of, choose_of, statement_of, statements_of, block_of};
ghost use Rattle.plc_tree.specs.Views.{statement_tree, else_tree, ors_tree};

use crate::statement::{atomic_at, guard_at, label_at, named_statement_at, primitive_statement_at};
use crate::tree::{Block, Stmt};
use plc_lex::{Keyword, Symbol};
use plc_syntax::{Front, Placed, Read, Rest, at_front, form, in_turn, symbol_at, syntax_fault};
use std::alloc::Global;

/// Whether a statement begins with a word.
fn is_statement_word(word: Keyword) -> bool
    ensures { result ≡ is_statement_word word }
{
    matches!(
        word,
        Keyword::Atomic
            | Keyword::If
            | Keyword::Choose
            | Keyword::Loop
            | Keyword::Break
            | Keyword::Return
            | Keyword::Label
            | Keyword::Ghost
            | Keyword::Active
            | Keyword::Assume
            | Keyword::Skip
    )
}

/// Whether a statement begins at the front.
fn begins_statement<'a>(rest: Rest<'a>) -> bool
    ensures { result ≡ first_is begins_statement (kinds rest.entry.tokens.now) }
{
    match at_front(rest) {
        (Front::Word(word), _) => is_statement_word(word),
        (Front::Name(_), _) => true,
        _ => false,
    }
}

/// Whether a further block of a choice begins at the front.
fn begins_or<'a>(rest: Rest<'a>) -> bool
    ensures { result ≡ first_is begins_or (kinds rest.entry.tokens.now) }
{
    matches!(at_front(rest), (Front::Word(Keyword::Or), _))
}

/// What stands after an opening brace, with the closing one.
#[cycle(block)]
pub fn block_at<'a>(alloc: Global, most: usize, rest: Rest<'a>) -> Read<'a, Block<'a>>
    ensures { Gives (λ b. b) result (block_of most rest.entry.at (kinds rest.entry.tokens.now)) }
{
    in_turn!(
        (block, after) = statements_at(alloc, most, rest);
        after = symbol_at(after, Symbol::CloseBrace), dropping block;
        Ok((block, after))
    )
}

/// A block with its opening brace.
#[cycle(block)]
fn braced_at<'a>(alloc: Global, most: usize, rest: Rest<'a>) -> Read<'a, Block<'a>>
    ensures { Gives (λ b. b) result
        (braced_of (block_of most) rest.entry.at (kinds rest.entry.tokens.now)) }
{
    in_turn!(after = symbol_at(rest, Symbol::OpenBrace); block_at(alloc, most, after))
}

/// A loop, from after its word.
#[cycle(block)]
#[tactic(auto, unfolding(crate::specs::Forms::loop_of))]
fn loop_at<'a>(alloc: Global, most: usize, rest: Rest<'a>) -> Read<'a, Stmt<'a>>
    ensures { Gives statement_tree result (loop_of (block_of most) rest.entry.at (kinds rest.entry.tokens.now)) }
{
    form!(Stmt::Loop(block); block = braced_at(alloc, most, rest))
}

/// An `else` and its block, which may be left out.
#[cycle(block)]
#[tactic(auto, unfolding(crate::specs::Forms::else_of))]
fn else_at<'a>(alloc: Global, most: usize, rest: Rest<'a>) -> Read<'a, Option<Block<'a>>>
    ensures { Gives else_tree result (else_of (block_of most) rest.entry.at (kinds rest.entry.tokens.now)) }
{
    match at_front(rest) {
        (Front::Word(Keyword::Else), after) =>
            form!(Some(block); block = braced_at(alloc, most, after)),
        _ => Ok((None, rest)),
    }
}

/// An `if`, from after its word.
#[cycle(block)]
#[tactic(auto, unfolding(crate::specs::Forms::if_of))]
fn if_at<'a>(alloc: Global, most: usize, rest: Rest<'a>) -> Read<'a, Stmt<'a>>
    ensures { Gives statement_tree result (if_of (block_of most) rest.entry.at (kinds rest.entry.tokens.now)) }
{
    in_turn!(
        (condition, after) = guard_at(rest);
        (yes, after) = braced_at(alloc, most, after);
        form!(
            Stmt::If { condition, yes, no };
            no = else_at(alloc, most, after), dropping yes
        )
    )
}

/// A further block of a choice.
#[cycle(block)]
fn or_block_at<'a>(alloc: Global, most: usize, rest: Rest<'a>) -> Read<'a, Block<'a>>
    ensures { Gives (λ b. b) result
        (or_block_of (block_of most) rest.entry.at (kinds rest.entry.tokens.now)) }
{
    match at_front(rest) {
        (Front::Word(Keyword::Or), after) => braced_at(alloc, most, after),
        _ => Err(syntax_fault(rest)),
    }
}

/// The blocks of a choice after its second.
#[cycle(block)]
fn ors_at<'a>(alloc: Global, most: usize, start: Rest<'a>) -> Read<'a, Vec<Block<'a>>>
    ensures { Gives (λ bs. ors_tree bs.items) result
        (ors_of most start.entry.at (kinds start.entry.tokens.now)) }
{
    let mut others = Vec::new(alloc);
    let mut rest = start;
    for i in 0..most {
        if !begins_or(rest) {
            others.shrink_to_fit();
            return Ok((others, rest));
        }
        let (block, after) = or_block_at(alloc, most - 1 - i, rest)?;
        others.push(block)?;
        rest = after;
    }
    Err(syntax_fault(rest))
}

/// A choice, from after its word.
#[cycle(block)]
#[tactic(auto, unfolding(crate::specs::Forms::choose_of))]
fn choose_at<'a>(alloc: Global, most: usize, rest: Rest<'a>) -> Read<'a, Stmt<'a>>
    ensures { Gives statement_tree result
        (choose_of (block_of most) (ors_of most) rest.entry.at (kinds rest.entry.tokens.now)) }
{
    in_turn!(
        (first, after) = braced_at(alloc, most, rest);
        (second, after) = or_block_at(alloc, most, after), dropping first;
        form!(
            Stmt::Choose { first, second, others };
            others = ors_at(alloc, most, after), dropping first, second
        )
    )
}

/// A statement; at most so many stand within it.
#[cycle(block)]
#[tactic(auto, unfolding(crate::specs::Forms::statement_of))]
fn statement_at<'a>(alloc: Global, most: usize, rest: Rest<'a>) -> Read<'a, Stmt<'a>>
    ensures { Gives statement_tree result
        (statement_of (block_of most) (ors_of most) most rest.entry.at (kinds rest.entry.tokens.now)) }
{
    match at_front(rest) {
        (Front::Name(value), after) => named_statement_at(Placed { at: rest.at, value }, after),
        (Front::Word(Keyword::Atomic), after) => atomic_at(alloc, most, after),
        (Front::Word(Keyword::If), after) => if_at(alloc, most, after),
        (Front::Word(Keyword::Choose), after) => choose_at(alloc, most, after),
        (Front::Word(Keyword::Loop), after) => loop_at(alloc, most, after),
        (Front::Word(Keyword::Break), after) =>
            in_turn!(after = symbol_at(after, Symbol::Semicolon); Ok((Stmt::Break, after))),
        (Front::Word(Keyword::Return), after) =>
            in_turn!(after = symbol_at(after, Symbol::Semicolon); Ok((Stmt::Return, after))),
        (Front::Word(Keyword::Label), after) => label_at(after),
        _ => primitive_statement_at(rest),
    }
}

/// Statements; at most so many after and within one another.
#[cycle(block)]
fn statements_at<'a>(alloc: Global, most: usize, start: Rest<'a>) -> Read<'a, Block<'a>>
    ensures { Gives (λ b. b) result (statements_of most start.entry.at (kinds start.entry.tokens.now)) }
{
    let mut stmts = Vec::new(alloc);
    let mut rest = start;
    for i in 0..most {
        if !begins_statement(rest) {
            stmts.shrink_to_fit();
            return Ok((Block::new(stmts), rest));
        }
        let (value, after) = statement_at(alloc, most - 1 - i, rest)?;
        stmts.push(Placed { at: rest.at, value })?;
        rest = after;
    }
    Err(syntax_fault(rest))
}
