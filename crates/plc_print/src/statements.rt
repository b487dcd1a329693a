// Statements and the blocks in them. A block's lines are printed one after the other, so that only
// blocks within one another deepen the recursion.
ghost use Rattle.std.specs.Prelude.{◌∷◌, [], map, option_map};
ghost use Rattle.plc_lang.specs.Names.{function_name, label_name};
ghost use Rattle.plc_lang.specs.Statements.{If};
ghost use Rattle.plc_lang.specs.Views.{statement_of, blocks_of};
ghost use Rattle.plc_lex.specs.declared.token.Symbol.TheVariants.{OpenBrace, CloseBrace};
ghost use Rattle.plc_syntax.specs.Trees.{AtomicStatement, CallStatement, LoopStatement, OrBlock, NoOr, symbol};
ghost use Rattle.plc_syntax.specs.Trees.{argument_then, maybe_then, during_then, statement_then, statements_then};
ghost use Rattle.plc_syntax.specs.Trees.{else_then, or_then};
ghost use Rattle.plc_print.specs.Canonical.{primitive_tree, argument_tree, else_block, choice_tree, statement_tree};
ghost use Rattle.plc_print.specs.Canonical.{block_tree, blocks_tree};
ghost use Rattle.plc_print.specs.Outlines.{bare};
ghost use Rattle.plc_print.specs.Pieces.{Prints};

use crate::names::Reach;
use crate::primitives::{condition, primitive_line, primitive_lines};
use crate::tokens::Piece::{Name, Word};
use crate::tokens::{BEGIN, CLOSE, END, NULL, OPEN, Printed, Printer, SEMICOLON};
use plc_base::FuncId;
use plc_lang::{Arg, Block, Cond, Prim, Stmt, function_name, label_name};
use plc_lex::Keyword;

/// What a function is called with.
fn argument(out: &mut Printer, reach: Reach, arg: Arg, active: bool) -> Printed
    ensures { Prints result out.old out.new (argument_then
        (argument_tree reach.entry.file.now reach.entry.locals.now arg active) []) }
{
    match arg {
        Arg::None => Ok(()),
        Arg::Null => out.token(NULL),
        Arg::Var(p) if active => out.tokens(&[Word(Keyword::Active), reach.name(p)]),
        Arg::Var(p) => out.token(reach.name(p)),
    }
}

/// The label between a call and its return.
fn during(out: &mut Printer, reach: Reach, label: Option<u16>) -> Printed
    ensures { Prints result out.old out.new (maybe_then during_then
        (option_map (λ l. bare (label_name reach.entry.file.now l)) label) []) }
{
    match label {
        None => Ok(()),
        Some(l) => out.tokens(&[Word(Keyword::During), Name(label_name(reach.file, l))]),
    }
}

/// A call.
fn call(
    out: &mut Printer,
    reach: Reach,
    func: FuncId,
    arg: Arg,
    active: bool,
    label: Option<u16>,
) -> Printed
    ensures { Prints result out.old out.new (statement_then
        (CallStatement (bare (function_name reach.entry.file.now func))
        (argument_tree reach.entry.file.now reach.entry.locals.now arg active)
        (option_map (λ l. bare (label_name reach.entry.file.now l)) label)) []) }
{
    out.tokens(&[Name(function_name(reach.file, func)), OPEN])?;
    argument(out, reach, arg, active)?;
    out.token(CLOSE)?;
    during(out, reach, label)?;
    out.token(SEMICOLON)
}

/// Primitives that are one step.
fn atomic(out: &mut Printer, reach: Reach, prims: &[Prim]) -> Printed
    ensures { Prints result out.old out.new (statement_then (AtomicStatement
        (map (λ k. bare (primitive_tree reach.entry.file.now reach.entry.locals.now k)) prims.now)) []) }
{
    out.tokens(&[Word(Keyword::Atomic), BEGIN])?;
    primitive_lines(out, reach, prims)?;
    out.token(END)
}

/// A statement, with the blocks in it.
#[cycle(statement)]
fn statement(out: &mut Printer, reach: Reach, stmt: &Stmt) -> Printed
    ensures { Prints result out.old out.new (statement_then
        (statement_tree reach.entry.file.now reach.entry.locals.now (statement_of stmt.now)) []) }
{
    match stmt {
        Stmt::One(prim) => primitive_line(out, reach, *prim),
        Stmt::Atomic(prims) => atomic(out, reach, prims.as_slice()),
        Stmt::Call {
            func,
            arg,
            active,
            during,
        } => { call(out, reach, *func, *arg, *active, *during) }
        Stmt::If { cond, yes, no } => branch(out, reach, *cond, yes, no),
        Stmt::Choose(blocks) => choose(out, reach, blocks),
        Stmt::Loop(block) => repeat(out, reach, block),
        Stmt::Break => out.tokens(&[Word(Keyword::Break), SEMICOLON]),
        Stmt::Return => out.tokens(&[Word(Keyword::Return), SEMICOLON]),
        Stmt::Skip => out.tokens(&[Word(Keyword::Skip), SEMICOLON]),
        Stmt::Label(l) => {
            let name = Name(label_name(reach.file, *l));
            out.tokens(&[Word(Keyword::Label), name, SEMICOLON])
        }
    }
}

/// An `if`.
#[cycle(statement)]
fn branch(out: &mut Printer, reach: Reach, cond: Cond, yes: &Block, no: &Block) -> Printed
    ensures { Prints result out.old out.new (statement_then
        (statement_tree reach.entry.file.now reach.entry.locals.now (If cond yes.now no.now)) []) }
{
    out.tokens(&[Word(Keyword::If), OPEN])?;
    condition(out, reach, cond)?;
    out.token(CLOSE)?;
    braced(out, reach, yes)?;
    otherwise(out, reach, no)
}

/// The second block of an `if`, which is left out where it is empty.
#[cycle(statement)]
fn otherwise(out: &mut Printer, reach: Reach, block: &Block) -> Printed
    ensures { Prints result out.old out.new (else_then
        (else_block block.now (block_tree reach.entry.file.now reach.entry.locals.now block.now)) []) }
{
    match block.lines() {
        [] => Ok(()),
        [_first, _others @ ..] => {
            out.token(Word(Keyword::Else))?;
            braced(out, reach, block)
        }
    }
}

/// A choice. One of fewer than two blocks has no text, so that empty blocks stand for them.
#[cycle(statement)]
fn choose(out: &mut Printer, reach: Reach, blocks: &[Block]) -> Printed
    ensures { Prints result out.old out.new (statement_then
        (choice_tree (blocks_tree reach.entry.file.now reach.entry.locals.now (blocks_of blocks.now))) []) }
{
    let (choose, or) = (Word(Keyword::Choose), Word(Keyword::Or));
    match blocks {
        [] => out.tokens(&[choose, BEGIN, END, or, BEGIN, END]),
        [block] => {
            out.token(choose)?;
            braced(out, reach, block)?;
            out.tokens(&[or, BEGIN, END])
        }
        [first, second, others @ ..] => {
            out.token(choose)?;
            braced(out, reach, first)?;
            or_block(out, reach, second)?;
            or_blocks(out, reach, others)
        }
    }
}

/// A further block of a choice.
#[cycle(statement)]
fn or_block(out: &mut Printer, reach: Reach, block: &Block) -> Printed
    ensures { Prints result out.old out.new (or_then
        (OrBlock (block_tree reach.entry.file.now reach.entry.locals.now block.now) NoOr) []) }
{
    out.token(Word(Keyword::Or))?;
    braced(out, reach, block)
}

/// The blocks of a choice after its second.
#[cycle(statement)]
fn or_blocks(out: &mut Printer, reach: Reach, blocks: &[Block]) -> Printed
    ensures { Prints result out.old out.new (or_then
        (blocks_tree reach.entry.file.now reach.entry.locals.now (blocks_of blocks.now)) []) }
{
    for block in blocks {
        or_block(out, reach, block)?;
    }
    Ok(())
}

/// A loop.
#[cycle(statement)]
fn repeat(out: &mut Printer, reach: Reach, block: &Block) -> Printed
    ensures { Prints result out.old out.new (statement_then
        (LoopStatement (block_tree reach.entry.file.now reach.entry.locals.now block.now)) []) }
{
    out.token(Word(Keyword::Loop))?;
    braced(out, reach, block)
}

/// A block in its braces.
#[cycle(statement)]
fn braced(out: &mut Printer, reach: Reach, block: &Block) -> Printed
    ensures { Prints result out.old out.new (symbol OpenBrace ∷ statements_then
        (block_tree reach.entry.file.now reach.entry.locals.now block.now) (symbol CloseBrace ∷ [])) }
{
    out.token(BEGIN)?;
    statements(out, reach, block)?;
    out.token(END)
}

/// The statements of a block, without its braces.
#[cycle(statement)]
pub fn statements(out: &mut Printer, reach: Reach, block: &Block) -> Printed
    ensures { Prints result out.old out.new (statements_then
        (block_tree reach.entry.file.now reach.entry.locals.now block.now) []) }
{
    for line in block.lines() {
        statement(out, reach, &line.stmt)?;
    }
    Ok(())
}
