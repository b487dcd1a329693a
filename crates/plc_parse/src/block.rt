// Statements and the blocks in them. How deep blocks stand within one another was judged before, so the recursion is
// 65 deep at most.
ghost use Rattle.plc_syntax.specs.Views.{condition_tree};
ghost use Rattle.plc_syntax.specs.Trees.{IfStatement, ChooseStatement};
ghost use Rattle.plc_tree.specs.Views.{else_tree, ors_tree, statement_tree};
ghost use Rattle.plc_parse.specs.Meaning.{statements_mean, else_means};
ghost use Rattle.plc_parse.specs.Growth.{CanLabel};
ghost use Rattle.plc_parse.specs.Units.{lines_of};
ghost use Rattle.plc_parse.specs.Views.{MeansHere, MeansStatement};

use crate::lines::line_at;
use crate::statement::{atomic, call_statement, declare_label, primitive_statement};
use plc_lang::{Block, Line, Stmt};
use plc_lex::Token;
use plc_scope::{ParseFault, Resolved, Scope, condition};
use plc_syntax::{Call, Condition, in_turn};
use plc_tree::{Block as BlockForm, Stmt as StmtForm};
use std::alloc::Global;

/// What stands around statements.
#[derive(Clone, Copy)]
pub struct Context<'a> {
    /// Where lists of statements are allocated.
    pub alloc: Global,
    /// All tokens of the file, whose lines are those of the statements.
    pub tokens: &'a [Token],
    /// Whether a loop stands around, so that `break` may stand here.
    pub in_loop: bool,
}

/// The second block of an `if`, which is empty where it is left out.
#[cycle(block)]
fn else_block(context: Context, scope: &mut Scope, block: &Option<BlockForm>) -> Resolved<Block>
    requires { CanLabel scope.old }
    ensures { MeansHere (λ b. b)
        (else_means (lines_of context.entry.tokens.now) scope.old context.entry.in_loop (else_tree block.now))
        scope.old scope.new result }
{
    match block {
        None => Ok(Block::new(Vec::new(context.alloc))),
        Some(block) => statements(context, scope, block),
    }
}

/// An `if` at a place.
#[cycle(block)]
fn if_statement(
    context: Context,
    scope: &mut Scope,
    at: u32,
    form: Condition,
    yes: &BlockForm,
    no: &Option<BlockForm>,
) -> Resolved<Stmt>
    requires { CanLabel scope.old }
    ensures { MeansStatement (lines_of context.entry.tokens.now) context.entry.in_loop at
        (IfStatement (condition_tree form.entry) yes.now (else_tree no.now)) scope.old scope.new result }
{
    let cond = condition(scope, form)?;
    let yes = statements(context, scope, yes)?;
    in_turn!(
        no = else_block(context, scope, no), dropping yes;
        Ok(Stmt::If { cond, yes, no })
    )
}

/// A choice at a place.
#[cycle(block)]
fn choose_statement(
    context: Context,
    scope: &mut Scope,
    at: u32,
    first: &BlockForm,
    second: &BlockForm,
    others: &[BlockForm],
) -> Resolved<Stmt>
    requires { CanLabel scope.old }
    ensures { MeansStatement (lines_of context.entry.tokens.now) context.entry.in_loop at
        (ChooseStatement first.now second.now (ors_tree others.now)) scope.old scope.new result }
{
    let mut choices = Vec::new(context.alloc);
    let first = statements(context, scope, first)?;
    choices.push(first)?;
    let second = statements(context, scope, second)?;
    choices.push(second)?;
    for block in others {
        let block = statements(context, scope, block)?;
        choices.push(block)?;
    }
    Ok(Stmt::Choose(choices))
}

/// A statement at a place.
#[cycle(block)]
fn statement(context: Context, scope: &mut Scope, at: u32, stmt: &StmtForm) -> Resolved<Stmt>
    requires { CanLabel scope.old }
    ensures { MeansStatement (lines_of context.entry.tokens.now) context.entry.in_loop at
        (statement_tree stmt.now) scope.old scope.new result }
{
    match stmt {
        StmtForm::Primitive(form) => primitive_statement(scope, *form),
        StmtForm::Atomic(forms) => atomic(context.alloc, scope, forms.as_slice()),
        StmtForm::Call {
            name,
            argument,
            during,
        } => {
            let form = Call {
                name: *name,
                argument: *argument,
            };
            call_statement(scope, form, *during)
        }
        StmtForm::If { condition, yes, no } => if_statement(
            context, scope, at, *condition, yes, no,
        ),
        StmtForm::Choose {
            first,
            second,
            others,
        } => choose_statement(context, scope, at, first, second, others.as_slice()),
        StmtForm::Loop(block) => {
            let body = Context {
                in_loop: true,
                ..context
            };
            let block = statements(body, scope, block)?;
            Ok(Stmt::Loop(block))
        }
        StmtForm::Break if context.in_loop => Ok(Stmt::Break),
        StmtForm::Break => Err(ParseFault::Undeclared { at }),
        StmtForm::Return => Ok(Stmt::Return),
        StmtForm::Label(name) => {
            let label = declare_label(scope, *name)?;
            Ok(Stmt::Label(label))
        }
    }
}

/// The statements of a block, with their lines.
#[cycle(block)]
pub fn statements(context: Context, scope: &mut Scope, block: &BlockForm) -> Resolved<Block>
    requires { CanLabel scope.old }
    ensures { MeansHere (λ b. b)
        (statements_mean (lines_of context.entry.tokens.now) scope.old context.entry.in_loop block.now)
        scope.old scope.new result }
{
    let mut lines = Vec::new(context.alloc);
    for form in block.stmts() {
        let line = line_at(context.tokens, form.at, 0);
        let stmt = statement(context, scope, form.at, &form.value)?;
        lines.push(Line { line, stmt })?;
    }
    Ok(Block::new(lines))
}
