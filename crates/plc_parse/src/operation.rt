// The operations: each is its name, its parameters, its locals and a block.
ghost use Rattle.std.specs.Prelude.{◌≡◌, ◌+◌, ◌*◌, ◌<◌, ◌≤◌, [], length, IfOk, map};
ghost use Rattle.plc_base.specs.Limits.{most};
ghost use Rattle.plc_scope.specs.Answers.{Gives, HasRoom};
ghost use Rattle.plc_syntax.specs.Views.{placed_as};
ghost use Rattle.plc_parse.specs.Meaning.{op_means, placed_op_means, listed};
ghost use Rattle.plc_outparse.specs.Answers.{OpsFit};
ghost use Rattle.plc_parse.specs.Units.{lines_of};
ghost use Rattle.plc_scope.specs.Scope.{most_locals};
ghost use Rattle.plc_tree.specs.FileViews.{operation_tree};
ghost use Rattle.plc_parse.specs.Growth.{CanOperate, GrowsByOps, op_names, most_labels};

use crate::block::{Context, statements};
use crate::declaration::declare;
use crate::lines::line_at;
use crate::local::{declare_locals, declare_parameters};
use plc_base::{Items, What1};
use plc_lang::Op;
use plc_lex::Token;
use plc_scope::{Binding, ParseFault, Resolved, Scope};
use plc_syntax::Placed;
use plc_tree::Operation;
use std::alloc::Global;

/// An operation on a line, with so many before it.
#[tactic(auto, unfolding(crate::specs::Meaning::op_means))]
fn operation(
    alloc: Global,
    scope: &mut Scope,
    tokens: &[Token],
    count: usize,
    line: u32,
    form: &Operation,
) -> Resolved<Op>
    requires limit { count ≤ most What1.Ops }
    requires room { CanOperate scope.old }
    ensures limit { IfOk result (λ _. count < most What1.Ops) }
    ensures read { Gives (λ op. (op, scope.new)) result
        (op_means (lines_of tokens.now) line scope.old count (operation_tree form.now)) }
    ensures grows { IfOk result (λ _. GrowsByOps scope.old scope.new op_names) }
    ensures locals { IfOk result (λ op. length op.locals ≤ most_locals) }
{
    if count == What1::Ops.most() as usize {
        return Err(ParseFault::past(What1::Ops));
    }
    let name = declare(scope, form.name, Binding::Taken)?;
    declare_parameters(scope, &form.parameters)?;
    declare_locals(scope, form.locals.as_slice())?;
    let context = Context {
        alloc,
        tokens,
        in_loop: false,
    };
    let body = statements(context, scope, &form.body)?;
    Ok(Op {
        name,
        locals: scope.take_locals(alloc),
        body,
        line,
    })
}

/// The operations.
pub fn operations(
    alloc: Global,
    scope: &mut Scope,
    tokens: &[Token],
    forms: &[Placed<Operation>],
) -> Resolved<Items<Op>>
    requires room { HasRoom scope.old (op_names * (most What1.Ops + 1) + most_labels + 1) }
    requires locals { scope.old.locals ≡ [] }
    requires labels { scope.old.labels ≡ [] }
    ensures read { Gives (λ ops. (ops, scope.new)) result
        (listed (placed_op_means (lines_of tokens.now)) scope.old 0 (map (placed_as operation_tree) forms.now)) }
    ensures fit { IfOk result (λ ops. OpsFit ops) }
    ensures labels { IfOk result (λ _. length scope.new.labels ≤ most_labels) }
{
    let mut ops = Items::new(alloc);
    for form in forms {
        let line = line_at(tokens, form.at, 0);
        let op = operation(alloc, scope, tokens, ops.len(), line, &form.value)?;
        ops.push(op)?;
    }
    Ok(ops)
}
