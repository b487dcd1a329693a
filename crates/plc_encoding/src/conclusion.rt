// The negated conclusion: nodes that aren't null, for which each literal of the clause is false after the step.
ghost use Rattle.std.specs.Prelude.{◌≡◌, ◌<◌, ◌∷◌, [], length, map, All, option_copied, OnOk, IfOk};
ghost use Rattle.std.specs.List.{sum_by};
ghost use Rattle.plc_lang.specs.Numbering.{values_in};
ghost use Rattle.plc_logic.specs.Negation.{negation};
ghost use Rattle.plc_ground.specs.declared.terms.Map.TheVariants as maps;
ghost use Rattle.plc_ground.specs.declared.terms.Symbol.TheVariants as symbols;
ghost use Rattle.plc_symbolic.specs.declared.symbolic.NodeTerm.TheVariants.{At};
ghost use Rattle.plc_symbolic.specs.declared.symbolic.SymbolicTerm.TheVariants.{Constant};
ghost use Rattle.plc_symbolic.specs.Numbering.{written, written_all};
ghost use Rattle.plc_symbolic.specs.Terms.{is, is_not, null};
ghost use Rattle.plc_vocabulary.specs.Fit.{Fits};
ghost use Rattle.plc_vocabulary.specs.Setting.{below};
ghost use Rattle.plc_encoding.specs.Bounds.{ValuesIn, ConclusionIn};
ghost use Rattle.plc_encoding.specs.Execution.{current, map_now, not_null};
ghost use Rattle.plc_encoding.specs.Items.{read_literal, bound_nodes, denied_clause, denied_claim, denied};

use crate::execution::{Execution, current, push_not_null, version};
use crate::reading::{Reading, read_literal};
use crate::subject::Subject;
use plc_base::{Items, NoMemory};
use plc_ground::{Map, Symbol};
use plc_lang::{Ghost, Prim};
use plc_logic::{Clause, Literal, negated};
use plc_symbolic::{Draft, NodeTerm, SymbolicTerm, applied, is, is_not};
use plc_vocabulary::{Setting, claim_made, conclusion, pointer_symbol};
use std::alloc::Global;

/// Writes that no bound node is null.
fn push_nodes(bound: u16, out: &mut Draft) -> Result<(), NoMemory>
    ensures { OnOk result (out.new
        ≡ written_all out.old (map (λ i. is_not (Constant (symbols.Bound i)) null ∷ []) (below bound))) }
{
    for i in 0..bound {
        out.push(&[is_not(
            SymbolicTerm::Constant(Symbol::Bound(i)),
            SymbolicTerm::Constant(Symbol::Null),
        )])?;
    }
    Ok(())
}

/// The nodes of which the conclusion speaks.
fn bound_nodes(alloc: Global, bound: u16) -> Result<Items<NodeTerm>, NoMemory>
    ensures { IfOk result (λ nodes. nodes ≡ bound_nodes bound) }
{
    let mut nodes = Items::new(alloc);
    for i in 0..bound {
        nodes.push(NodeTerm::At(Symbol::Bound(i)))?;
    }
    Ok(nodes)
}

/// Writes that each literal is false.
fn push_denied(r: &Reading, literals: &[Literal], out: &mut Draft) -> Result<(), NoMemory>
    requires versions { length r.now.execution.now.written < 65536 }
    requires few { sum_by values_in r.now.ghosts.now < 65536 }
    requires values { All (ValuesIn r.now.ghosts.now) literals.now }
    ensures { OnOk result (out.new ≡ written_all out.old
        (map (λ l. read_literal r.now.ghosts.now r.now.execution.now r.now.owner r.now.names.now (negation l) ∷ [])
        literals.now)) }
{
    for literal in literals {
        out.push(&[read_literal(r, &negated(literal))])?;
    }
    Ok(())
}

/// Writes that the clause is false at the bound nodes.
fn push_denied_clause(
    alloc: Global,
    ghosts: &[Ghost],
    s: &Setting,
    x: &Execution,
    clause: Option<&Clause>,
    out: &mut Draft,
) -> Result<(), NoMemory>
    requires versions { length x.now.written < 65536 }
    requires few { sum_by values_in ghosts.now < 65536 }
    requires clause { ConclusionIn ghosts.now (option_copied clause) }
    ensures { OnOk result (out.new
        ≡ written_all out.old (denied_clause ghosts.now s.now x.now (option_copied clause.entry))) }
{
    let Some(clause) = clause else {
        return Ok(());
    };
    let bound = clause.bound.len();
    push_nodes(bound, out)?;
    let names = bound_nodes(alloc, bound)?;
    let r = Reading {
        ghosts,
        execution: x,
        owner: s.owned,
        names: names.as_slice(),
    };
    push_denied(&r, clause.literals.as_slice(), out)
}

/// Writes that the claim on a pointer is false: it leads to a node that is retired.
fn push_claim(x: &Execution, p: Symbol, out: &mut Draft) -> Result<(), NoMemory>
    requires { length x.now.written < 65536 }
    ensures { OnOk result (out.new ≡ written_all out.old
        (not_null x.now p
        ∷ (is (map_now x.now maps.Retired (At (current x.now p))) (Constant symbols.Yes) ∷ [])
        ∷ [])) }
{
    push_not_null(x, p, out)?;
    let retired = applied(
        Map::Retired,
        version(x, Map::Retired),
        NodeTerm::At(current(x, p)),
    );
    out.push(&[is(retired, SymbolicTerm::Constant(Symbol::Yes))])
}

/// Writes that the claim is false where it is made.
fn push_denied_claim(
    s: &Setting,
    x: &Execution,
    claim: Option<Prim>,
    out: &mut Draft,
) -> Result<(), NoMemory>
    requires { length x.now.written < 65536 }
    ensures { OnOk result (out.new ≡ written_all out.old (denied_claim s.now x.now claim)) }
{
    match claim {
        Some(Prim::Active { p }) => push_claim(x, pointer_symbol(&s.mine, p), out),
        _ => Ok(()),
    }
}

/// Writes that the conclusion is false.
pub fn push_conclusion(w: &Subject, x: &Execution, out: &mut Draft) -> Result<(), NoMemory>
    requires fits { Fits w.now.flow.now w.now.outline.now }
    requires versions { length x.now.written < 65536 }
    ensures { OnOk result (out.new ≡ written_all out.old
        (denied w.now.flow.now w.now.outline.now w.now.setting.now x.now w.now.obligation.now)) }
{
    let clause = conclusion(w.flow, w.outline, w.obligation);
    let ghosts = w.flow.file.ghosts.as_slice();
    push_denied_clause(w.alloc, ghosts, w.setting, x, clause, out)?;
    push_denied_claim(w.setting, x, claim_made(w.flow, w.obligation), out)
}
