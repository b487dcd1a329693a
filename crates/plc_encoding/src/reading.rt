// Clauses of outlines over the terms of ground sets: read for the acting thread or for the owner of the clause,
// at given nodes, and at the current constants and versions.
ghost use Rattle.std.specs.Prelude.{◌≡◌, ◌<◌, ◌≤◌, length, slice_index_or};
ghost use Rattle.plc_symbolic.specs.declared.symbolic.NodeTerm.TheVariants.{At};
ghost use Rattle.std.specs.List.{sum_by};
ghost use Rattle.plc_lang.specs.Numbering.{values_in, value_number};
ghost use Rattle.plc_ground.specs.declared.terms.Symbol.TheVariants as symbols;
ghost use Rattle.plc_encoding.specs.Execution.{map_now};
ghost use Rattle.plc_encoding.specs.Items.{base_node, me, read_term, read_mark, read_literal};
ghost use Rattle.plc_encoding.specs.Bounds.{ValueIn, ValuesIn};

use crate::execution::{Execution, current, held, version};
use plc_ground::{Map, Symbol};
use plc_lang::{Ghost, value_number};
use plc_logic::{Base, Literal, Term};
use plc_symbolic::{NodeTerm, SymbolicLit, SymbolicTerm, applied, term_of};
use plc_vocabulary::{local_symbol, mark_of};

/// How a clause is read.
#[derive(Clone, Copy)]
pub struct Reading<'a> {
    pub ghosts: &'a [Ghost],
    pub execution: &'a Execution,
    /// For the owner of the clause, and not for the acting thread.
    pub owner: bool,
    /// The nodes of the quantified names.
    pub names: &'a [NodeTerm],
}

/// The node of a quantified name.
fn bound_node(names: &[NodeTerm], i: u16) -> NodeTerm
    ensures { result ≡ slice_index_or names.now i (At symbols.Null) }
{
    match names.get(i as usize) {
        None => NodeTerm::At(Symbol::Null),
        Some(node) => *node,
    }
}

/// The node that a base names.
fn base_node(r: &Reading, base: Base) -> NodeTerm
    ensures { result ≡ base_node r.now.execution.now r.now.owner r.now.names.now base }
{
    match base {
        Base::Shared(i) => NodeTerm::At(current(r.execution, Symbol::Shared(i))),
        Base::Local(k) => NodeTerm::At(current(r.execution, local_symbol(r.owner, k))),
        Base::Bound(i) => bound_node(r.names, i),
    }
}

/// What a map has now at the node of a base.
fn map_at(r: &Reading, map: Map, base: Base) -> SymbolicTerm
    requires { length r.now.execution.now.written < 65536 }
    ensures { result ≡ map_now r.now.execution.now map
        (base_node r.now.execution.now r.now.owner r.now.names.now base) }
{
    applied(map, version(r.execution, map), base_node(r, base))
}

/// The thread that the clause speaks of.
fn me(owner: bool) -> Symbol
    ensures { result ≡ me owner }
{
    if owner { Symbol::You } else { Symbol::Me }
}

/// The constant of a value of an auxiliary field.
fn value_symbol(ghosts: &[Ghost], g: u16, v: u16) -> Symbol
    requires few { sum_by values_in ghosts.now < 65536 }
    requires field { g ≤ length ghosts.now }
    requires value { value_number ghosts.now g v < 65536 }
    ensures { result ≡ symbols.Value (value_number ghosts.now g v) }
{
    Symbol::Value(value_number(ghosts, g as usize, v) as u16)
}

/// A term of a clause, as it reads now.
fn read_term(r: &Reading, term: Term) -> SymbolicTerm
    requires versions { length r.now.execution.now.written < 65536 }
    requires few { sum_by values_in r.now.ghosts.now < 65536 }
    requires value { ValueIn r.now.ghosts.now term }
    ensures { result ≡ read_term r.now.ghosts.now r.now.execution.now r.now.owner r.now.names.now term }
{
    match term {
        Term::Shared(i) => term_of(base_node(r, Base::Shared(i))),
        Term::Local(k) => term_of(base_node(r, Base::Local(k))),
        Term::Bound(i) => term_of(base_node(r, Base::Bound(i))),
        Term::FieldOf { base, f } => map_at(r, Map::Field(f), base),
        Term::GhostOf { base, g } => map_at(r, Map::Ghost(g), base),
        Term::Null => SymbolicTerm::Constant(Symbol::Null),
        Term::Number(n) => SymbolicTerm::Constant(Symbol::Number(n)),
        Term::Value { g, v } => SymbolicTerm::Constant(value_symbol(r.ghosts, g, v)),
        Term::Me => SymbolicTerm::Constant(me(r.owner)),
        Term::Nobody => SymbolicTerm::Constant(Symbol::Nobody),
    }
}

/// The mark of a place of a pointer, as it reads now. No other term has one.
fn read_mark(r: &Reading, term: Term) -> SymbolicTerm
    requires { length r.now.execution.now.written < 65536 }
    ensures { result ≡ read_mark r.now.execution.now r.now.owner r.now.names.now term }
{
    match term {
        Term::Shared(i) => held(r.execution, mark_of(Symbol::Shared(i))),
        Term::Local(k) => held(r.execution, mark_of(local_symbol(r.owner, k))),
        Term::FieldOf { base, f } => map_at(r, Map::FieldMark(f), base),
        Term::Bound(_) | Term::GhostOf { .. } => SymbolicTerm::Constant(Symbol::No),
        Term::Null | Term::Number(_) | Term::Value { .. } => SymbolicTerm::Constant(Symbol::No),
        Term::Me | Term::Nobody => SymbolicTerm::Constant(Symbol::No),
    }
}

/// A literal of a clause, as it reads now.
pub fn read_literal(r: &Reading, literal: &Literal) -> SymbolicLit
    requires versions { length r.now.execution.now.written < 65536 }
    requires few { sum_by values_in r.now.ghosts.now < 65536 }
    requires values { ValuesIn r.now.ghosts.now literal.now }
    ensures { result ≡ read_literal r.now.ghosts.now r.now.execution.now r.now.owner r.now.names.now literal.now }
{
    match *literal {
        Literal::Same { a, b, equal } => SymbolicLit {
            left: read_term(r, a),
            right: read_term(r, b),
            equal,
        },
        Literal::Retired { x, yes } => SymbolicLit {
            left: map_at(r, Map::Retired, x),
            right: SymbolicTerm::Constant(Symbol::Yes),
            equal: yes,
        },
        Literal::Marked { t, yes } => SymbolicLit {
            left: read_mark(r, t),
            right: SymbolicTerm::Constant(Symbol::Yes),
            equal: yes,
        },
    }
}
