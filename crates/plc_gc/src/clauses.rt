// Whether a clause is true at one binding of its quantified names. Every read is total, so nothing is asked of
// the binding or of the thread: a name past the binding stands for null, and without a thread a local is 0.
ghost use Rattle.std.specs.Prelude.{◌≡◌};
ghost use Rattle.plc_gc.specs.Clauses.{base_node, term_value, term_mark, thread_number, literal_holds, holds_at};
ghost use Rattle.plc_gc.specs.Clauses.{bound_to};

use crate::config::GcConfig;
use crate::slot::{Map, Slot};
use crate::state::State;
use plc_logic::{Base, Clause, Literal, Term};

/// The node at a place of a binding, null past its end.
fn bound_node(bound: &[u32], i: u16) -> u32
    ensures { result ≡ bound_to bound.now i }
{
    let i = i as usize;
    if i < bound.len() { bound[i] } else { 0 }
}

/// The number by which auxiliary fields name a thread: one more than the thread's own, which may be the largest
/// number of 32 bits.
fn thread_number(thread: Option<u32>) -> u64
    ensures { result ≡ thread_number thread }
{
    match thread {
        Some(t) => t as u64 + 1,
        None => 0,
    }
}

impl State {
    /// The node that a name stands for.
    fn base(&self, thread: Option<u32>, bound: &[u32], x: Base) -> u32
        ensures { result ≡ base_node self.now thread (bound_to bound.now) x }
    {
        match x {
            Base::Shared(i) => self.value(Slot::Shared(i)),
            Base::Local(i) => self.local(thread, i),
            Base::Bound(i) => bound_node(bound, i),
        }
    }

    /// The value of a term.
    fn term(&self, thread: Option<u32>, bound: &[u32], x: Term) -> u64
        ensures { result ≡ term_value self.now thread (bound_to bound.now) x }
    {
        match x {
            Term::Shared(i) => self.value(Slot::Shared(i)) as u64,
            Term::Local(i) => self.local(thread, i) as u64,
            Term::Bound(i) => bound_node(bound, i) as u64,
            Term::FieldOf { base, f } => self.field(f, self.base(thread, bound, base)) as u64,
            Term::GhostOf { base, g } => {
                self.entry(Map::Auxiliary(g), self.base(thread, bound, base)) as u64
            }
            Term::Null => 0,
            Term::Number(n) => n as u64,
            Term::Value { v, .. } => v as u64,
            Term::Me => thread_number(thread),
            Term::Nobody => 0,
        }
    }

    /// The mark of a term; only a place of a pointer has one.
    fn mark_of(&self, thread: Option<u32>, bound: &[u32], x: Term) -> u32
        ensures { result ≡ term_mark self.now thread (bound_to bound.now) x }
    {
        match x {
            Term::Shared(i) => self.value(Slot::SharedMark(i)),
            Term::Local(i) => self.local_mark(thread, i),
            Term::FieldOf { base, f } => self.entry(Map::Mark(f.0), self.base(thread, bound, base)),
            Term::Bound(_) | Term::GhostOf { .. } | Term::Null | Term::Number(_) => 0,
            Term::Value { .. } | Term::Me | Term::Nobody => 0,
        }
    }

    /// Whether a literal is true.
    fn literal_holds(&self, thread: Option<u32>, bound: &[u32], literal: &Literal) -> bool
        ensures { result ≡ literal_holds self.now thread (bound_to bound.now) literal.now }
    {
        match *literal {
            Literal::Same { a, b, equal: true } => {
                self.term(thread, bound, a) == self.term(thread, bound, b)
            }
            Literal::Same { a, b, equal: false } => {
                self.term(thread, bound, a) != self.term(thread, bound, b)
            }
            Literal::Retired { x, yes: true } => self.is_retired(self.base(thread, bound, x)),
            Literal::Retired { x, yes: false } => !self.is_retired(self.base(thread, bound, x)),
            Literal::Marked { t, yes: true } => self.mark_of(thread, bound, t) == 1,
            Literal::Marked { t, yes: false } => self.mark_of(thread, bound, t) != 1,
        }
    }

    /// Whether a clause is true.
    fn clause_holds(&self, thread: Option<u32>, bound: &[u32], c: &Clause) -> bool
        ensures { result ≡ holds_at self.now thread (bound_to bound.now) c.now }
    {
        c.literals
            .as_slice()
            .iter()
            .any(|l| self.literal_holds(thread, bound, l))
    }
}

/// Whether a clause is true at one binding: some literal of it is. `bound` has the nodes for which the quantified
/// names stand, in order, and `thread` is the thread whose locals and number the clause names, `None` for a clause
/// that names none. It takes no memory.
pub fn holds(c: &Clause, g: &GcConfig, thread: Option<u32>, bound: &[u32]) -> bool
    ensures { result ≡ holds_at g.now.state thread (bound_to bound.now) c.now }
{
    g.state().clause_holds(thread, bound, c)
}
