// Which outlines speak of marks. The ground sets of a program that uses marks, or whose outline does,
// are other ones than those of a program without.
ghost use Rattle.std.specs.Prelude.{◌≡◌};
ghost use Rattle.std.specs.List.{list_any};
ghost use Rattle.plc_logic.specs.Marks.{literal_uses_marks, clause_uses_marks, item_uses_marks, outline_uses_marks};

use crate::clause::{Clause, Item, Literal, Outline};

/// Whether the literal says or denies that a pointer is marked.
fn literal_uses_marks(literal: &Literal) -> bool
    ensures { result ≡ literal_uses_marks literal.now }
{
    matches!(literal, Literal::Marked { .. })
}

/// Whether one of the literals of a clause does.
fn clause_uses_marks(clause: &Clause) -> bool
    ensures { result ≡ clause_uses_marks clause.now }
{
    clause
        .literals
        .as_slice()
        .iter()
        .any(|literal| literal_uses_marks(literal))
}

/// Whether one of these clauses does.
fn clauses_use_marks(clauses: &[Clause]) -> bool
    ensures { result ≡ list_any clause_uses_marks clauses.now }
{
    clauses.iter().any(|clause| clause_uses_marks(clause))
}

/// Whether the clause of one of these items does.
fn items_use_marks(items: &[Item]) -> bool
    ensures { result ≡ list_any item_uses_marks items.now }
{
    items.iter().any(|item| clause_uses_marks(&item.clause))
}

/// Whether a literal of the outline says or denies that a pointer is marked.
pub fn outline_uses_marks(outline: &Outline) -> bool
    ensures { result ≡ outline_uses_marks outline.now }
{
    clauses_use_marks(outline.invariants.as_slice()) || items_use_marks(outline.items.as_slice())
}
