// The numbers of a file, ascending and each once: 0, those of its primitives, those of its outline.
ghost use Rattle.std.specs.Prelude.{◌≡◌, flat_map, OnOk};
ghost use Rattle.std.specs.Option.{option_to_list};
ghost use Rattle.plc_vocabulary.specs.Setting.{num_numbers, prim_numbers, term_numbers};
ghost use Rattle.plc_vocabulary.specs.Setting.{literal_numbers, clause_numbers};
ghost use Rattle.plc_vocabulary.specs.Setting.{step_numbers, item_numbers, with_numbers, all_numbers};

use plc_base::NoMemory;
use plc_flow::{Flow, Step};
use plc_lang::{Num, Prim};
use plc_logic::{Clause, Item, Literal, Outline, Term};
use std::collections::BTreeSet;

/// The number that is put into data, if it is one.
fn number_of(e: Num) -> Option<u32>
    ensures { option_to_list result ≡ num_numbers e }
{
    match e {
        Num::Lit(n) => Some(n),
        Num::Local(_) => None,
    }
}

/// The number in a primitive, if it has one.
fn number_in(prim: &Prim) -> Option<u32>
    ensures { option_to_list result ≡ prim_numbers prim.now }
{
    match *prim {
        Prim::DataSet { e, .. } => number_of(e),
        Prim::DataStore { e, .. } => number_of(e),
        Prim::DataTest { e, .. } => number_of(e),
        _ => None,
    }
}

/// The number that a term is, if it is one.
fn number_that_is(term: &Term) -> Option<u32>
    ensures { option_to_list result ≡ term_numbers term.now }
{
    match *term {
        Term::Number(n) => Some(n),
        _ => None,
    }
}

/// Adds a number, if there is one.
fn put(numbers: &mut BTreeSet<u32>, n: Option<u32>) -> Result<(), NoMemory>
    ensures { OnOk result (numbers.new.keys ≡ with_numbers numbers.old.keys (option_to_list n)) }
{
    if let Some(n) = n {
        numbers.insert(n)?;
    }
    Ok(())
}

/// Adds the numbers in primitives.
fn put_of_prims(numbers: &mut BTreeSet<u32>, prims: &[Prim]) -> Result<(), NoMemory>
    ensures { OnOk result (numbers.new.keys ≡ with_numbers numbers.old.keys (flat_map prim_numbers prims.now)) }
{
    for prim in prims {
        put(numbers, number_in(prim))?;
    }
    Ok(())
}

/// Adds the numbers in steps.
fn put_of_steps(numbers: &mut BTreeSet<u32>, steps: &[Step]) -> Result<(), NoMemory>
    ensures { OnOk result (numbers.new.keys ≡ with_numbers numbers.old.keys (flat_map step_numbers steps.now)) }
{
    for step in steps {
        put_of_prims(numbers, step.prims.as_slice())?;
    }
    Ok(())
}

/// Adds the numbers in a literal.
fn put_of_literal(numbers: &mut BTreeSet<u32>, literal: &Literal) -> Result<(), NoMemory>
    ensures { OnOk result (numbers.new.keys ≡ with_numbers numbers.old.keys (literal_numbers literal.now)) }
{
    match literal {
        Literal::Same { a, b, .. } => {
            put(numbers, number_that_is(a))?;
            put(numbers, number_that_is(b))
        }
        Literal::Retired { .. } | Literal::Marked { .. } => Ok(()),
    }
}

/// Adds the numbers in a clause.
fn put_of_clause(numbers: &mut BTreeSet<u32>, clause: &Clause) -> Result<(), NoMemory>
    ensures { OnOk result (numbers.new.keys ≡ with_numbers numbers.old.keys (clause_numbers clause.now)) }
{
    for literal in clause.literals.as_slice() {
        put_of_literal(numbers, literal)?;
    }
    Ok(())
}

/// Adds the numbers in clauses.
fn put_of_clauses(numbers: &mut BTreeSet<u32>, clauses: &[Clause]) -> Result<(), NoMemory>
    ensures { OnOk result (numbers.new.keys ≡ with_numbers numbers.old.keys (flat_map clause_numbers clauses.now)) }
{
    for clause in clauses {
        put_of_clause(numbers, clause)?;
    }
    Ok(())
}

/// Adds the numbers in the clauses of items.
fn put_of_items(numbers: &mut BTreeSet<u32>, items: &[Item]) -> Result<(), NoMemory>
    ensures { OnOk result (numbers.new.keys ≡ with_numbers numbers.old.keys (flat_map item_numbers items.now)) }
{
    for item in items {
        put_of_clause(numbers, &item.clause)?;
    }
    Ok(())
}

/// Adds the numbers of the file and its outline, 0 among them.
pub fn put_all(numbers: &mut BTreeSet<u32>, flow: &Flow, outline: &Outline) -> Result<(), NoMemory>
    ensures { OnOk result (numbers.new.keys ≡ with_numbers numbers.old.keys (all_numbers flow.now outline.now)) }
{
    put(numbers, Some(0))?;
    put_of_prims(numbers, flow.file.init.as_slice())?;
    put_of_steps(numbers, flow.steps.as_slice())?;
    put_of_clauses(numbers, outline.invariants.as_slice())?;
    put_of_items(numbers, outline.items.as_slice())
}
