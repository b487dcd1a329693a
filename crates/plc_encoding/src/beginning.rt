// How executions begin: all shared pointers are null before `init`, where no node is there yet; a thread starts
// an operation with null in its pointer locals and 0 in the data locals that are no parameters. No null is marked.
ghost use Rattle.std.specs.Prelude.{◌≡◌, ◌<◌, length, map, OnOk};
ghost use Rattle.plc_lang.specs.Locals.{is_other_data};
ghost use Rattle.plc_lang.specs.Numbering.{places_from};
ghost use Rattle.plc_ground.specs.declared.terms.Symbol.TheVariants as symbols;
ghost use Rattle.plc_symbolic.specs.Numbering.{written, written_all};
ghost use Rattle.plc_vocabulary.specs.Parts.{acting_locals};
ghost use Rattle.plc_vocabulary.specs.Setting.{below, only_if};
ghost use Rattle.plc_encoding.specs.Items.{equals, unmarked, only_new, start_clauses, enter_clauses, beginning};

use plc_base::NoMemory;
use plc_flow::Flow;
use plc_ground::Symbol;
use plc_lang::Local;
use plc_symbolic::{Draft, SymbolicTerm, is};
use plc_vocabulary::{Obligation, Setting, acting_locals, mark_of};

/// Writes that two constants are equal.
fn push_equal(left: Symbol, right: Symbol, out: &mut Draft) -> Result<(), NoMemory>
    ensures { OnOk result (out.new ≡ written out.old (equals left right)) }
{
    out.push(&[is(SymbolicTerm::Constant(left), SymbolicTerm::Constant(right))])
}

/// Writes that a pointer isn't marked.
fn push_unmarked(p: Symbol, out: &mut Draft) -> Result<(), NoMemory>
    ensures { OnOk result (out.new ≡ written out.old (unmarked p)) }
{
    push_equal(mark_of(p), Symbol::No, out)
}

/// Writes that a node is the new one, the only one there may be: an empty clause where none is made.
fn push_only_new(makes: bool, c: Symbol, out: &mut Draft) -> Result<(), NoMemory>
    ensures { OnOk result (out.new ≡ written out.old (only_new makes c)) }
{
    if makes {
        return push_equal(c, Symbol::New, out);
    }
    out.push(&[])
}

/// Writes that the shared pointers are null.
fn push_shared_null(shared: u16, out: &mut Draft) -> Result<(), NoMemory>
    ensures { OnOk result (out.new
        ≡ written_all out.old (map (λ i. equals (symbols.Shared i) symbols.Null) (below shared))) }
{
    for i in 0..shared {
        push_equal(Symbol::Shared(i), Symbol::Null, out)?;
    }
    Ok(())
}

/// Writes that each bound node is the new one, the only one there may be.
fn push_bound_new(makes: bool, bound: u16, out: &mut Draft) -> Result<(), NoMemory>
    ensures { OnOk result (out.new
        ≡ written_all out.old (map (λ i. only_new makes (symbols.Bound i)) (below bound))) }
{
    for i in 0..bound {
        push_only_new(makes, Symbol::Bound(i), out)?;
    }
    Ok(())
}

/// Writes that no shared pointer is marked, where marks are used.
fn push_shared_unmarked(marked: bool, shared: u16, out: &mut Draft) -> Result<(), NoMemory>
    ensures { OnOk result (out.new ≡ written_all out.old
        (only_if marked (map (λ i. unmarked (symbols.Shared i)) (below shared)))) }
{
    if !marked {
        return Ok(());
    }
    for i in 0..shared {
        push_unmarked(Symbol::Shared(i), out)?;
    }
    Ok(())
}

/// Writes what is known before `init`.
fn push_start(shared: u16, s: &Setting, out: &mut Draft) -> Result<(), NoMemory>
    ensures { OnOk result (out.new ≡ written_all out.old (start_clauses shared s.now)) }
{
    push_shared_null(shared, out)?;
    push_bound_new(s.makes, s.bound, out)?;
    push_shared_unmarked(s.marked, shared, out)
}

/// Whether a local is data and no parameter.
fn is_other_data(local: &Local) -> bool
    ensures { result ≡ is_other_data local.now }
{
    !local.pointer && !local.param
}

/// Writes that data locals which are no parameters are 0.
fn push_zeros(locals: &[Local], out: &mut Draft) -> Result<(), NoMemory>
    requires { length locals.now < 65536 }
    ensures { OnOk result (out.new ≡ written_all out.old
        (map (λ k. equals (symbols.Mine k) (symbols.Number 0)) (places_from is_other_data 0 locals.now))) }
{
    for (place, local) in locals.iter().enumerate() {
        if is_other_data(local) {
            push_equal(Symbol::Mine(place as u16), Symbol::Number(0), out)?;
        }
    }
    Ok(())
}

/// Writes that these pointers are null.
fn push_nulls(pointers: &[Symbol], out: &mut Draft) -> Result<(), NoMemory>
    ensures { OnOk result (out.new ≡ written_all out.old (map (λ p. equals p symbols.Null) pointers.now)) }
{
    for p in pointers {
        push_equal(*p, Symbol::Null, out)?;
    }
    Ok(())
}

/// Writes that none of these pointers is marked, where marks are used.
fn push_all_unmarked(marked: bool, pointers: &[Symbol], out: &mut Draft) -> Result<(), NoMemory>
    ensures { OnOk result (out.new ≡ written_all out.old (only_if marked (map unmarked pointers.now))) }
{
    if !marked {
        return Ok(());
    }
    for p in pointers {
        push_unmarked(*p, out)?;
    }
    Ok(())
}

/// Writes what is known of locals when an operation begins.
fn push_enter(locals: &[Local], s: &Setting, out: &mut Draft) -> Result<(), NoMemory>
    requires { length locals.now < 65536 }
    ensures { OnOk result (out.new ≡ written_all out.old (enter_clauses locals.now s.now)) }
{
    push_nulls(s.mine.pointers.as_slice(), out)?;
    push_zeros(locals, out)?;
    push_all_unmarked(s.marked, s.mine.pointers.as_slice(), out)
}

/// Writes what holds at first, by the kind of the obligation.
pub fn push_beginning(
    flow: &Flow,
    s: &Setting,
    o: &Obligation,
    out: &mut Draft,
) -> Result<(), NoMemory>
    requires shared { length flow.now.file.shared < 65536 }
    requires locals { length (acting_locals flow.now o.now) < 65536 }
    ensures { OnOk result (out.new ≡ written_all out.old (beginning flow.now s.now o.now)) }
{
    match o {
        Obligation::Start { .. } => push_start(flow.file.shared.len() as u16, s, out),
        Obligation::Enter { .. } => push_enter(acting_locals(flow, o), s, out),
        Obligation::Own { .. } | Obligation::Other { .. } | Obligation::Claim { .. } => Ok(()),
    }
}
