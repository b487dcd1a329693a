// Obligations whose clause is read after the step as before it. Where a step writes one field, the clauses of other
// threads that don't speak of this field are as true after it as before: each is its own premise, so no ground set is
// made. Most steps write one thing, so these are most of the obligations that aren't still.
ghost use Rattle.std.specs.Prelude.{◌≡◌, ◌==◌, ◌||◌, not, length, option_copied};
ghost use Rattle.std.specs.List.{list_any};
ghost use Rattle.plc_lang.specs.Allocation.{is_new};
ghost use Rattle.plc_vocabulary.specs.Fit.{Fits};
ghost use Rattle.plc_vocabulary.specs.Parts.{executed, conclusion};
ghost use Rattle.plc_oblig.specs.Untouched.{shared_part, written, is_pointer, is_field, is_ghost, is_flag, reaches};
ghost use Rattle.plc_oblig.specs.Untouched.{term_reads, literal_reads, any_reads, passes, touches, is_read_alike};
ghost use Rattle.plc_oblig.specs.Untouched.{any_read_alike, is_untouched, UntouchedObligationsAreKept};

use plc_base::FieldId;
use plc_flow::Flow;
use plc_lang::{Prim, Var, has_new};
use plc_logic::{Base, Clause, Literal, Outline, Term};
use plc_vocabulary::{Obligation, conclusion, executed};

/// A part of the state that a step may write and a clause may read: a shared pointer, a field or an auxiliary field of
/// all nodes, or which nodes are retired. A pointer's mark is part of it, and so are the marks in a field.
#[derive(Clone, Copy)]
pub enum Part {
    Shared(u16),
    Field(FieldId),
    Ghost(u16),
    Retired,
}

/// A pointer variable as such a part, where all threads share it.
fn shared_part(p: Var) -> Option<Part>
    ensures { result ≡ shared_part p }
{
    match p {
        Var::Shared(i) => Some(Part::Shared(i)),
        Var::Local(_) => None,
    }
}

/// The part that a primitive writes, or gives a mark.
fn written(prim: &Prim) -> Option<Part>
    ensures { result ≡ written prim.now }
{
    match *prim {
        Prim::Null { p } => shared_part(p),
        Prim::Copy { p, .. } => shared_part(p),
        Prim::New { p } => shared_part(p),
        Prim::Load { p, .. } => shared_part(p),
        Prim::Mark { p, .. } => shared_part(p),
        Prim::Unmark { p, .. } => shared_part(p),
        Prim::Store { f, .. } => Some(Part::Field(f)),
        Prim::StoreNull { f, .. } => Some(Part::Field(f)),
        Prim::DataStore { f, .. } => Some(Part::Field(f)),
        Prim::RefreshStore { f, .. } => Some(Part::Field(f)),
        Prim::Ghost { g, .. } => Some(Part::Ghost(g)),
        Prim::Call { func, .. } => {
            if func.is_retire() {
                Some(Part::Retired)
            } else {
                None
            }
        }
        _ => None,
    }
}

/// Whether the part is this shared pointer.
fn is_pointer(i: u16, part: Part) -> bool
    ensures { result ≡ is_pointer i part }
{
    match part {
        Part::Shared(j) => j == i,
        _ => false,
    }
}

/// Whether the part is this field.
fn is_field(f: FieldId, part: Part) -> bool
    ensures { result ≡ is_field f part }
{
    match part {
        Part::Field(h) => h.0 == f.0,
        _ => false,
    }
}

/// Whether the part is this auxiliary field.
fn is_ghost(g: u16, part: Part) -> bool
    ensures { result ≡ is_ghost g part }
{
    match part {
        Part::Ghost(h) => h == g,
        _ => false,
    }
}

/// Whether the part is which nodes are retired.
fn is_flag(part: Part) -> bool
    ensures { result ≡ is_flag part }
{
    matches!(part, Part::Retired)
}

/// Whether a node is reached by way of the part.
fn reaches(part: Part, base: Base) -> bool
    ensures { result ≡ reaches part base }
{
    match base {
        Base::Shared(i) => is_pointer(i, part),
        _ => false,
    }
}

/// Whether a term, or its mark, is read by way of the part.
fn term_reads(part: Part, term: Term) -> bool
    ensures { result ≡ term_reads part term }
{
    match term {
        Term::Shared(i) => is_pointer(i, part),
        Term::FieldOf { base, f } => reaches(part, base) || is_field(f, part),
        Term::GhostOf { base, g } => reaches(part, base) || is_ghost(g, part),
        _ => false,
    }
}

/// Whether a literal is.
fn literal_reads(part: Part, literal: &Literal) -> bool
    ensures { result ≡ literal_reads part literal.now }
{
    match *literal {
        Literal::Same { a, b, .. } => term_reads(part, a) || term_reads(part, b),
        Literal::Retired { x, .. } => reaches(part, x) || is_flag(part),
        Literal::Marked { t, .. } => term_reads(part, t),
    }
}

/// Whether any of these literals is.
fn any_reads(literals: &[Literal], part: Part) -> bool
    ensures { result ≡ any_reads literals.now part }
{
    literals.iter().any(|literal| literal_reads(part, literal))
}

/// Whether the primitive writes what these literals read.
fn touches(literals: &[Literal], prim: &Prim) -> bool
    ensures { result ≡ touches literals.now prim.now }
{
    match written(prim) {
        None => false,
        Some(part) => any_reads(literals, part),
    }
}

/// Whether any primitive does.
fn any_touches(literals: &[Literal], prims: &[Prim]) -> bool
    ensures { result ≡ list_any (touches literals.now) prims.now }
{
    prims.iter().any(|prim| touches(literals, prim))
}

/// Whether the clause may be read at other nodes after the step than before: it quantifies, and a node is made.
fn gains_nodes(prims: &[Prim], clause: &Clause) -> bool
    ensures { not result ≡ (length clause.now.bound.names == 0 || not (list_any is_new prims.now)) }
{
    clause.bound.len() != 0 && has_new(prims)
}

/// Whether the clause is read after the primitives as before them.
fn is_read_alike(prims: &[Prim], clause: &Clause) -> bool
    ensures { result ≡ is_read_alike prims.now clause.now }
{
    !any_touches(clause.literals.as_slice(), prims) && !gains_nodes(prims, clause)
}

/// Whether the obligation's conclusion is.
fn is_conclusion_read_alike(flow: &Flow, outline: &Outline, o: &Obligation) -> bool
    requires { Fits flow.now outline.now }
    ensures { result ≡ any_read_alike (executed flow.now o.now) (conclusion flow.now outline.now o.now) }
{
    match conclusion(flow, outline, o) {
        None => false,
        Some(clause) => is_read_alike(executed(flow, o), clause),
    }
}

/// Whether the obligation is untouched: it says an invariant, or a clause of another thread, after a step that writes
/// no shared pointer, field or auxiliary field of which the clause speaks, sets or clears no mark there, and retires
/// nothing where the clause speaks of that; and that makes no node, if the clause quantifies. Each still obligation is.
/// It takes no memory.
pub fn untouched(flow: &Flow, outline: &Outline, o: &Obligation) -> bool
    requires { Fits flow.now outline.now }
    ensures { result ≡ is_untouched flow.now outline.now o.now }
{
    match *o {
        Obligation::Own { clause, .. } => {
            (clause as usize) < outline.invariants.len()
                && is_conclusion_read_alike(flow, outline, o)
        }
        Obligation::Other { .. } => is_conclusion_read_alike(flow, outline, o),
        _ => false,
    }
}

/// The law that an untouched obligation is kept: its ground set has no model, and needn't be made.
pub fn untouched_obligations_are_kept()
    ensures { UntouchedObligationsAreKept }
{}
