// What terms and literals mean. A term is judged for itself, whichever sort it has; the second term of
// an equation has to be of the first one's sort.
ghost use Rattle.std.specs.Prelude.{◌≡◌, ◌≤◌, length};
ghost use Rattle.plc_syntax.specs.Views.{place_tree, term_tree, flag_tree, literal_tree};
ghost use Rattle.plc_scope.specs.Answers.{Gives};
ghost use Rattle.plc_scope.specs.Scope.{most_locals};
ghost use Rattle.plc_outparse.specs.Meaning.{wanted_of, term_means, sort_place, second_means};
ghost use Rattle.plc_outparse.specs.Meaning.{pointer_means, flag_means, literal_means};
ghost use Rattle.plc_outparse.specs.Reach.{as_term, as_field, as_pointer, as_pointer_field};
ghost use Rattle.plc_outparse.specs.Views.{reach_of};

use crate::kind::Kind;
use crate::reach::{Reach, base_at, kind_at};
use plc_logic::{Base, Literal, Sort, Term};
use plc_scope::{ParseFault, Resolved};
use plc_syntax::{Flag as FlagForm, Literal as LiteralForm, Place, Term as TermForm};

/// The term that a name alone is.
fn as_term(kind: Kind) -> Option<(Term, Sort)>
    ensures { result ≡ as_term kind }
{
    match kind {
        Kind::Node(Base::Shared(i)) => Some((Term::Shared(i), Sort::Node)),
        Kind::Node(Base::Local(i)) => Some((Term::Local(i), Sort::Node)),
        Kind::Node(Base::Bound(i)) => Some((Term::Bound(i), Sort::Node)),
        Kind::Data(i) => Some((Term::Local(i), Sort::Number)),
        Kind::Value(g, v) => Some((Term::Value { g, v }, Sort::Value(g))),
        Kind::Field(..) | Kind::Auxiliary(..) | Kind::NoValue => None,
    }
}

/// The term that a name is after a base and a dot.
fn as_field(base: Base, kind: Kind) -> Option<(Term, Sort)>
    ensures { result ≡ as_field base kind }
{
    match kind {
        Kind::Field(f, sort) => Some((Term::FieldOf { base, f }, sort)),
        Kind::Auxiliary(g, sort) => Some((Term::GhostOf { base, g }, sort)),
        _ => None,
    }
}

/// A name, or a field of one, as a term with its sort.
fn place(reach: &Reach, place: Place) -> Resolved<(Term, Sort)>
    requires { length reach.now.locals.now ≤ most_locals }
    ensures { Gives (λ r. (r.0, r.1)) result
        (wanted_of (reach_of reach.now) as_term as_field (place_tree place.entry)) }
{
    let name = place.name;
    match place.field {
        None => as_term(kind_at(reach, name)?).ok_or(ParseFault::WrongSort { at: name.at }),
        Some(field) => {
            let base = base_at(reach, name)?;
            as_field(base, kind_at(reach, field)?).ok_or(ParseFault::WrongSort { at: field.at })
        }
    }
}

/// A term with its sort. An invariant has no thread that is in an operation.
#[tactic(auto, unfolding(crate::specs::Meaning::term_means))]
fn term(reach: &Reach, form: TermForm) -> Resolved<(Term, Sort)>
    requires { length reach.now.locals.now ≤ most_locals }
    ensures { Gives (λ r. (r.0, r.1)) result (term_means (reach_of reach.now) (term_tree form.entry)) }
{
    match form {
        TermForm::Place(named) => place(reach, named),
        TermForm::Null(_) => Ok((Term::Null, Sort::Node)),
        TermForm::Number(n) => Ok((Term::Number(n.value), Sort::Number)),
        TermForm::Me(_) if reach.in_operation => Ok((Term::Me, Sort::Thread)),
        TermForm::Me(at) => Err(ParseFault::WrongSort { at }),
        TermForm::None(_) => Ok((Term::Nobody, Sort::Thread)),
    }
}

/// The token by which a term has its sort.
fn sort_place(form: TermForm) -> u32
    ensures { result ≡ sort_place (term_tree form.entry) }
{
    match form {
        TermForm::Place(Place { name, field: None }) => name.at,
        TermForm::Place(Place { field: Some(f), .. }) => f.at,
        TermForm::Number(n) => n.at,
        TermForm::Null(at) | TermForm::Me(at) | TermForm::None(at) => at,
    }
}

/// The second term of an equation, which has the sort of the first.
#[tactic(auto, unfolding(crate::specs::Meaning::second_means))]
fn second(reach: &Reach, sort: Sort, form: TermForm) -> Resolved<Term>
    requires { length reach.now.locals.now ≤ most_locals }
    ensures { Gives (λ r. r) result (second_means (reach_of reach.now) sort (term_tree form.entry)) }
{
    let (second, found) = term(reach, form)?;
    if found == sort {
        return Ok(second);
    }
    let at = sort_place(form);
    Err(ParseFault::WrongSort { at })
}

/// The place of a pointer that a name alone is. A quantified name is a node, and no place of one.
fn as_pointer(kind: Kind) -> Option<Term>
    ensures { result ≡ as_pointer kind }
{
    match kind {
        Kind::Node(Base::Shared(i)) => Some(Term::Shared(i)),
        Kind::Node(Base::Local(i)) => Some(Term::Local(i)),
        _ => None,
    }
}

/// The place of a pointer that a name is after a base and a dot.
fn as_pointer_field(base: Base, kind: Kind) -> Option<Term>
    ensures { result ≡ as_pointer_field base kind }
{
    match kind {
        Kind::Field(f, Sort::Node) => Some(Term::FieldOf { base, f }),
        _ => None,
    }
}

/// A place that holds a pointer, and so a mark: a shared pointer or a pointer local, or a pointer field.
fn pointer(reach: &Reach, place: Place) -> Resolved<Term>
    requires { length reach.now.locals.now ≤ most_locals }
    ensures { Gives (λ t. t) result (pointer_means (reach_of reach.now) (place_tree place.entry)) }
{
    let name = place.name;
    match place.field {
        None => as_pointer(kind_at(reach, name)?).ok_or(ParseFault::WrongSort { at: name.at }),
        Some(field) => {
            let base = base_at(reach, name)?;
            let kind = kind_at(reach, field)?;
            as_pointer_field(base, kind).ok_or(ParseFault::WrongSort { at: field.at })
        }
    }
}

/// The literal that a flag is so, or is not.
fn flag(reach: &Reach, yes: bool, form: FlagForm) -> Resolved<Literal>
    requires { length reach.now.locals.now ≤ most_locals }
    ensures { Gives (λ r. r) result (flag_means (reach_of reach.now) yes (flag_tree form.entry)) }
{
    match form {
        FlagForm::Retired(name) => {
            let x = base_at(reach, name)?;
            Ok(Literal::Retired { x, yes })
        }
        FlagForm::Marked(place) => {
            let t = pointer(reach, place)?;
            Ok(Literal::Marked { t, yes })
        }
    }
}

/// The literal of a form. `Undeclared` for a name without a declaration in reach, and `WrongSort` for a
/// term that can't stand there or a second one of another sort than the first.
#[tactic(auto, unfolding(crate::specs::Meaning::literal_means))]
pub fn literal(reach: &Reach, form: LiteralForm) -> Resolved<Literal>
    requires { length reach.now.locals.now ≤ most_locals }
    ensures { Gives (λ r. r) result (literal_means (reach_of reach.now) (literal_tree form.entry)) }
{
    match form {
        LiteralForm::Flag(form) => flag(reach, true, form),
        LiteralForm::Not(form) => flag(reach, false, form),
        LiteralForm::Equation(left, equal, right) => {
            let (a, sort) = term(reach, left)?;
            let b = second(reach, sort, right)?;
            Ok(Literal::Same { a, b, equal })
        }
    }
}
