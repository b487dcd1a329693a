// Clauses. A name in one stands for what is nearest: a quantified name, a local of the operation, or
// what the file declares. A clause without literals has no text, so that one that is never true stands
// for it.
ghost use Rattle.std.specs.Prelude.{◌≡◌, ◌∷◌, [], get_or, map};
ghost use Rattle.plc_lex.specs.declared.token.Symbol.TheVariants.{Semicolon};
ghost use Rattle.plc_lex.specs.declared.token.TokenKind.TheVariants.{Name as NameToken};
ghost use Rattle.plc_logic.specs.declared.clause.Literal.TheVariants as literals;
ghost use Rattle.plc_syntax.specs.Trees.{NoBound, MarkedFlag, symbol, each_then, place_then, term_then, flag_then};
ghost use Rattle.plc_syntax.specs.Trees.{equality_symbol, literal_then, or_literal_then, bound_then, clause_then};
ghost use Rattle.plc_print.specs.Outlines.{bare, base_name, term_tree, pointer_place, literal_tree, bound_tree};
ghost use Rattle.plc_print.specs.Outlines.{claims_tree, clause_tree};
ghost use Rattle.plc_print.specs.Pieces.{Prints, kind_of};

use crate::names::Reach;
use crate::tokens::Piece::{self, Name, Number, Sign, Word};
use crate::tokens::{CLOSE, COLON, COMMA, DOT, NULL, OPEN, Printed, Printer, SEMICOLON};
use plc_base::Names;
use plc_lang::{File, Local, auxiliary_name, field_name, local_name, shared_name, value_name};
use plc_lex::{Keyword, Symbol};
use plc_logic::{Base, Clause, Literal, Term};

/// A quantified name, by its number.
fn bound_name(bound: &Names, i: u16) -> &[u8]
    ensures { result.now ≡ get_or bound.now.names i [] }
{
    if i < bound.len() { bound.get(i) } else { &[] }
}

/// What is in reach of a literal.
#[derive(Clone, Copy)]
struct InClause<'a> {
    file: &'a File,
    locals: &'a [Local],
    bound: &'a Names,
}

impl<'a> InClause<'a> {
    /// The name of a node.
    fn base(self, base: Base) -> Piece<'a>
        ensures { kind_of result ≡ NameToken
            (base_name self.entry.file.now self.entry.locals.now self.entry.bound.now.names base) }
    {
        match base {
            Base::Shared(i) => Name(shared_name(self.file, i)),
            Base::Local(v) => Name(local_name(self.file, self.locals, v)),
            Base::Bound(i) => Name(bound_name(self.bound, i)),
        }
    }
}

/// One side of an equation.
fn term(out: &mut Printer, reach: InClause, term: Term) -> Printed
    ensures { Prints result out.old out.new (term_then
        (term_tree reach.entry.file.now reach.entry.locals.now reach.entry.bound.now.names term) []) }
{
    match term {
        Term::Shared(i) => out.token(reach.base(Base::Shared(i))),
        Term::Local(v) => out.token(reach.base(Base::Local(v))),
        Term::Bound(i) => out.token(reach.base(Base::Bound(i))),
        Term::FieldOf { base, f } => {
            out.tokens(&[reach.base(base), DOT, Name(field_name(reach.file, f))])
        }
        Term::GhostOf { base, g } => {
            out.tokens(&[reach.base(base), DOT, Name(auxiliary_name(reach.file, g))])
        }
        Term::Null => out.token(NULL),
        Term::Number(n) => out.token(Number(n)),
        Term::Value { g, v } => out.token(Name(value_name(reach.file, g, v))),
        Term::Me => out.token(Word(Keyword::Me)),
        Term::Nobody => out.token(Word(Keyword::None)),
    }
}

/// `==` or `!=`.
fn equality(equal: bool) -> Symbol
    ensures { result ≡ equality_symbol equal }
{
    if equal {
        Symbol::Equal
    } else {
        Symbol::Unequal
    }
}

/// Two terms that are equal, or are not.
fn same(out: &mut Printer, reach: InClause, a: Term, b: Term, equal: bool) -> Printed
    ensures { Prints result out.old out.new (literal_then (literal_tree reach.entry.file.now
        reach.entry.locals.now reach.entry.bound.now.names (literals.Same a b equal)) []) }
{
    term(out, reach, a)?;
    out.token(Sign(equality(equal)))?;
    term(out, reach, b)
}

/// A node that is retired, or is not.
fn retired(out: &mut Printer, reach: InClause, x: Base, yes: bool) -> Printed
    ensures { Prints result out.old out.new (literal_then (literal_tree reach.entry.file.now
        reach.entry.locals.now reach.entry.bound.now.names (literals.Retired x yes)) []) }
{
    let (word, name) = (Word(Keyword::Retired), reach.base(x));
    if yes {
        out.tokens(&[word, OPEN, name, CLOSE])
    } else {
        out.tokens(&[Word(Keyword::Not), word, OPEN, name, CLOSE])
    }
}

/// The place of a pointer.
fn place(out: &mut Printer, reach: InClause, t: Term) -> Printed
    ensures { Prints result out.old out.new (place_then
        (pointer_place reach.entry.file.now reach.entry.locals.now reach.entry.bound.now.names t) []) }
{
    match t {
        Term::Shared(_) | Term::Local(_) | Term::FieldOf { .. } => term(out, reach, t),
        _ => out.token(Name(&[])),
    }
}

/// A pointer that is marked.
fn is_marked(out: &mut Printer, reach: InClause, t: Term) -> Printed
    ensures { Prints result out.old out.new (flag_then (MarkedFlag
        (pointer_place reach.entry.file.now reach.entry.locals.now reach.entry.bound.now.names t)) []) }
{
    out.tokens(&[Word(Keyword::Marked), OPEN])?;
    place(out, reach, t)?;
    out.token(CLOSE)
}

/// A pointer that is marked, or is not.
fn marked(out: &mut Printer, reach: InClause, t: Term, yes: bool) -> Printed
    ensures { Prints result out.old out.new (literal_then (literal_tree reach.entry.file.now
        reach.entry.locals.now reach.entry.bound.now.names (literals.Marked t yes)) []) }
{
    if yes {
        return is_marked(out, reach, t);
    }
    out.token(Word(Keyword::Not))?;
    is_marked(out, reach, t)
}

/// A literal.
fn literal(out: &mut Printer, reach: InClause, literal: Literal) -> Printed
    ensures { Prints result out.old out.new (literal_then
        (literal_tree reach.entry.file.now reach.entry.locals.now reach.entry.bound.now.names literal) []) }
{
    match literal {
        Literal::Same { a, b, equal } => same(out, reach, a, b, equal),
        Literal::Retired { x, yes } => retired(out, reach, x, yes),
        Literal::Marked { t, yes } => marked(out, reach, t, yes),
    }
}

/// A literal after the first.
fn or_literal(out: &mut Printer, reach: InClause, further: Literal) -> Printed
    ensures { Prints result out.old out.new (or_literal_then (bare
        (literal_tree reach.entry.file.now reach.entry.locals.now reach.entry.bound.now.names further)) []) }
{
    out.token(Word(Keyword::Or))?;
    literal(out, reach, further)
}

/// The literals after the first.
fn or_literals(out: &mut Printer, reach: InClause, literals: &[Literal]) -> Printed
    ensures { Prints result out.old out.new (each_then or_literal_then (map bare (map (literal_tree
        reach.entry.file.now reach.entry.locals.now reach.entry.bound.now.names) literals.now)) []) }
{
    for further in literals {
        or_literal(out, reach, *further)?;
    }
    Ok(())
}

/// The literals of a clause.
fn claims(out: &mut Printer, reach: InClause, literals: &[Literal]) -> Printed
    ensures { Prints result out.old out.new (clause_then (claims_tree NoBound (map (literal_tree
        reach.entry.file.now reach.entry.locals.now reach.entry.bound.now.names) literals.now)) []) }
{
    match literals {
        [] => out.tokens(&[NULL, Sign(Symbol::Unequal), NULL]),
        [first, others @ ..] => {
            literal(out, reach, *first)?;
            or_literals(out, reach, others)
        }
    }
}

/// The quantified names of a clause, of which there are at most two.
fn quantified(out: &mut Printer, bound: &Names) -> Printed
    ensures { Prints result out.old out.new (bound_then (bound_tree bound.now.names) []) }
{
    let (first, second) = (Name(bound_name(bound, 0)), Name(bound_name(bound, 1)));
    let all = Word(Keyword::All);
    match bound.len() {
        0 => Ok(()),
        1 => out.tokens(&[all, first, COLON]),
        _ => out.tokens(&[all, first, COMMA, second, COLON]),
    }
}

/// A clause, without its semicolon.
fn clause(out: &mut Printer, reach: Reach, clause: &Clause) -> Printed
    ensures { Prints result out.old out.new (clause_then
        (clause_tree reach.entry.file.now reach.entry.locals.now clause.now) []) }
{
    let (file, locals, bound) = (reach.file, reach.locals, &clause.bound);
    quantified(out, bound)?;
    let inside = InClause {
        file,
        locals,
        bound,
    };
    claims(out, inside, clause.literals.as_slice())
}

/// A clause with its semicolon.
pub fn clause_line(out: &mut Printer, reach: Reach, claim: &Clause) -> Printed
    ensures { Prints result out.old out.new (clause_then
        (clause_tree reach.entry.file.now reach.entry.locals.now claim.now) (symbol Semicolon ∷ [])) }
{
    clause(out, reach, claim)?;
    out.token(SEMICOLON)
}
