// The table of the primitives: each is a list of tokens. What no text can say, as a call within a step,
// has an arbitrary text, so that a text can be given for every unit.
ghost use Rattle.std.specs.Prelude.{◌≡◌, ◌∷◌, [], map};
ghost use Rattle.plc_lang.specs.declared.syntax.Cond.TheVariants as conds;
ghost use Rattle.plc_syntax.specs.Trees.{kinds_of, placed_then, each_then, value_then, atom_then, set_then};
ghost use Rattle.plc_syntax.specs.Trees.{ghost_value_then, ghost_set_then, comparison_symbol, test_then};
ghost use Rattle.plc_syntax.specs.Trees.{name_or_null_then, condition_then, primitive_then, primitive_line_then};
ghost use Rattle.plc_syntax.specs.Trees.{initial_then};
ghost use Rattle.plc_print.specs.Canonical.{value_tree, number_tree, set_tree, ghost_value_tree, ghost_tree, test_tree};
ghost use Rattle.plc_print.specs.Canonical.{comparison, primitive_tree, initial_tree, name_or_null, refresh_condition};
ghost use Rattle.plc_print.specs.Canonical.{condition_tree};
ghost use Rattle.plc_print.specs.Outlines.{bare};
ghost use Rattle.plc_print.specs.Pieces.{Prints, kind_of};

use crate::names::Reach;
use crate::tokens::Piece::{self, Name, Sign, Word};
use crate::tokens::{ASSIGN, CLOSE, COMMA, DOT, NULL, OPEN, Printed, Printer, REFRESH, SEMICOLON};
use plc_lang::{Cond, File, GhostVal, Num, Prim, Rel, Var, auxiliary_name, value_name};
use plc_lex::{Keyword, Symbol};

/// A number or a data local.
fn number<'a>(reach: Reach<'a>, e: Num) -> Piece<'a>
    ensures value { kinds_of (value_then (value_tree reach.entry.file.now reach.entry.locals.now e) [])
        ≡ kind_of result ∷ [] }
    ensures atom { kinds_of (atom_then (number_tree reach.entry.file.now reach.entry.locals.now e) [])
        ≡ kind_of result ∷ [] }
{
    match e {
        Num::Lit(n) => Piece::Number(n),
        Num::Local(y) => reach.data(y),
    }
}

/// An assignment.
fn set(out: &mut Printer, reach: Reach, prim: Prim) -> Printed
    ensures { Prints result out.old out.new (set_then
        (set_tree reach.entry.file.now reach.entry.locals.now prim) []) }
{
    let (mark, unmark) = (Word(Keyword::Mark), Word(Keyword::Unmark));
    match prim {
        Prim::Null { p } => out.tokens(&[reach.name(p), ASSIGN, NULL]),
        Prim::Copy { p, q } => out.tokens(&[reach.name(p), ASSIGN, reach.name(q)]),
        Prim::New { p } => out.tokens(&[reach.name(p), ASSIGN, Word(Keyword::New)]),
        Prim::Mark { p, q } => out.tokens(&[reach.name(p), ASSIGN, mark, reach.name(q)]),
        Prim::Unmark { p, q } => out.tokens(&[reach.name(p), ASSIGN, unmark, reach.name(q)]),
        Prim::Load { p, q, f } => {
            out.tokens(&[reach.name(p), ASSIGN, reach.name(q), DOT, reach.field(f)])
        }
        Prim::Store { p, f, q } => {
            out.tokens(&[reach.name(p), DOT, reach.field(f), ASSIGN, reach.name(q)])
        }
        Prim::StoreNull { p, f } => {
            out.tokens(&[reach.name(p), DOT, reach.field(f), ASSIGN, NULL])
        }
        Prim::DataSet { x, e } => out.tokens(&[reach.data(x), ASSIGN, number(reach, e)]),
        Prim::DataLoad { x, q, f } => {
            out.tokens(&[reach.data(x), ASSIGN, reach.name(q), DOT, reach.field(f)])
        }
        Prim::DataStore { p, f, e } => {
            out.tokens(&[reach.name(p), DOT, reach.field(f), ASSIGN, number(reach, e)])
        }
        _ => out.tokens(&[Name(&[]), ASSIGN, NULL]),
    }
}

/// What is put into an auxiliary field.
fn ghost_value<'a>(reach: Reach<'a>, g: u16, v: GhostVal) -> Piece<'a>
    ensures { kinds_of (ghost_value_then (ghost_value_tree reach.entry.file.now reach.entry.locals.now g v) [])
        ≡ kind_of result ∷ [] }
{
    match v {
        GhostVal::Value(v) => Name(value_name(reach.file, g, v)),
        GhostVal::Me => Word(Keyword::Me),
        GhostVal::None => Word(Keyword::None),
    }
}

/// An assignment to an auxiliary field.
fn ghost_set(out: &mut Printer, reach: Reach, p: Var, g: u16, v: GhostVal) -> Printed
    ensures { Prints result out.old out.new (ghost_set_then
        (ghost_tree reach.entry.file.now reach.entry.locals.now p g v) []) }
{
    let auxiliary = Name(auxiliary_name(reach.file, g));
    out.tokens(&[Word(Keyword::Ghost), reach.name(p), DOT, auxiliary, ASSIGN])?;
    out.token(ghost_value(reach, g, v))
}

/// The symbol of a comparison of data.
fn relation(rel: Rel) -> Symbol
    ensures { result ≡ comparison_symbol (comparison rel) }
{
    match rel {
        Rel::Eq => Symbol::Equal,
        Rel::Ne => Symbol::Unequal,
        Rel::Lt => Symbol::Less,
        Rel::Ge => Symbol::AtLeast,
    }
}

/// A test.
fn test(out: &mut Printer, reach: Reach, prim: Prim) -> Printed
    ensures { Prints result out.old out.new (test_then
        (test_tree reach.entry.file.now reach.entry.locals.now prim) []) }
{
    match prim {
        Prim::Eq { p, q } => out.tokens(&[reach.name(p), Sign(Symbol::Equal), reach.name(q)]),
        Prim::Ne { p, q } => out.tokens(&[reach.name(p), Sign(Symbol::Unequal), reach.name(q)]),
        Prim::IsNull { p } => out.tokens(&[reach.name(p), Sign(Symbol::Equal), NULL]),
        Prim::NotNull { p } => out.tokens(&[reach.name(p), Sign(Symbol::Unequal), NULL]),
        Prim::DataTest { rel, x, e } => {
            out.tokens(&[reach.data(x), Sign(relation(rel)), number(reach, e)])
        }
        Prim::MarkTest { p, yes: true } => out.tokens(&[Word(Keyword::Marked), reach.name(p)]),
        Prim::MarkTest { p, yes: false } => out.tokens(&[Word(Keyword::Unmarked), reach.name(p)]),
        _ => out.tokens(&[Name(&[]), Sign(Symbol::Equal), NULL]),
    }
}

/// A primitive, without its semicolon.
fn primitive(out: &mut Printer, reach: Reach, prim: Prim) -> Printed
    ensures { Prints result out.old out.new (primitive_then
        (primitive_tree reach.entry.file.now reach.entry.locals.now prim) []) }
{
    match prim {
        Prim::Eq { .. }
        | Prim::Ne { .. }
        | Prim::IsNull { .. }
        | Prim::NotNull { .. }
        | Prim::DataTest { .. }
        | Prim::MarkTest { .. } => {
            out.token(Word(Keyword::Assume))?;
            test(out, reach, prim)
        }
        Prim::Refresh { .. } | Prim::RefreshLoad { .. } => refresh(out, reach, prim),
        Prim::RefreshStore { p, f, q } => {
            out.tokens(&[reach.name(p), DOT, reach.field(f), REFRESH, reach.name(q)])
        }
        Prim::Call { .. } | Prim::Done { .. } => out.token(Word(Keyword::Skip)),
        Prim::Active { p } => out.tokens(&[Word(Keyword::Active), reach.name(p)]),
        Prim::Ghost { p, g, v } => ghost_set(out, reach, p, g, v),
        _ => set(out, reach, prim),
    }
}

/// The primitives of an atomic block, each with its semicolon.
pub fn primitive_lines(out: &mut Printer, reach: Reach, prims: &[Prim]) -> Printed
    ensures { Prints result out.old out.new (each_then (placed_then primitive_line_then)
        (map (λ k. bare (primitive_tree reach.entry.file.now reach.entry.locals.now k)) prims.now) []) }
{
    for prim in prims {
        primitive_line(out, reach, *prim)?;
    }
    Ok(())
}

/// A primitive with its semicolon.
pub fn primitive_line(out: &mut Printer, reach: Reach, prim: Prim) -> Printed
    ensures { Prints result out.old out.new (primitive_line_then
        (primitive_tree reach.entry.file.now reach.entry.locals.now prim) []) }
{
    primitive(out, reach, prim)?;
    out.token(SEMICOLON)
}

/// A primitive of `init`, with its semicolon.
pub fn initial_line(out: &mut Printer, file: &File, prim: Prim) -> Printed
    ensures { Prints result out.old out.new (initial_then (initial_tree file.now prim) []) }
{
    let reach = Reach { file, locals: &[] };
    match prim {
        Prim::Ghost { p, g, v } => ghost_set(out, reach, p, g, v)?,
        _ => set(out, reach, prim)?,
    }
    out.token(SEMICOLON)
}

/// A pointer variable, or null.
fn name_or_null<'a>(reach: Reach<'a>, q: Option<Var>) -> Piece<'a>
    ensures { kinds_of (name_or_null_then (name_or_null reach.entry.file.now reach.entry.locals.now q) [])
        ≡ kind_of result ∷ [] }
{
    match q {
        None => NULL,
        Some(q) => reach.name(q),
    }
}

/// A compare-and-swap: what it is of, what is expected there, and what is put there.
fn cas(
    out: &mut Printer,
    reach: Reach,
    active: bool,
    p: Var,
    old: Option<Var>,
    new: Option<Var>,
) -> Printed
    ensures { Prints result out.old out.new (condition_then
        (condition_tree reach.entry.file.now reach.entry.locals.now (conds.Cas active p old new)) []) }
{
    let (word, claim, name) = (Word(Keyword::Cas), Word(Keyword::Active), reach.name(p));
    let (old, new) = (name_or_null(reach, old), name_or_null(reach, new));
    if active {
        out.tokens(&[word, OPEN, claim, name, COMMA, old, COMMA, new, CLOSE])
    } else {
        out.tokens(&[word, OPEN, name, COMMA, old, COMMA, new, CLOSE])
    }
}

/// A refresh into a variable.
fn refresh(out: &mut Printer, reach: Reach, prim: Prim) -> Printed
    ensures { Prints result out.old out.new (condition_then
        (refresh_condition reach.entry.file.now reach.entry.locals.now prim) []) }
{
    match prim {
        Prim::Refresh { p, q } => out.tokens(&[reach.local(p), REFRESH, reach.name(q)]),
        Prim::RefreshLoad { p, q, f } => {
            out.tokens(&[reach.local(p), REFRESH, reach.name(q), DOT, reach.field(f)])
        }
        _ => out.tokens(&[Name(&[]), REFRESH, Name(&[])]),
    }
}

/// The condition of an `if`.
pub fn condition(out: &mut Printer, reach: Reach, cond: Cond) -> Printed
    ensures { Prints result out.old out.new (condition_then
        (condition_tree reach.entry.file.now reach.entry.locals.now cond) []) }
{
    match cond {
        Cond::Test(prim) => test(out, reach, prim),
        Cond::Refresh(prim) => refresh(out, reach, prim),
        Cond::Cas {
            active,
            p,
            old,
            new,
        } => cas(out, reach, active, p, old, new),
    }
}
