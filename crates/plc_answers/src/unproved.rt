// The text of a file whose outline doesn't hold. A term's argument stands before it in the list, so the
// texts are made in the order of the terms, and the text of an application takes that of its argument as it
// stands: the work is that of what is written.
ghost use Rattle.std.specs.Prelude.{◌≡◌, ◌++◌, OnOk, IfOk, codes, decimal, get_or, map, []};
ghost use Rattle.plc_lang.specs.Names.{value_name};
ghost use Rattle.plc_lang.specs.Numbering.{value_at};
ghost use Rattle.plc_answers.specs.Unproved.{step_text, claim_text, obligation_text, value_in, mark_text};
ghost use Rattle.plc_answers.specs.Unproved.{symbol_text, map_name};
ghost use Rattle.plc_answers.specs.Unproved.{term_text, term_texts, term_line, term_lines, unproved_text};

use crate::pieces::{push, push_bytes, push_number, push_numbered};
use crate::steps::line_of;
use plc_base::StepId;
use plc_flow::Flow;
use plc_ground::{GroundSet, GroundTerm, Map, Symbol};
use plc_lang::{
    File, Local, auxiliary_name, field_name, local_name, name_at, operation_name, shared_name,
    value_at,
};
use plc_vocabulary::{Obligation, acting_locals, owner_locals};
use std::alloc::{AllocError, Global};

/// A step with its line, after words.
fn push_step(out: &mut Vec<u8>, words: &str, flow: &Flow, step: StepId) -> Result<(), AllocError>
    ensures { OnOk result (out.new.items ≡ out.old.items ++ words.now ++ step_text flow.now step.0) }
{
    push_numbered(out, words, u32::from(step.0))?;
    push_numbered(out, " line ", line_of(flow, step.0))
}

/// A claim with its step and line.
fn push_claim(out: &mut Vec<u8>, flow: &Flow, step: StepId, prim: u16) -> Result<(), AllocError>
    ensures { OnOk result (out.new.items ≡ out.old.items ++ codes "claim step " ++ claim_text flow.now step.0 prim) }
{
    push_numbered(out, "claim step ", u32::from(step.0))?;
    push_numbered(out, " prim ", u32::from(prim))?;
    push_numbered(out, " line ", line_of(flow, step.0))
}

/// The number of a clause.
fn push_clause(out: &mut Vec<u8>, clause: u16) -> Result<(), AllocError>
    ensures { OnOk result (out.new.items ≡ out.old.items ++ codes " clause " ++ decimal clause) }
{
    push_numbered(out, " clause ", u32::from(clause))
}

/// Words with a name after them.
fn push_named(out: &mut Vec<u8>, words: &str, name: &[u8]) -> Result<(), AllocError>
    ensures { OnOk result (out.new.items ≡ out.old.items ++ words.now ++ name.now) }
{
    push(out, words)?;
    push_bytes(out, name)
}

/// What has to be proved.
fn push_obligation(out: &mut Vec<u8>, flow: &Flow, o: &Obligation) -> Result<(), AllocError>
    ensures { OnOk result (out.new.items ≡ out.old.items ++ obligation_text flow.now o.now) }
{
    match *o {
        Obligation::Start { inv } => { push_numbered(out, "start clause ", u32::from(inv)) }
        Obligation::Enter { op, clause } => {
            push_named(out, "enter ", operation_name(&flow.file, op))?;
            push_clause(out, clause)
        }
        Obligation::Own { step, clause } => {
            push_step(out, "own step ", flow, step)?;
            push_clause(out, clause)
        }
        Obligation::Other {
            step,
            point,
            clause,
        } => {
            push_step(out, "other step ", flow, step)?;
            push_numbered(out, " point ", u32::from(point.0))?;
            push_clause(out, clause)
        }
        Obligation::Claim { step, prim } => push_claim(out, flow, step, prim),
    }
}

/// The name of a value of an auxiliary field.
fn value_of(file: &File, field: usize, value: u32) -> &[u8]
    ensures { result.now ≡ value_name file.now field value }
{
    match file.ghosts.get(field) {
        None => &[],
        Some(auxiliary) => match auxiliary.values.get(value as usize) {
            None => &[],
            Some(name) => name_at(file, *name),
        },
    }
}

/// The name of a value of an auxiliary field, by its number over the file; the empty name where none has it.
pub fn value_text(file: &File, number: u16) -> &[u8]
    ensures { result.now ≡ value_in file.now (value_at file.now.ghosts number) }
{
    match value_at(file.ghosts.as_slice(), u32::from(number)) {
        None => &[],
        Some((field, value)) => value_of(file, field, value),
    }
}

/// The mark of a constant that is spelled as words and a name.
fn push_mark(out: &mut Vec<u8>, words: &str, name: &[u8]) -> Result<(), AllocError>
    ensures { OnOk result (out.new.items ≡ out.old.items ++ mark_text (words.now ++ name.now)) }
{
    push(out, "mark(")?;
    push_named(out, words, name)?;
    push(out, ")")
}

/// The mark of what a load reads.
fn push_loaded_mark(out: &mut Vec<u8>, load: u16) -> Result<(), AllocError>
    ensures { OnOk result (out.new.items ≡ out.old.items ++ mark_text (codes "r" ++ decimal load)) }
{
    push(out, "mark(")?;
    push_numbered(out, "r", u32::from(load))?;
    push(out, ")")
}

/// A constant.
fn push_symbol(
    out: &mut Vec<u8>,
    file: &File,
    mine: &[Local],
    theirs: &[Local],
    symbol: Symbol,
) -> Result<(), AllocError>
    ensures { OnOk result (out.new.items ≡ out.old.items ++ symbol_text file.now mine.now theirs.now symbol) }
{
    match symbol {
        Symbol::Null => push(out, "null"),
        Symbol::Shared(i) => push_named(out, "s:", shared_name(file, i)),
        Symbol::Mine(v) => push_named(out, "a:", local_name(file, mine, v)),
        Symbol::Theirs(v) => push_named(out, "b:", local_name(file, theirs, v)),
        Symbol::New => push(out, "new"),
        Symbol::Bound(c) => push_numbered(out, "c", u32::from(c)),
        Symbol::Loaded(r) => push_numbered(out, "r", u32::from(r)),
        Symbol::Yes => push(out, "yes"),
        Symbol::No => push(out, "no"),
        Symbol::Nobody => push(out, "none"),
        Symbol::Me => push(out, "me"),
        Symbol::You => push(out, "you"),
        Symbol::Value(v) => push_bytes(out, value_text(file, v)),
        Symbol::Number(n) => push_number(out, u64::from(n)),
        Symbol::MarkShared(i) => push_mark(out, "s:", shared_name(file, i)),
        Symbol::MarkMine(v) => push_mark(out, "a:", local_name(file, mine, v)),
        Symbol::MarkTheirs(v) => push_mark(out, "b:", local_name(file, theirs, v)),
        Symbol::MarkLoaded(r) => push_loaded_mark(out, r),
    }
}

/// The name of what is applied.
fn push_map(out: &mut Vec<u8>, file: &File, map: Map) -> Result<(), AllocError>
    ensures { OnOk result (out.new.items ≡ out.old.items ++ map_name file.now map) }
{
    match map {
        Map::Field(f) => push_bytes(out, field_name(file, f)),
        Map::Ghost(g) => push_bytes(out, auxiliary_name(file, g)),
        Map::Retired => push(out, "retired"),
        Map::FieldMark(f) => {
            push_bytes(out, field_name(file, f))?;
            push(out, ".mark")
        }
    }
}

/// The text at a place, or nothing after the last.
fn text_at(texts: &[Vec<u8>], at: u32) -> &[u8]
    ensures { result.now ≡ get_or (map (λ t. t.items) texts.now) at [] }
{
    match texts.get(at as usize) {
        Some(text) => text.as_slice(),
        None => &[],
    }
}

/// An application, by the text of its argument.
fn push_application(
    out: &mut Vec<u8>,
    file: &File,
    map: Map,
    version: u16,
    arg: &[u8],
) -> Result<(), AllocError>
    ensures { OnOk result (out.new.items ≡ out.old.items
        ++ map_name file.now map ++ codes "." ++ decimal version ++ codes "(" ++ arg.now ++ codes ")") }
{
    push_map(out, file, map)?;
    push_numbered(out, ".", u32::from(version))?;
    push_named(out, "(", arg)?;
    push(out, ")")
}

/// A term, where the texts of the terms before it are these.
fn push_term(
    out: &mut Vec<u8>,
    file: &File,
    mine: &[Local],
    theirs: &[Local],
    before: &[Vec<u8>],
    term: GroundTerm,
) -> Result<(), AllocError>
    ensures { OnOk result (out.new.items ≡ out.old.items
        ++ term_text file.now mine.now theirs.now (map (λ t. t.items) before.now) term) }
{
    match term {
        GroundTerm::Const(symbol) => push_symbol(out, file, mine, theirs, symbol),
        GroundTerm::App { map, version, arg } => push_application(
            out,
            file,
            map,
            version,
            text_at(before, arg),
        ),
    }
}

/// The text of the next term.
fn next_text(
    alloc: Global,
    file: &File,
    mine: &[Local],
    theirs: &[Local],
    before: &[Vec<u8>],
    term: GroundTerm,
) -> Result<Vec<u8>, AllocError>
    ensures { IfOk result (λ v. v.items
        ≡ term_text file.now mine.now theirs.now (map (λ t. t.items) before.now) term) }
{
    let mut out = Vec::new(alloc);
    push_term(&mut out, file, mine, theirs, before, term)?;
    Ok(out)
}

/// The texts of terms, in their order.
fn term_texts(
    alloc: Global,
    file: &File,
    mine: &[Local],
    theirs: &[Local],
    terms: &[GroundTerm],
) -> Result<Vec<Vec<u8>>, AllocError>
    ensures { IfOk result (λ texts. map (λ t. t.items) texts.items
        ≡ term_texts file.now mine.now theirs.now terms.now) }
{
    let mut texts: Vec<Vec<u8>> = Vec::new(alloc);
    for term in terms {
        let text = next_text(alloc, file, mine, theirs, &texts, *term)?;
        texts.push(text)?;
    }
    Ok(texts)
}

/// The line of a term.
fn push_line(out: &mut Vec<u8>, term: u64, text: &[u8], class: u32) -> Result<(), AllocError>
    ensures { OnOk result (out.new.items ≡ out.old.items ++ term_line term text.now class) }
{
    push(out, "term ")?;
    push_number(out, term)?;
    push_named(out, " ", text)?;
    push_numbered(out, " class ", class)?;
    push(out, "\n")
}

/// The lines of the terms that have a class.
fn push_lines(out: &mut Vec<u8>, texts: &[Vec<u8>], class: &[u32]) -> Result<(), AllocError>
    ensures { OnOk result (out.new.items ≡ out.old.items
        ++ term_lines 0 (map (λ t. t.items) texts.now) class.now) }
{
    for i in 0..texts.len() {
        let Some(class) = class.get(i) else {
            return Ok(());
        };
        push_line(out, i as u64, &texts[i], *class)?;
    }
    Ok(())
}

/// The text of a file whose outline doesn't hold: the obligation that is open, then for each term of its
/// ground set the term as it is spelled, and its class in a model of the set. Locals are told by the names
/// of the acting thread's operation (`a:NAME`) and, of the thread whose clause is looked at, by those of its
/// own (`b:NAME`).
pub fn unproved_text(
    alloc: Global,
    flow: &Flow,
    obligation: &Obligation,
    set: &GroundSet,
    class: &[u32],
) -> Result<Vec<u8>, AllocError>
    ensures { IfOk result (λ v. v.items ≡ unproved_text flow.now obligation.now set.now class.now) }
{
    let mine = acting_locals(flow, obligation);
    let theirs = owner_locals(flow, obligation);
    let texts = term_texts(alloc, &flow.file, mine, theirs, set.terms.as_slice())?;
    let mut out = Vec::new(alloc);
    push(&mut out, "unproved ")?;
    push_obligation(&mut out, flow, obligation)?;
    push(&mut out, "\n")?;
    push_lines(&mut out, &texts, class)?;
    Ok(out)
}
