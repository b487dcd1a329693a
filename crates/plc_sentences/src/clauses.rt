// Which clause of an outline is meant, and where in the file it stands. Obligations count clauses by what holds after a
// step, and a reader looks for them in the file. So a clause is named by its number among the invariants, or among the
// items that put clauses at points, and both kinds stand in the file in the order of these numbers.
ghost use Rattle.std.specs.Prelude.{◌≡◌, ◌++◌, ◌<◌, ◌≤◌, length, slice_get, IfOk};
ghost use Rattle.plc_vocabulary.specs.Fit.{Fits};
ghost use Rattle.plc_vocabulary.specs.Points.{clauses_at};
ghost use Rattle.plc_vocabulary.specs.Parts.{clauses_after, conclusion};
ghost use Rattle.plc_sentences.specs.Clauses.{clause_named, numbers_at, most_items};

use crate::source::{Placed, Source, push_source};
use plc_base::{Items, NoMemory, StepId};
use plc_flow::Flow;
use plc_lex::{Keyword, Symbol, Token, TokenKind};
use plc_logic::Outline;
use plc_vocabulary::{Obligation, is_labelled, stands_at};
use std::alloc::{AllocError, Global};

/// Where the clauses of an outline stand in its file.
#[derive(Drop)]
pub struct Clauses<'a> {
    /// The file.
    source: Source<'a>,
    /// One for each invariant, from the word `inv` to before the semicolon.
    invariants: Items<Placed>,
    /// One for each clause at points, from the word `over` or `at` to before the semicolon.
    items: Items<Placed>,
}

/// A clause of an outline.
#[derive(Clone, Copy, PartialEq, Eq)]
pub enum ClauseId {
    /// An invariant, by its number among the outline's invariants.
    Invariant(u16),
    /// A clause at points, by the number of its item among the outline's items.
    Item(u16),
}

/// An item of the outline that was begun: whether it is an invariant, and the number and the line of its first token.
#[derive(Clone, Copy)]
struct OpenItem {
    invariant: bool,
    first: usize,
    line: u32,
}

/// The item that begins with this token, if one does. The three words stand nowhere but there.
fn item_begun_by(number: usize, token: &Token) -> Option<OpenItem> {
    let invariant = match token.kind {
        TokenKind::Word(Keyword::Inv) => true,
        TokenKind::Word(Keyword::Over | Keyword::At) => false,
        _ => return None,
    };
    Some(OpenItem {
        invariant,
        first: number,
        line: token.line,
    })
}

impl<'a> Clauses<'a> {
    /// Where each clause of the outline at the end of a file stands. `depth N;` is no clause. The one error is that
    /// memory runs out.
    pub fn read(alloc: Global, source: Source<'a>) -> Result<Clauses<'a>, NoMemory> {
        let mut clauses = Clauses {
            source,
            invariants: Items::new(alloc),
            items: Items::new(alloc),
        };
        clauses.note_all(source.tokens)?;
        Ok(clauses)
    }

    /// Notes the items that these tokens spell.
    fn note_all(&mut self, tokens: &[Token]) -> Result<(), NoMemory> {
        let mut item = None;
        for (number, token) in tokens.iter().enumerate() {
            item = self.note(item, number, token)?;
        }
        Ok(())
    }

    /// Notes an item where the token ends it. What is begun after the token.
    fn note(
        &mut self,
        item: Option<OpenItem>,
        number: usize,
        token: &Token,
    ) -> Result<Option<OpenItem>, NoMemory> {
        let Some(item) = item else {
            return Ok(item_begun_by(number, token));
        };
        if !matches!(token.kind, TokenKind::Symbol(Symbol::Semicolon)) {
            return Ok(Some(item));
        }
        self.add(item, number)?;
        Ok(None)
    }

    /// Adds an item that ends before the token with a number.
    fn add(&mut self, item: OpenItem, end: usize) -> Result<(), NoMemory> {
        let placed = Placed {
            first: item.first,
            end,
            line: item.line,
        };
        if item.invariant {
            self.invariants.push(placed)?;
        } else {
            self.items.push(placed)?;
        }
        Ok(())
    }

    /// Where a clause stands in the file; `None` where the file has none with this number.
    pub fn placed(&self, id: ClauseId) -> Option<Placed> {
        match id {
            ClauseId::Invariant(k) => self.invariants.get(k as usize).copied(),
            ClauseId::Item(k) => self.items.get(k as usize).copied(),
        }
    }

    /// The text of what stands there, as the file has it. The one error is that memory runs out.
    pub fn push_text(&self, out: &mut Vec<u8>, placed: Placed) -> Result<(), AllocError> {
        push_source(out, self.source, placed)
    }
}

/// A place in a list as a number; the greatest where it is past that.
pub(crate) fn number(place: usize) -> u16
    ensures { place < most_items → result ≡ place }
{
    if place < 65536 {
        place as u16
    } else {
        u16::MAX
    }
}

/// The place among all items of the one whose clause has a number among those at a point.
fn item_place(flow: &Flow, outline: &Outline, p: u16, clause: u16) -> Option<usize>
    ensures { result ≡ slice_get (numbers_at flow.now outline.now p) clause }
{
    let labelled = is_labelled(flow, p);
    let mut left = clause;
    for (place, item) in outline.items.as_slice().iter().enumerate() {
        if stands_at(flow, p, labelled, item) {
            if left == 0 {
                return Some(place);
            }
            left -= 1;
        }
    }
    None
}

/// The clause with a number among those at a point.
fn item_at(flow: &Flow, outline: &Outline, p: u16, clause: u16) -> Option<ClauseId>
    ensures { length outline.now.items ≤ most_items
        → clause_named outline.now result ≡ slice_get (clauses_at flow.now outline.now p) clause }
{
    match item_place(flow, outline, p, clause) {
        Some(place) => Some(ClauseId::Item(number(place))),
        None => None,
    }
}

/// An invariant, or, where the number is past theirs, a clause of the step's last point.
fn own_clause(flow: &Flow, outline: &Outline, step: StepId, clause: u16) -> Option<ClauseId>
    ensures { length outline.now.items ≤ most_items → clause_named outline.now result
        ≡ slice_get (outline.now.invariants
        ++ clauses_after flow.now outline.now (slice_get flow.now.steps step.0)) clause }
{
    let invariants = outline.invariants.len();
    if (clause as usize) < invariants {
        return Some(ClauseId::Invariant(clause));
    }
    let step = flow.steps.get(step.0 as usize)?;
    item_at(
        flow,
        outline,
        step.to.0,
        (clause as usize - invariants) as u16,
    )
}

/// The clause that an obligation asks for: the one that `conclusion` of plc_vocabulary finds, where the flow and the
/// outline are those of one file. `None` where a claim is asked for, or where there is no such clause.
pub fn clause_of(flow: &Flow, outline: &Outline, o: &Obligation) -> Option<ClauseId>
    ensures { Fits flow.now outline.now
        → clause_named outline.now result ≡ conclusion flow.now outline.now o.now }
{
    match *o {
        Obligation::Start { inv } => Some(ClauseId::Invariant(inv)),
        Obligation::Enter { op, clause } => {
            let gate = flow.gates.get(op.0 as usize)?;
            item_at(flow, outline, gate.entry.0, clause)
        }
        Obligation::Own { step, clause } => own_clause(flow, outline, step, clause),
        Obligation::Other { point, clause, .. } => item_at(flow, outline, point.0, clause),
        Obligation::Claim { .. } => None,
    }
}

/// The numbers of the items whose clauses stand at a point, in order, where the flow and the outline are those of one
/// file. The one error is that memory runs out.
pub fn clauses_at(
    alloc: Global,
    flow: &Flow,
    outline: &Outline,
    p: u16,
) -> Result<Vec<u16>, NoMemory>
    ensures { Fits flow.now outline.now
        → IfOk result (λ numbers. numbers.items ≡ numbers_at flow.now outline.now p) }
{
    let labelled = is_labelled(flow, p);
    let mut numbers = Vec::new(alloc);
    for (place, item) in outline.items.as_slice().iter().enumerate() {
        if stands_at(flow, p, labelled, item) {
            numbers.push(number(place))?;
        }
    }
    Ok(numbers)
}
