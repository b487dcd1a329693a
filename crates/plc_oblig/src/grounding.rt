// The ground set of an obligation: constants and nodes are listed, then the clauses are written item by item, and
// each term that was listed has its sort. Whoever goes over many obligations makes their sets one after another
// over the same memory, and what a set shares with the one before is not made again.
ghost use Rattle.std.specs.Prelude.{◌≡◌, ◌<◌, length, slice_get, Some, OnOk, IfOk, IfSome};
ghost use Rattle.plc_lang.specs.Fit.{FileFits};
ghost use Rattle.plc_ground.specs.Fit.{IsWellFormed};
ghost use Rattle.plc_symbolic.specs.Numbering.{blank, listed_all};
ghost use Rattle.plc_vocabulary.specs.Fit.{Fits};
ghost use Rattle.plc_encoding.specs.Execution.{start, after_all};
ghost use Rattle.plc_oblig.specs.Programs.{ProgramFits, Serves, set_of};
ghost use Rattle.plc_oblig.specs.declared.annotated.Annotated.{Annotated as AProgram};
ghost use Rattle.plc_oblig.specs.Drafting.{CanDraft};
ghost use Rattle.plc_oblig.specs.GroundSets.{constant_terms, node_terms, sorts_of, ground_set};
ghost use Rattle.plc_oblig.specs.Prefixes.{prefix_draft, IsPrefixOf, IsKeptFor};

use crate::annotated::{Annotated, annotate};
use crate::prefixes::{Prefix, Prefixes, begin_alike};
use plc_base::{Items, NoMemory};
use plc_encoding::{Execution, Subject, push_conclusion, push_prefix};
use plc_flow::Flow;
use plc_ground::{GroundSet, Sort, Symbol};
use plc_logic::Outline;
use plc_symbolic::{Draft, NodeTerm, SymbolicTerm, term_of};
use plc_vocabulary::{Act, Obligation, constants_of, setting_of, sort_of};
use std::alloc::Global;

/// Lists constants.
fn list_constants(symbols: &[Symbol], out: &mut Draft) -> Result<(), NoMemory>
    ensures { OnOk result (out.new ≡ listed_all out.old (constant_terms symbols.now)) }
{
    for symbol in symbols {
        out.note(SymbolicTerm::Constant(*symbol))?;
    }
    Ok(())
}

/// Lists nodes.
fn list_nodes(nodes: &[NodeTerm], out: &mut Draft) -> Result<(), NoMemory>
    ensures { OnOk result (out.new ≡ listed_all out.old (node_terms nodes.now)) }
{
    for node in nodes {
        out.note(term_of(*node))?;
    }
    Ok(())
}

/// The sort of the term with a number.
fn sort_at(flow: &Flow, o: &Obligation, acts: &[Act], draft: &Draft, k: usize) -> Sort
    requires file { FileFits flow.now.file }
    requires listed { k < length draft.now.terms }
    ensures { slice_get (sorts_of flow.now o.now acts.now draft.now.terms) k ≡ Some result }
{
    match draft.term(k) {
        None => unreachable!(),
        Some(term) => sort_of(flow, o, acts, term),
    }
}

/// The sorts of the terms that are listed.
fn sorts_of(
    alloc: Global,
    flow: &Flow,
    o: &Obligation,
    acts: &[Act],
    draft: &Draft,
) -> Result<Items<Sort>, NoMemory>
    requires { FileFits flow.now.file }
    ensures { IfOk result (λ sorts. sorts ≡ sorts_of flow.now o.now acts.now draft.now.terms) }
{
    let mut sorts = Vec::with_capacity(alloc, draft.len())?;
    for k in 0..draft.len() {
        sorts.push(sort_at(flow, o, acts, draft, k))?;
    }
    Ok(Items::from_vec(sorts))
}

/// Writes what stands before the negated conclusion, after the terms that are listed first.
fn write_prefix(w: &Subject, draft: &mut Draft) -> Result<Execution, NoMemory>
    requires ready { CanDraft w.now.flow.now w.now.outline.now w.now.setting.now w.now.obligation.now }
    requires blank { draft.old ≡ blank }
    ensures draft { OnOk result (draft.new
        ≡ prefix_draft w.now.flow.now w.now.outline.now w.now.setting.now w.now.obligation.now) }
    ensures after { IfOk result (λ x. x ≡ after_all start w.now.setting.now.acts) }
    ensures few { IfOk result (λ x. length x.written < 65536) }
{
    let constants = constants_of(w.alloc, w.flow, w.outline, w.setting)?;
    list_constants(constants.as_slice(), draft)?;
    list_nodes(w.setting.nodes.as_slice(), draft)?;
    let executed = push_prefix(w, draft)?;
    Ok(executed)
}

/// Makes what the set of the obligation begins with, over an empty draft.
fn begin(w: &Subject, mut draft: Draft) -> Result<Prefix, NoMemory>
    requires ready { CanDraft w.now.flow.now w.now.outline.now w.now.setting.now w.now.obligation.now }
    requires blank { draft ≡ blank }
    ensures prefix { IfOk result
        (IsPrefixOf w.now.flow.now w.now.outline.now w.now.setting.now w.now.obligation.now) }
    ensures kept { IfOk result (IsKeptFor w.now.flow.now w.now.outline.now) }
{
    let executed = write_prefix(w, &mut draft)?;
    Ok(Prefix {
        obligation: *w.obligation,
        bound: w.setting.bound,
        draft,
        executed,
    })
}

/// What the set of the obligation begins with: what is kept, if it is that, else what is made over its memory.
fn begun_from(w: &Subject, kept: Prefix) -> Result<Prefix, NoMemory>
    requires ready { CanDraft w.now.flow.now w.now.outline.now w.now.setting.now w.now.obligation.now }
    requires kept { IsKeptFor w.now.flow.now w.now.outline.now kept }
    ensures prefix { IfOk result
        (IsPrefixOf w.now.flow.now w.now.outline.now w.now.setting.now w.now.obligation.now) }
    ensures kept { IfOk result (IsKeptFor w.now.flow.now w.now.outline.now) }
{
    if kept.bound == w.setting.bound && begin_alike(&kept.obligation, w.obligation) {
        return Ok(kept);
    }
    let mut draft = kept.draft;
    draft.clear();
    begin(w, draft)
}

/// What the set of the obligation begins with, where something may be kept.
fn begun(w: &Subject, kept: Option<Prefix>) -> Result<Prefix, NoMemory>
    requires ready { CanDraft w.now.flow.now w.now.outline.now w.now.setting.now w.now.obligation.now }
    requires kept { IfSome kept (IsKeptFor w.now.flow.now w.now.outline.now) }
    ensures prefix { IfOk result
        (IsPrefixOf w.now.flow.now w.now.outline.now w.now.setting.now w.now.obligation.now) }
    ensures kept { IfOk result (IsKeptFor w.now.flow.now w.now.outline.now) }
{
    match kept {
        None => begin(w, Draft::new(w.alloc)),
        Some(prefix) => begun_from(w, prefix),
    }
}

/// The set of the obligation that begins so. Its conclusion is cut off again.
fn conclude(w: &Subject, executed: &Execution, draft: &mut Draft) -> Result<GroundSet, NoMemory>
    requires ready { CanDraft w.now.flow.now w.now.outline.now w.now.setting.now w.now.obligation.now }
    requires begun { draft.old
        ≡ prefix_draft w.now.flow.now w.now.outline.now w.now.setting.now w.now.obligation.now }
    requires executed { executed.now ≡ after_all start w.now.setting.now.acts }
    requires few { length executed.now.written < 65536 }
    ensures kept { OnOk result (draft.new ≡ draft.old) }
    ensures well { IfOk result (λ set. IsWellFormed set) }
    ensures set { IfOk result (λ set. set ≡ ground_set w.now.flow.now w.now.outline.now w.now.obligation.now) }
{
    let terms = draft.len();
    let clauses = draft.clauses();
    push_conclusion(w, executed, draft)?;
    let acts = w.setting.acts.as_slice();
    let sorts = sorts_of(w.alloc, w.flow, w.obligation, acts, draft)?;
    let set = draft.finish(sorts)?;
    draft.cut(terms, clauses);
    Ok(set)
}

/// The set of the obligation, and what it begins with.
fn make(w: &Subject, kept: Option<Prefix>) -> Result<(Prefix, GroundSet), NoMemory>
    requires ready { CanDraft w.now.flow.now w.now.outline.now w.now.setting.now w.now.obligation.now }
    requires kept { IfSome kept (IsKeptFor w.now.flow.now w.now.outline.now) }
    ensures kept { IfOk result (λ made. IsKeptFor w.now.flow.now w.now.outline.now made.0) }
    ensures well { IfOk result (λ made. IsWellFormed made.1) }
    ensures set { IfOk result (λ made. made.1 ≡ ground_set w.now.flow.now w.now.outline.now w.now.obligation.now) }
{
    let mut prefix = begun(w, kept)?;
    let set = conclude(w, &prefix.executed, &mut prefix.draft)?;
    Ok((prefix, set))
}

/// Memory for ground sets of one program that are made one after another.
#[derive(Drop)]
pub struct Grounding {
    /// Where the memory comes from, for what is made beside the sets too.
    pub alloc: Global,
    /// What the last sets began with.
    pub prefixes: Prefixes,
    /// How many names the last conclusion binds.
    last: u16,
}

impl Grounding {
    /// A working memory for sets of any one program, which holds nothing and takes no memory yet.
    pub fn new(alloc: Global) -> Grounding
        ensures { (program : AProgram) → Serves result program }
    {
        Grounding {
            alloc,
            prefixes: Prefixes::new(),
            last: 0,
        }
    }

    /// The ground set of an obligation, as [`ground`] makes it.
    pub fn ground(&mut self, program: &Annotated<'_>, o: &Obligation) -> Result<GroundSet, NoMemory>
        requires fits { ProgramFits program.now }
        requires serves { Serves self.old program.now }
        ensures serves { Serves self.new program.now }
        ensures well { IfOk result (λ set. IsWellFormed set) }
        ensures set { IfOk result (λ set. set ≡ set_of program.now o.now) }
    {
        let s = setting_of(self.alloc, program.marked, program.flow, program.outline, o)?;
        self.last = s.bound;
        let kept = self.prefixes.take(s.bound);
        let w = Subject {
            alloc: self.alloc,
            flow: program.flow,
            outline: program.outline,
            setting: &s,
            obligation: o,
        };
        let made = make(&w, kept);
        drop(s);
        let (prefix, set) = made?;
        self.prefixes.put(prefix);
        Ok(set)
    }

    /// Takes the memory of a set that isn't needed any more, for those that are still to come.
    pub fn reuse(&mut self, set: GroundSet)
        ensures { (program : AProgram) → Serves self.old program → Serves self.new program }
    {
        let Some(mut prefix) = self.prefixes.take(self.last) else {
            return;
        };
        prefix.draft.reuse(set);
        self.prefixes.put(prefix);
    }
}

/// The ground set of an obligation, which has as many clauses as `clauses` counts, and keeps the rules that
/// every ground set keeps. It fails only where memory runs out, which 2^32 terms or clauses count as.
pub fn ground(
    alloc: Global,
    flow: &Flow,
    outline: &Outline,
    o: &Obligation,
) -> Result<GroundSet, NoMemory>
    requires { Fits flow.now outline.now }
    ensures set { IfOk result (λ set. set ≡ ground_set flow.now outline.now o.now) }
    ensures well { IfOk result (λ set. IsWellFormed set) }
{
    Grounding::new(alloc).ground(&annotate(flow, outline), o)
}
