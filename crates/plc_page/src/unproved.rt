// The obligations that stay open, clause by clause, each with a state in which what it asks may be wrong.
ghost use Rattle.plc_vocabulary.specs.Fit.{Fits};

use crate::points::push_clause;
use crate::shown::{Shown, Written, push_sentence};
use plc_answers::unproved_text;
use plc_base::{Items, NoMemory};
use plc_check::{Counterexample, OpenObligations};
use plc_html::Html;
use plc_logic::Outline;
use plc_oblig::Obligation;
use plc_picture::{Picture, before_and_after, push_svg, push_table};
use plc_sentences::{ClauseId, clause_of, push_obligation};
use std::alloc::Global;

/// How many open obligations a page shows at most.
pub(crate) const MOST_SHOWN: usize = 200;

/// The clause of each obligation; a claim has none.
fn clauses_of(
    alloc: Global,
    shown: &Shown,
    found: &[Counterexample],
) -> Result<Vec<Option<ClauseId>>, NoMemory> {
    let judged = shown.judged;
    let mut ids = Vec::new(alloc);
    for counterexample in found {
        ids.push(clause_of(
            &judged.flow,
            &judged.unit_outline,
            &counterexample.obligation,
        ))?;
    }
    Ok(ids)
}

/// A state, drawn and as a table.
fn push_state(html: &mut Html, title: &'static str, picture: &Picture) -> Written {
    html.markup("<div><h4>")?;
    html.markup(title)?;
    html.markup("</h4>\n<div class=\"wide\">")?;
    push_svg(html, picture)?;
    html.markup("</div>\n<details><summary>as a table</summary>\n<div class=\"wide\">")?;
    push_table(html, picture)?;
    html.markup("</div>\n</details></div>\n")
}

/// What the two states of an obligation are; where nothing is executed there is one.
fn titles(o: &Obligation) -> (&'static str, Option<&'static str>) {
    match *o {
        Obligation::Start { .. } => ("before init", Some("after it")),
        Obligation::Enter { .. } => ("where the operation begins", None),
        Obligation::Own { .. } => ("before the step", Some("after it")),
        Obligation::Other { .. } => ("before the step", Some("after it")),
        Obligation::Claim { prim: 0, .. } => ("where the claim is made", None),
        Obligation::Claim { .. } => ("before the step", Some("where the claim is made")),
    }
}

/// The states before and after what the obligation executes.
fn push_states(html: &mut Html, shown: &Shown, open: &Counterexample) -> Written
    requires { Fits shown.now.judged.now.flow shown.now.judged.now.unit_outline }
{
    let judged = shown.judged;
    let (before, after) = before_and_after(
        html.alloc(),
        &judged.flow,
        &judged.unit_outline,
        &open.obligation,
        &open.set,
        &open.model,
    )?;
    html.markup("<div class=\"pair\">\n")?;
    let (first, second) = titles(&open.obligation);
    push_state(html, first, &before)?;
    if let Some(second) = second {
        push_state(html, second, &after)?;
    }
    html.markup("</div>\n")
}

/// The answer and the model, as `plc check` writes them.
fn push_model(html: &mut Html, shown: &Shown, open: &Counterexample) -> Written {
    let text = unproved_text(
        html.alloc(),
        &shown.judged.flow,
        &open.obligation,
        &open.set,
        open.model.class.as_slice(),
    )?;
    html.markup("<details><summary>the model, term by term</summary>\n<pre>")?;
    html.text(&text)?;
    html.markup("</pre>\n</details>\n")
}

/// An obligation that stays open.
fn push_open(html: &mut Html, shown: &Shown, open: &Counterexample, first: bool) -> Written
    requires { Fits shown.now.judged.now.flow shown.now.judged.now.unit_outline }
{
    let judged = shown.judged;
    let mut words = Vec::new(html.alloc());
    push_obligation(
        &mut words,
        &judged.flow,
        &judged.unit_outline,
        shown.clauses,
        &open.obligation,
    )?;
    html.markup(if first {
        "<details open><summary>"
    } else {
        "<details><summary>"
    })?;
    push_sentence(html, &words)?;
    html.markup("</summary>\n")?;
    push_states(html, shown, open)?;
    push_model(html, shown, open)?;
    html.markup("</details>\n")
}

/// The heading of the obligations of a clause, or of the claims.
fn push_heading(html: &mut Html, shown: &Shown, id: Option<ClauseId>) -> Written {
    html.markup("<h3>")?;
    match id {
        Some(id) => push_clause(html, shown, id)?,
        None => html.markup("Claims of steps")?,
    }
    html.markup("</h3>\n")
}

/// The obligations of one clause, or the claims.
fn push_group(
    html: &mut Html,
    shown: &Shown,
    found: &[Counterexample],
    ids: &[Option<ClauseId>],
    id: Option<ClauseId>,
) -> Written
    requires { Fits shown.now.judged.now.flow shown.now.judged.now.unit_outline }
{
    if !ids.contains(&id) {
        return Ok(());
    }
    push_heading(html, shown, id)?;
    for (place, open) in found.iter().enumerate() {
        if ids.get(place) == Some(&id) {
            push_open(html, shown, open, place == 0)?;
        }
    }
    Ok(())
}

/// The invariants and the items of an outline, in order; `None` stands for the claims, which go first.
fn all_groups(alloc: Global, outline: &Outline) -> Result<Vec<Option<ClauseId>>, NoMemory> {
    let mut groups = Vec::new(alloc);
    groups.push(None)?;
    for number in 0..u16::try_from(outline.invariants.len()).unwrap_or(u16::MAX) {
        groups.push(Some(ClauseId::Invariant(number)))?;
    }
    for number in 0..u16::try_from(outline.items.len()).unwrap_or(u16::MAX) {
        groups.push(Some(ClauseId::Item(number)))?;
    }
    Ok(groups)
}

/// All groups.
fn push_groups(html: &mut Html, shown: &Shown, found: &Items<Counterexample>) -> Written
    requires { Fits shown.now.judged.now.flow shown.now.judged.now.unit_outline }
{
    let ids = clauses_of(html.alloc(), shown, found.as_slice())?;
    let groups = all_groups(html.alloc(), &shown.judged.unit_outline)?;
    for id in &groups {
        push_group(html, shown, found.as_slice(), &ids, *id)?;
    }
    Ok(())
}

/// How many obligations stay open, as far as they were looked for.
fn push_count(html: &mut Html, open: &OpenObligations) -> Written {
    let count = open.found.len();
    html.numbered("<h2>Unproved</h2>\n<p>", count as u64)?;
    html.markup(if count == 1 {
        " obligation of the outline stays open"
    } else {
        " obligations of the outline stay open"
    })?;
    if !open.all {
        html.markup("; the search ended there, so there may be more")?;
    }
    html.markup(
        ". For each there is a state that the outline allows, in which a claim may be wrong, or after which a clause \
         may be. Ask of each: can this state happen? If it can, the program is wrong. If it can't, a clause is missing \
         that says why.</p>\n",
    )
}

/// The obligations that stay open.
pub(crate) fn push_unproved(html: &mut Html, shown: &Shown, open: &OpenObligations) -> Written
    requires { Fits shown.now.judged.now.flow shown.now.judged.now.unit_outline }
{
    push_count(html, open)?;
    push_groups(html, shown, &open.found)
}
