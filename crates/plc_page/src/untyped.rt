// Why a file has no typing: the primitive whose condition fails, what is known just before it, what would help, and
// which claims would be enough.
ghost use Rattle.plc_flow.specs.Skeleton.{skeleton_of};
ghost use Rattle.plc_vocabulary.specs.Fit.{Fits};
ghost use Rattle.plc_xfer.specs.Rules.{FitsObserver};
ghost use Rattle.plc_xfer.specs.Typings.{IsStrongest};

use crate::shown::{Shown, Written, push_line_link, push_sentence};
use crate::types::push_types;
use plc_answers::{FailedCondition, insufficient_text, line_of, spots_limit_text, suggested_text};
use plc_base::{NoMemory, StepId};
use plc_check::Judged;
use plc_flow::Step;
use plc_html::Html;
use plc_sentences::{advice, push_untyped};
use plc_suggest::{SuggestFault, Suggestion, suggest};
use plc_type::Env;
use plc_xfer::{TypeFault, apply};
use std::alloc::Global;

/// What is known before a primitive of a step, by what is known at the step's first point.
fn before(
    alloc: Global,
    judged: &Judged,
    step: &Step,
    prim: u16,
    env: &Env,
) -> Result<Env, NoMemory>
    requires { FitsObserver judged.now.observer env.now }
{
    let mut env = env.copy(alloc)?;
    for prim in step.prims.as_slice().iter().take(prim as usize) {
        apply(&mut env, prim, &judged.observer);
    }
    Ok(env)
}

/// What is known just before the primitive.
fn push_before(html: &mut Html, shown: &Shown, id: StepId, prim: u16) -> Written
    requires { IsStrongest shown.now.judged.now.observer (skeleton_of shown.now.judged.now.flow)
        shown.now.typing.now.env }
{
    let judged = shown.judged;
    let Some(step) = judged.flow.steps.get(id.0 as usize) else {
        return Ok(());
    };
    let Some(env) = shown.typing.env.get(step.from.0 as usize) else {
        return Ok(());
    };
    let env = before(html.alloc(), judged, step, prim, env)?;
    html.markup("<p>What the types know just before it:</p>\n")?;
    push_types(
        html,
        &judged.flow.file,
        &judged.observer,
        step.op.0 as usize,
        &env,
    )
}

/// What to ask, and what to write then.
fn push_advice(html: &mut Html, fault: TypeFault) -> Written {
    html.markup(
        "<p>What would make it typed (v is the variable that is named):</p>\n<div class=\"wide\"><table>\n\
         <tr><th>ask yourself</th><th>and write</th></tr>\n",
    )?;
    for (question, remedy) in advice(fault) {
        html.markup("<tr><td>")?;
        push_sentence(html, question.as_bytes())?;
        html.markup("</td><td>")?;
        push_sentence(html, remedy.as_bytes())?;
        html.markup("</td></tr>\n")?;
    }
    html.markup("</table></div>\n")
}

/// The text of what `plc suggest` answers.
fn suggestion(alloc: Global, judged: &Judged) -> Result<Vec<u8>, NoMemory>
    requires { Fits judged.now.flow judged.now.unit_outline }
{
    let flow = &judged.flow;
    let text = match suggest(alloc, flow, &judged.observer) {
        Ok(Suggestion::Found(spots)) => suggested_text(alloc, flow, spots.as_slice()),
        Ok(Suggestion::Insufficient { step, prim, fault }) => {
            insufficient_text(alloc, flow, FailedCondition { step, prim, fault })
        }
        Err(SuggestFault::TooMany { count }) => spots_limit_text(alloc, count),
        Err(SuggestFault::Memory) => return Err(NoMemory),
    };
    Ok(text?)
}

/// What `plc suggest` answers. Whether its claims are enough is in its last line.
fn push_suggestion(html: &mut Html, judged: &Judged) -> Written
    requires { Fits judged.now.flow judged.now.unit_outline }
{
    let text = suggestion(html.alloc(), judged)?;
    html.markup(
        "<p>What <code>plc suggest</code> answers, claims that would be enough for the types where there are such. \
         Whether a claim is true is for the outline to show.</p>\n<pre>",
    )?;
    html.text(&text)?;
    html.markup("</pre>\n")
}

/// Why a file has no typing.
pub(crate) fn push_failure(
    html: &mut Html,
    shown: &Shown,
    step: StepId,
    prim: u16,
    fault: TypeFault,
) -> Written
    requires fits { Fits shown.now.judged.now.flow shown.now.judged.now.unit_outline }
    requires strongest { IsStrongest shown.now.judged.now.observer (skeleton_of shown.now.judged.now.flow)
        shown.now.typing.now.env }
{
    let line = line_of(&shown.judged.flow, step.0);
    let mut words = Vec::new(html.alloc());
    push_untyped(&mut words, &shown.judged.flow, step, prim, fault)?;
    html.markup("<h2>No typing</h2>\n<p>Line ")?;
    push_line_link(html, "", line)?;
    html.markup(": ")?;
    push_sentence(html, &words)?;
    html.markup("</p>\n")?;
    push_before(html, shown, step, prim)?;
    push_advice(html, fault)?;
    push_suggestion(html, shown.judged)
}
