// The answer as lines for editors and tools, each `NAME:LINE: SENTENCE`.
ghost use Rattle.std.specs.Prelude.{◌≡◌, ◌≢◌, ◌≤◌, IfOk, length};
ghost use Rattle.plc_base.specs.FileSizes.{largest_file};
ghost use Rattle.plc_vocabulary.specs.Fit.{Fits};
ghost use Rattle.plc_check.specs.declared.judged.LoadFault.TheVariants.{Memory};
ghost use Rattle.plc_cli.specs.Statuses.{refused};
ghost use Rattle.plc_page.specs.Pages.{HasCheckStatus, HasVerdictStatus};

use crate::refused::line_of_refusal;
use crate::unproved::MOST_SHOWN;
use plc_answers::{line_of, push, push_bytes, push_number, variable_in};
use plc_base::{NoMemory, OpId, StepId};
use plc_check::{
    Counterexample, Judged, LoadFault, Loaded, Verdict, check, load_with_tokens, open_obligations,
};
use plc_cli::{refusal, verdict_status};
use plc_flow::Flow;
use plc_oblig::Obligation;
use plc_sentences::{Clauses, Source, clause_of, push_obligation, push_untyped};
use plc_suggest::{Spot, SuggestFault, Suggestion, suggest};
use plc_xfer::TypeFault;
use std::alloc::{AllocError, Global};

/// Lines, with the status of the answer that they say.
#[derive(Drop)]
pub struct Lines {
    pub status: u8,
    pub text: Vec<u8>,
}

/// A file by its name in the lines, and its bytes.
#[derive(Clone, Copy)]
struct Named<'a> {
    name: &'a [u8],
    bytes: &'a [u8],
}

/// The place at which a line points.
fn push_place(out: &mut Vec<u8>, name: &[u8], line: u32) -> Result<(), AllocError> {
    push_bytes(out, name)?;
    push(out, ":")?;
    push_number(out, u64::from(line.max(1)))?;
    push(out, ": ")
}

/// The first line of an operation, or 0.
fn line_of_operation(flow: &Flow, op: OpId) -> u32 {
    match flow.file.ops.get(op.0 as usize) {
        Some(op) => op.line,
        None => 0,
    }
}

/// The line at which an obligation points: that of its step, of its clause or of its operation.
fn line_of_obligation(judged: &Judged, clauses: &Clauses, o: &Obligation) -> u32 {
    let flow = &judged.flow;
    match *o {
        Obligation::Own { step, .. } => line_of(flow, step.0),
        Obligation::Other { step, .. } => line_of(flow, step.0),
        Obligation::Claim { step, .. } => line_of(flow, step.0),
        Obligation::Enter { op, .. } => line_of_operation(flow, op),
        Obligation::Start { .. } => line_of_clause(judged, clauses, o),
    }
}

/// The line of an obligation's clause, or 0.
fn line_of_clause(judged: &Judged, clauses: &Clauses, o: &Obligation) -> u32 {
    let Some(id) = clause_of(&judged.flow, &judged.unit_outline, o) else {
        return 0;
    };
    match clauses.placed(id) {
        Some(placed) => placed.line,
        None => 0,
    }
}

/// The line of an obligation that stays open.
fn push_open(
    out: &mut Vec<u8>,
    name: &[u8],
    judged: &Judged,
    clauses: &Clauses,
    open: &Counterexample,
) -> Result<(), AllocError> {
    let o = &open.obligation;
    push_place(out, name, line_of_obligation(judged, clauses, o))?;
    push_obligation(out, &judged.flow, &judged.unit_outline, clauses, o)?;
    push(out, "\n")
}

/// The line that says that more obligations may stay open, where not all were looked at.
fn push_end(out: &mut Vec<u8>, name: &[u8], all: bool) -> Result<(), AllocError> {
    if all {
        return Ok(());
    }
    push_place(out, name, 1)?;
    push(out, "note: the search ended here, so more may stay open\n")
}

/// The lines of the obligations that stay open.
fn push_all_open(
    out: &mut Vec<u8>,
    alloc: Global,
    file: Named,
    loaded: &Loaded,
) -> Result<(), NoMemory>
    requires { Fits loaded.now.judged.flow loaded.now.judged.unit_outline }
{
    let source = Source {
        bytes: file.bytes,
        tokens: loaded.tokens.as_slice(),
    };
    let clauses = Clauses::read(alloc, source)?;
    let open = open_obligations(alloc, &loaded.judged, MOST_SHOWN)?;
    for found in open.found.as_slice() {
        push_open(out, file.name, &loaded.judged, &clauses, found)?;
    }
    push_end(out, file.name, open.all)?;
    Ok(())
}

/// The line of the primitive that has no typing.
fn push_failure(
    out: &mut Vec<u8>,
    name: &[u8],
    flow: &Flow,
    step: StepId,
    prim: u16,
    fault: TypeFault,
) -> Result<(), AllocError> {
    push_place(out, name, line_of(flow, step.0))?;
    push_untyped(out, flow, step, prim, fault)?;
    push(out, "\n")
}

/// The lines of claims.
fn push_spots(
    out: &mut Vec<u8>,
    name: &[u8],
    flow: &Flow,
    spots: &[Spot],
) -> Result<(), AllocError> {
    for spot in spots {
        let op = match flow.steps.get(spot.step.0 as usize) {
            Some(step) => step.op.0,
            None => 0,
        };
        push_place(out, name, line_of(flow, spot.step.0))?;
        push(out, "note: the types would need `active ")?;
        push_bytes(out, variable_in(&flow.file, op, spot.var))?;
        push(out, "` in front of this step\n")?;
    }
    Ok(())
}

/// The lines of the claims that would be enough for the types; none where no claims in front of steps are, or where
/// there are too many places to look for them.
fn push_suggestions(
    out: &mut Vec<u8>,
    alloc: Global,
    name: &[u8],
    judged: &Judged,
) -> Result<(), NoMemory>
    requires { Fits judged.now.flow judged.now.unit_outline }
{
    let flow = &judged.flow;
    match suggest(alloc, flow, &judged.observer) {
        Ok(Suggestion::Found(spots)) => Ok(push_spots(out, name, flow, spots.as_slice())?),
        Ok(Suggestion::Insufficient { .. }) => Ok(()),
        Err(SuggestFault::TooMany { .. }) => Ok(()),
        Err(SuggestFault::Memory) => Err(NoMemory),
    }
}

/// The lines of a verdict. A safe file has none.
fn push_verdict(
    out: &mut Vec<u8>,
    alloc: Global,
    file: Named,
    loaded: &Loaded,
    verdict: &Verdict,
) -> Result<(), NoMemory>
    requires { Fits loaded.now.judged.flow loaded.now.judged.unit_outline }
{
    let judged = &loaded.judged;
    match verdict {
        Verdict::Safe { .. } => Ok(()),
        Verdict::Untyped { step, prim, fault } => {
            push_failure(out, file.name, &judged.flow, *step, *prim, *fault)?;
            push_suggestions(out, alloc, file.name, judged)?;
            Ok(())
        }
        Verdict::Unproved { .. } => push_all_open(out, alloc, file, loaded),
    }
}

/// The lines of a file that was loaded.
fn judged_lines(alloc: Global, file: Named, loaded: &Loaded) -> Result<Lines, NoMemory>
    requires { Fits loaded.now.judged.flow loaded.now.judged.unit_outline }
    ensures { IfOk result (λ lines. HasVerdictStatus loaded.now.judged lines.status) }
{
    let verdict = check(alloc, &loaded.judged)?;
    let mut text = Vec::new(alloc);
    push_verdict(&mut text, alloc, file, loaded, &verdict)?;
    Ok(Lines {
        status: verdict_status(&verdict),
        text,
    })
}

/// The lines of a file that was loaded, which ends here.
fn loaded_lines(alloc: Global, file: Named, loaded: Loaded) -> Result<Lines, NoMemory>
    requires { Fits loaded.judged.flow loaded.judged.unit_outline }
    ensures { IfOk result (λ lines. HasVerdictStatus loaded.judged lines.status) }
{
    let lines = judged_lines(alloc, file, &loaded);
    drop(loaded);
    lines
}

/// The lines of a file that is refused.
fn refused_lines(alloc: Global, file: Named, fault: &LoadFault) -> Result<Lines, NoMemory>
    ensures status { IfOk result (λ lines. lines.status ≡ refused) }
    ensures told { IfOk result (λ _. fault.now ≢ Memory) }
{
    let answer = refusal(alloc, fault)?;
    let mut text = Vec::new(alloc);
    push_place(&mut text, file.name, line_of_refusal(file.bytes, fault))?;
    push_bytes(&mut text, &answer.text)?;
    Ok(Lines {
        status: answer.status,
        text,
    })
}

/// What `check` answers to a file, by its bytes, in lines for editors and tools: `NAME:LINE: SENTENCE`. A safe file has
/// no line. Of the obligations that stay open at most 200 are said. The status is that of `check`. The one error is
/// that memory runs out.
pub fn plain_lines(alloc: Global, name: &[u8], bytes: &[u8]) -> Result<Lines, NoMemory>
    requires { length bytes.now ≤ largest_file }
    ensures { IfOk result (λ lines. HasCheckStatus bytes.now lines.status) }
{
    let file = Named { name, bytes };
    match load_with_tokens(alloc, bytes) {
        Ok(loaded) => loaded_lines(alloc, file, loaded),
        Err(LoadFault::Memory) => Err(NoMemory),
        Err(fault) => refused_lines(alloc, file, &fault),
    }
}
