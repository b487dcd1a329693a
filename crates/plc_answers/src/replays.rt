// What a schedule leads to, and why bytes are no schedule, as texts.
ghost use Rattle.std.specs.Prelude.{◌≡◌, ◌++◌, IfOk, codes, decimal};
ghost use Rattle.plc_answers.specs.Replays.{end_text, race_name, schedule_fault_text};

use crate::pieces::{push, push_numbered};
use crate::refusals::{fixed_text, limit_text, numbered_text};
use plc_base::What1;
use plc_mem::RaceKind;
use plc_replay::End;
use plc_sched::SchedFault;
use std::alloc::{AllocError, Global};

/// The word of a race.
fn race_name(kind: RaceKind) -> &'static str
    ensures { result.now ≡ race_name kind }
{
    match kind {
        RaceKind::Deref => "deref",
        RaceKind::Compare => "compare",
        RaceKind::Pass => "pass",
        RaceKind::Double => "double",
    }
}

/// The schedule was followed to its end.
fn followed_text(alloc: Global, lines: u32, events: u32, freed: u32) -> Result<Vec<u8>, AllocError>
    ensures { IfOk result (λ v. v.items ≡ codes "end lines " ++ decimal lines ++ codes " events " ++ decimal events
        ++ codes " freed " ++ decimal freed ++ codes "\n") }
{
    let mut out = Vec::new(alloc);
    push_numbered(&mut out, "end lines ", lines)?;
    push_numbered(&mut out, " events ", events)?;
    push_numbered(&mut out, " freed ", freed)?;
    push(&mut out, "\n")?;
    Ok(out)
}

/// A race of a primitive.
fn race_text(alloc: Global, kind: RaceKind, line: u32, prim: u16) -> Result<Vec<u8>, AllocError>
    ensures { IfOk result (λ v. v.items ≡ codes "race " ++ race_name kind ++ codes " line " ++ decimal line
        ++ codes " prim " ++ decimal prim ++ codes "\n") }
{
    let mut out = fixed_text(alloc, "race ")?;
    push(&mut out, race_name(kind))?;
    push_numbered(&mut out, " line ", line)?;
    push_numbered(&mut out, " prim ", u32::from(prim))?;
    push(&mut out, "\n")?;
    Ok(out)
}

/// A free that isn't allowed.
fn forbidden_text(alloc: Global, a: u32, line: u32) -> Result<Vec<u8>, AllocError>
    ensures { IfOk result (λ v. v.items ≡ codes "forbidden free " ++ decimal a
        ++ codes " line " ++ decimal line ++ codes "\n") }
{
    let mut out = Vec::new(alloc);
    push_numbered(&mut out, "forbidden free ", a)?;
    push_numbered(&mut out, " line ", line)?;
    push(&mut out, "\n")?;
    Ok(out)
}

/// What a schedule leads to.
pub fn end_text(alloc: Global, end: &End) -> Result<Vec<u8>, AllocError>
    ensures { IfOk result (λ v. v.items ≡ end_text end.now) }
{
    match *end {
        End::Ended {
            lines,
            events,
            freed,
        } => followed_text(alloc, lines, events, freed),
        End::Race { kind, line, prim } => race_text(alloc, kind, line, prim),
        End::Impossible { line } => numbered_text(alloc, "impossible line ", line),
        End::ForbiddenFree { a, line } => forbidden_text(alloc, a, line),
    }
}

/// Bytes that spell no schedule: the line. Running out of memory has no text.
pub fn schedule_fault_text(alloc: Global, fault: SchedFault) -> Result<Vec<u8>, AllocError>
    ensures { IfOk result (λ v. v.items ≡ schedule_fault_text fault) }
{
    match fault {
        SchedFault::Line { n } => numbered_text(alloc, "refused schedule line ", n),
        SchedFault::Limit { count } => limit_text(alloc, What1::Lines, count),
        SchedFault::Memory => Ok(Vec::new(alloc)),
    }
}
