// The verdict on a file.
ghost use Rattle.std.specs.Prelude.{◌≡◌, IfOk};
ghost use Rattle.plc_cli.specs.Files.{IsJudgedAs};
ghost use Rattle.plc_cli.specs.Verdicts.{verdict_status, verdict_text};

use crate::answer::Answer;
use crate::asking::Question;
use crate::status::{FAILS, HOLDS};
use plc_answers::{FailedCondition, safe_text, unproved_text, untyped_text};
use plc_base::NoMemory;
use plc_check::{Judged, Verdict, check};
use std::alloc::{AllocError, Global};

/// The question for the verdict on a file.
#[derive(Drop)]
pub(crate) struct ForVerdict;

impl Question for ForVerdict {
    ghost due = { λ _ judged. IsJudgedAs judged };

    fn answer(&self, alloc: Global, judged: &Judged) -> Result<Answer, NoMemory> {
        let verdict = check(alloc, judged)?;
        verdict_answer(alloc, judged, verdict)
    }
}

/// The status with which `check` says a verdict: 0 where the file is safe, else 1.
pub fn verdict_status(verdict: &Verdict) -> u8
    ensures { result ≡ verdict_status verdict.now }
{
    match verdict {
        Verdict::Safe { .. } => HOLDS,
        Verdict::Untyped { .. } | Verdict::Unproved { .. } => FAILS,
    }
}

/// The text with which `check` says a verdict. The one error is that memory runs out.
pub fn verdict_text(
    alloc: Global,
    judged: &Judged,
    verdict: &Verdict,
) -> Result<Vec<u8>, AllocError>
    ensures { IfOk result (λ text. text.items ≡ verdict_text judged.now verdict.now) }
{
    let flow = &judged.flow;
    match verdict {
        Verdict::Safe {
            typing,
            obligations,
        } => safe_text(
            alloc,
            flow,
            &judged.observer,
            typing.env.as_slice(),
            *obligations,
        ),
        Verdict::Untyped { step, prim, fault } => untyped_text(
            alloc,
            flow,
            FailedCondition {
                step: *step,
                prim: *prim,
                fault: *fault,
            },
        ),
        Verdict::Unproved {
            obligation,
            set,
            model,
        } => unproved_text(alloc, flow, obligation, set, model.class.as_slice()),
    }
}

/// The answer that says a verdict, which ends with it.
pub(crate) fn verdict_answer(
    alloc: Global,
    judged: &Judged,
    verdict: Verdict,
) -> Result<Answer, NoMemory>
    ensures { IfOk result (λ answer. (answer.status ≡ verdict_status verdict)
        × (answer.text.items ≡ verdict_text judged.now verdict)) }
{
    let status = verdict_status(&verdict);
    let text = verdict_text(alloc, judged, &verdict);
    drop(verdict);
    Ok(Answer {
        status,
        text: text?,
    })
}
