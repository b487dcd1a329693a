// The verdict on a sample: its text is made, and then judged as that of a file is.
ghost use Rattle.std.specs.Prelude.{◌≡◌, ◌≤◌, IfOk};
ghost use Rattle.plc_base.specs.Bounds.{most_copies};
ghost use Rattle.plc_sample.specs.Numbers.{sample_lines};
ghost use Rattle.plc_cli.specs.Samples.{IsSampleAnswer, IsSampledAs, sampled_text};
ghost use Rattle.plc_cli.specs.Verdicts.{verdict_status};

use crate::answer::Answer;
use crate::asking::{Question, answer_bytes};
use crate::checking::{verdict_status, verdict_text};
use plc_answers::summary_text;
use plc_base::NoMemory;
use plc_check::{Judged, Verdict, check};
use plc_sample::text;
use std::alloc::{AllocError, Global};

/// The text of a verdict: one line where the sample is safe.
fn sampled_text(
    alloc: Global,
    copies: u8,
    line: u16,
    judged: &Judged,
    verdict: &Verdict,
) -> Result<Vec<u8>, AllocError>
    ensures { IfOk result (λ text. text.items ≡ sampled_text copies line judged.now verdict.now) }
{
    match verdict {
        Verdict::Safe { obligations, .. } => {
            summary_text(alloc, copies, line, &judged.flow, *obligations)
        }
        Verdict::Untyped { .. } | Verdict::Unproved { .. } => verdict_text(alloc, judged, verdict),
    }
}

/// The answer that says a verdict.
fn sample_answer(
    alloc: Global,
    copies: u8,
    line: u16,
    judged: &Judged,
    verdict: &Verdict,
) -> Result<Answer, NoMemory>
    ensures { IfOk result (λ answer. (answer.status ≡ verdict_status verdict.now)
        × (answer.text.items ≡ sampled_text copies line judged.now verdict.now)) }
{
    Ok(Answer {
        status: verdict_status(verdict),
        text: sampled_text(alloc, copies, line, judged, verdict)?,
    })
}

/// The question for the verdict on the sample with so many copies, without this line.
#[derive(Drop)]
struct ForSample {
    copies: u8,
    line: u16,
}

impl Question for ForSample {
    ghost due = { λ sample judged. IsSampledAs sample.copies sample.line judged };

    fn answer(&self, alloc: Global, judged: &Judged) -> Result<Answer, NoMemory> {
        let verdict = check(alloc, judged)?;
        let answer = sample_answer(alloc, self.copies, self.line, judged, &verdict);
        drop(verdict);
        answer
    }
}

/// The answer to `sample K N`: `copies` is K, and `line` is N.
pub(crate) fn judge_sample(alloc: Global, copies: u8, line: u16) -> Result<Answer, NoMemory>
    requires copies { (1 ≤ copies) × (copies ≤ most_copies) }
    requires line { line ≤ sample_lines copies }
    ensures { IfOk result (λ answer. IsSampleAnswer copies line answer.status answer.text.items) }
{
    let bytes = text(alloc, copies, line)?;
    answer_bytes(alloc, &bytes, &ForSample { copies, line })
}
