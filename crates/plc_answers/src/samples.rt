// The text of a sample that is safe.
ghost use Rattle.std.specs.Prelude.{◌≡◌, IfOk};
ghost use Rattle.plc_answers.specs.Samples.{summary_text};

use crate::counts::push_counts;
use crate::pieces::{push, push_numbered};
use plc_flow::Flow;
use std::alloc::{AllocError, Global};

/// One line on the sample with `k` copies without line `n`: how many points, steps and obligations it has.
pub fn summary_text(
    alloc: Global,
    k: u8,
    n: u16,
    flow: &Flow,
    obligations: u64,
) -> Result<Vec<u8>, AllocError>
    ensures { IfOk result (λ v. v.items ≡ summary_text k n flow.now obligations) }
{
    let mut out = Vec::new(alloc);
    push_numbered(&mut out, "sample ", u32::from(k))?;
    push_numbered(&mut out, " ", u32::from(n))?;
    push_counts(&mut out, flow, obligations)?;
    push(&mut out, " safe\n")?;
    Ok(out)
}
