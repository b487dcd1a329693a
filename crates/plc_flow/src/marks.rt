// Whether a program uses marks. Where it does, `p != q` says less in the ground sets of its outline; a
// program without them has the ground sets that it would have if there were no marks at all.
ghost use Rattle.std.specs.Prelude.{◌≡◌};
ghost use Rattle.std.specs.List.{list_any};
ghost use Rattle.plc_lang.specs.Marks.{speak_of_marks};
ghost use Rattle.plc_flow.specs.Marks.{flow_uses_marks};
ghost use Rattle.plc_flow.specs.declared.flow.Step.{Step};

use crate::flow::{Flow, Step};
use plc_lang::speak_of_marks;

/// Whether one of these steps does.
fn steps_use_marks(steps: &[Step]) -> bool
    ensures { result ≡ list_any (λ (s : Step). speak_of_marks s.prims) steps.now }
{
    steps
        .iter()
        .any(|step| speak_of_marks(step.prims.as_slice()))
}

/// Whether `init` or a step sets a mark, clears one or tests one.
pub fn uses_marks(flow: &Flow) -> bool
    ensures { result ≡ flow_uses_marks flow.now }
{
    speak_of_marks(flow.file.init.as_slice()) || steps_use_marks(flow.steps.as_slice())
}
