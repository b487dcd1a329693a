// Whether a program uses marks, on which the ground sets of its outline depend. To answer, the whole flow and its
// outline are walked over: whoever goes over many obligations asks once and hands the answer on.
ghost use Rattle.std.specs.Prelude.{◌≡◌};
ghost use Rattle.plc_vocabulary.specs.Marks.{program_uses_marks};

use plc_flow::{Flow, uses_marks};
use plc_logic::{Outline, outline_uses_marks};

/// Whether a program uses marks, in its flow or in its outline.
#[tactic(auto, unfolding(crate::specs::Marks::program_uses_marks))]
pub fn program_uses_marks(flow: &Flow, outline: &Outline) -> bool
    ensures { result ≡ program_uses_marks flow.now outline.now }
{
    uses_marks(flow) || outline_uses_marks(outline)
}
