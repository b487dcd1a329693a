// A program as its obligations speak of it: a flow with an outline. What makes ground sets or counts their clauses asks
// whether marks are used, so that is asked once and handed on. That the outline fits the flow stays a clause of each
// call: a ghost field takes only a fact that has one proof at most, which isn't shown of `Fits`, told by cases.
ghost use Rattle.std.specs.Prelude.{◌≡◌};
ghost use Rattle.plc_vocabulary.specs.Marks.{program_uses_marks};

use plc_flow::Flow;
use plc_logic::Outline;
use plc_vocabulary::program_uses_marks;

/// A flow with an outline, of which it is known whether they use marks.
#[derive(Clone, Copy)]
pub struct Annotated<'a> {
    /// The control flow of a file.
    pub flow: &'a Flow,
    /// What is said of its nodes.
    pub outline: &'a Outline,
    /// Whether the flow or the outline uses marks.
    pub marked: bool,
    pub ghost asked: { marked ≡ program_uses_marks flow.now outline.now },
}

/// A flow with its outline, after a look whether they use marks.
pub fn annotate<'a>(flow: &'a Flow, outline: &'a Outline) -> Annotated<'a>
    ensures flow { result.flow.now ≡ flow.now }
    ensures outline { result.outline.now ≡ outline.now }
{
    Annotated {
        flow,
        outline,
        marked: program_uses_marks(flow, outline),
    }
}
