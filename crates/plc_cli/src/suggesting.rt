// The claims that a file lacks. No outline is judged: whether a suggested claim is true is for the check of the file
// that has it. So the question needs the types alone, and what it answers is one set, which the definition fixes.
ghost use Rattle.std.specs.Prelude.{◌≡◌, IfOk};
ghost use Rattle.plc_cli.specs.Suggestions.{IsSuggestionAnswered, suggestion_status, suggestion_text};

use crate::answer::{Answer, refuse};
use crate::asking::Question;
use crate::status::{FAILS, HOLDS};
use plc_answers::{FailedCondition, insufficient_text, spots_limit_text, suggested_text};
use plc_base::NoMemory;
use plc_check::Judged;
use plc_suggest::{SuggestFault, Suggestion, suggest};
use std::alloc::Global;

/// The answer that says a suggestion: it fails where no claims are enough.
fn suggestion_answer(
    alloc: Global,
    judged: &Judged,
    suggestion: &Suggestion,
) -> Result<Answer, NoMemory>
    ensures { IfOk result (λ answer. (answer.status ≡ suggestion_status suggestion.now)
        × (answer.text.items ≡ suggestion_text judged.now suggestion.now)) }
{
    match suggestion {
        Suggestion::Found(spots) => Ok(Answer {
            status: HOLDS,
            text: suggested_text(alloc, &judged.flow, spots.as_slice())?,
        }),
        Suggestion::Insufficient { step, prim, fault } => {
            let failed = FailedCondition {
                step: *step,
                prim: *prim,
                fault: *fault,
            };
            Ok(Answer {
                status: FAILS,
                text: insufficient_text(alloc, &judged.flow, failed)?,
            })
        }
    }
}

/// The question for the claims that a file lacks.
#[derive(Drop)]
pub(crate) struct ForSuggestions;

impl Question for ForSuggestions {
    ghost due = { λ _ judged. IsSuggestionAnswered judged };

    fn answer(&self, alloc: Global, judged: &Judged) -> Result<Answer, NoMemory> {
        match suggest(alloc, &judged.flow, &judged.observer) {
            Ok(suggestion) => {
                let answer = suggestion_answer(alloc, judged, &suggestion);
                drop(suggestion);
                answer
            }
            Err(SuggestFault::TooMany { count }) => Ok(refuse(spots_limit_text(alloc, count)?)),
            Err(SuggestFault::Memory) => Err(NoMemory),
        }
    }
}
