// An answer, and those that need no more than a refusal.
ghost use Rattle.std.specs.Prelude.{◌≡◌, ◌≢◌, IfOk};
ghost use Rattle.plc_check.specs.declared.judged.LoadFault.TheVariants.{Memory};
ghost use Rattle.plc_answers.specs.Refusals.{words_refused_text};
ghost use Rattle.plc_cli.specs.Refusals.{load_fault_text};
ghost use Rattle.plc_cli.specs.Statuses.{bad_words, refused};

use crate::status::{BAD_WORDS, REFUSED};
use plc_answers::{lex_fault_text, limit_text, parse_fault_text, words_refused_text};
use plc_base::NoMemory;
use plc_check::LoadFault;
use std::alloc::Global;

/// A status with its text.
#[derive(Drop)]
pub struct Answer {
    pub status: u8,
    pub text: Vec<u8>,
}

/// The answer that refuses bytes with this text.
pub(crate) fn refuse(text: Vec<u8>) -> Answer
    ensures { result ≡ record { status = refused; text = text } }
{
    Answer {
        status: REFUSED,
        text,
    }
}

/// The answer to words of no listed form. The one error is that memory runs out.
pub fn words_refusal(alloc: Global) -> Result<Answer, NoMemory>
    ensures { IfOk result (λ answer. (answer.status ≡ bad_words) × (answer.text.items ≡ words_refused_text)) }
{
    Ok(Answer {
        status: BAD_WORDS,
        text: words_refused_text(alloc)?,
    })
}

/// The text of a refusal.
fn load_fault_text(alloc: Global, fault: &LoadFault) -> Result<Vec<u8>, NoMemory>
    ensures text { IfOk result (λ text. text.items ≡ load_fault_text fault.now) }
    ensures told { IfOk result (λ _. fault.now ≢ Memory) }
{
    match fault {
        LoadFault::Lex(fault) => Ok(lex_fault_text(alloc, *fault)?),
        LoadFault::Parse { fault, line } => Ok(parse_fault_text(alloc, fault, *line)?),
        LoadFault::Limit { what, count } => Ok(limit_text(alloc, *what, *count)?),
        LoadFault::Memory => Err(NoMemory),
    }
}

/// The answer to a file that is refused. The one error is that memory runs out, be it that it did when the file was
/// loaded.
pub fn refusal(alloc: Global, fault: &LoadFault) -> Result<Answer, NoMemory>
    ensures answer { IfOk result (λ answer.
        (answer.status ≡ refused) × (answer.text.items ≡ load_fault_text fault.now)) }
    ensures told { IfOk result (λ _. fault.now ≢ Memory) }
{
    Ok(refuse(load_fault_text(alloc, fault)?))
}
