// Why words, files and bytes are refused, as texts.
ghost use Rattle.std.specs.Prelude.{◌≡◌, ◌++◌, IfOk, codes, decimal};
ghost use Rattle.plc_answers.specs.Refusals.{lex_fault_text, limit_text, parse_fault_text, token_text};
ghost use Rattle.plc_answers.specs.Refusals.{words_refused_text, read_failed_text, read_too_long_text};

use crate::pieces::{push, push_number};
use plc_base::What1;
use plc_lex::LexFault;
use plc_scope::ParseFault;
use std::alloc::{AllocError, Global};

/// A text that is always the same.
pub(crate) fn fixed_text(alloc: Global, text: &str) -> Result<Vec<u8>, AllocError>
    ensures { IfOk result (λ v. v.items ≡ text.now) }
{
    Vec::from_slice(alloc, text.as_bytes())
}

/// Words of no listed form.
pub fn words_refused_text(alloc: Global) -> Result<Vec<u8>, AllocError>
    ensures { IfOk result (λ v. v.items ≡ words_refused_text) }
{
    fixed_text(alloc, "words refused\n")
}

/// A read that failed.
pub fn read_failed_text(alloc: Global) -> Result<Vec<u8>, AllocError>
    ensures { IfOk result (λ v. v.items ≡ read_failed_text) }
{
    fixed_text(alloc, "read failed\n")
}

/// A file that is longer than a file of its kind may be.
pub fn read_too_long_text(alloc: Global) -> Result<Vec<u8>, AllocError>
    ensures { IfOk result (λ v. v.items ≡ read_too_long_text) }
{
    fixed_text(alloc, "read too long\n")
}

/// A number after words, and the end of the line.
pub(crate) fn numbered_text(alloc: Global, words: &str, number: u32) -> Result<Vec<u8>, AllocError>
    ensures { IfOk result (λ v. v.items ≡ words.now ++ decimal number ++ codes "\n") }
{
    let mut out = fixed_text(alloc, words)?;
    push_number(&mut out, u64::from(number))?;
    push(&mut out, "\n")?;
    Ok(out)
}

/// Bytes that spell no tokens: the place of the byte. Running out of memory has no text.
pub fn lex_fault_text(alloc: Global, fault: LexFault) -> Result<Vec<u8>, AllocError>
    ensures { IfOk result (λ v. v.items ≡ lex_fault_text fault) }
{
    match fault {
        LexFault::BadByte { at } => numbered_text(alloc, "refused byte at ", at),
        LexFault::LongName { at } => numbered_text(alloc, "refused name at ", at),
        LexFault::BadNumber { at } => numbered_text(alloc, "refused number at ", at),
        LexFault::Memory => Ok(Vec::new(alloc)),
    }
}

/// A limit that is passed, with the limit plus one.
pub fn limit_text(alloc: Global, what: What1, count: u32) -> Result<Vec<u8>, AllocError>
    ensures { IfOk result (λ v. v.items ≡ limit_text what count) }
{
    let mut out = fixed_text(alloc, "refused limit ")?;
    push(&mut out, what.name())?;
    push(&mut out, " ")?;
    push_number(&mut out, u64::from(count))?;
    push(&mut out, "\n")?;
    Ok(out)
}

/// A fault at a token.
fn token_text(alloc: Global, kind: &str, at: u32, line: u32) -> Result<Vec<u8>, AllocError>
    ensures { IfOk result (λ v. v.items ≡ token_text kind.now at line) }
{
    let mut out = fixed_text(alloc, "refused ")?;
    push(&mut out, kind)?;
    push(&mut out, " token ")?;
    push_number(&mut out, u64::from(at))?;
    push(&mut out, " line ")?;
    push_number(&mut out, u64::from(line))?;
    push(&mut out, "\n")?;
    Ok(out)
}

/// Tokens that spell no unit: the place among the tokens, and its line. Running out of memory has no text.
pub fn parse_fault_text(alloc: Global, fault: &ParseFault, line: u32) -> Result<Vec<u8>, AllocError>
    ensures { IfOk result (λ v. v.items ≡ parse_fault_text fault.now line) }
{
    match *fault {
        ParseFault::Syntax { at } => token_text(alloc, "syntax", at, line),
        ParseFault::Undeclared { at } => token_text(alloc, "undeclared", at, line),
        ParseFault::Duplicate { at } => token_text(alloc, "duplicate", at, line),
        ParseFault::WrongSort { at } => token_text(alloc, "sort", at, line),
        ParseFault::NoSuchCall { at } => token_text(alloc, "call", at, line),
        ParseFault::Limit { what, count } => limit_text(alloc, what, count),
        ParseFault::Memory => Ok(Vec::new(alloc)),
    }
}
