// The token at the front of bytes: a name or a keyword, a number, or a symbol, each as long as it
// goes. Each reader answers the token with its length, or the fault at the place where it begins.
ghost use Rattle.std.specs.Prelude.{◌≡◌, ◌<◌, ◌≤◌, ◌^◌, length, min, IfOk, IfErr};
ghost use Rattle.plc_lex.specs.declared.fault.LexFault.TheVariants.{Memory};
ghost use Rattle.plc_lex.specs.Spelling as spec;
ghost use Rattle.plc_lex.specs.Reading.{IsFaultAt};

use crate::characters::{digits_length, is_digit, is_letter, name_length};
use crate::fault::LexFault;
use crate::token::TokenKind;
use crate::words::{keyword, symbol};
use plc_base::{Items, MOST_NAME_BYTES};
use std::alloc::Global;

/// The token of a run of letters and digits.
fn name_or_word(alloc: Global, run: &[u8]) -> Result<TokenKind, LexFault>
    ensures ok { IfOk result (λ kind. kind ≡ spec.name_or_word run.now) }
    ensures err { IfErr result (λ e. e ≡ Memory) }
{
    match keyword(run) {
        Some(word) => Ok(TokenKind::Word(word)),
        None => Ok(TokenKind::Name(Items::from_vec(Vec::from_slice(alloc, run)?))),
    }
}

/// The name or the keyword at the front, and its length. `LongName` where the run has too many bytes.
#[tactic(auto, unfolding(crate::specs::Spelling::name_at))]
fn name_at(alloc: Global, bytes: &[u8], at: u32) -> Result<(TokenKind, usize), LexFault>
    ensures ok { IfOk result (λ token. spec.name_at bytes.now ≡ Ok token) }
    ensures err { IfErr result (IsFaultAt at (spec.name_at bytes.now)) }
{
    let length = name_length(bytes);
    if length > MOST_NAME_BYTES {
        return Err(LexFault::LongName { at });
    }
    let kind = name_or_word(alloc, bytes.split_at(length).0)?;
    Ok((kind, length))
}

/// The number that digits write, or 2^32 where it is no less.
fn value(digits: &[u8]) -> u64
    ensures { result ≡ min (spec.value digits.now) (2 ^ 32) }
{
    let mut value: u64 = 0;
    for digit in digits {
        value = (10 * value + u64::from(digit.saturating_sub(b'0'))).min(1 << 32);
    }
    value
}

/// Whether there is one digit, or several of which the first isn't 0.
fn is_plain(digits: &[u8]) -> bool
    ensures { result ≡ spec.is_plain digits.now }
{
    match digits {
        [] => false,
        [_] => true,
        [first, _, ..] => *first != b'0',
    }
}

/// The number at the front, and its length. `BadNumber` where it is 2^32 or more, or isn't plain.
#[tactic(auto, unfolding(crate::specs::Spelling::number_at))]
fn number_at(bytes: &[u8], at: u32) -> Result<(TokenKind, usize), LexFault>
    ensures ok { IfOk result (λ token. spec.number_at bytes.now ≡ Ok token) }
    ensures err { IfErr result (IsFaultAt at (spec.number_at bytes.now)) }
{
    let length = digits_length(bytes);
    let (digits, _) = bytes.split_at(length);
    let value = value(digits);
    if is_plain(digits) && value < 1 << 32 {
        Ok((TokenKind::Number(value as u32), length))
    } else {
        Err(LexFault::BadNumber { at })
    }
}

/// The longest symbol at the front, and its length. `BadByte` where none stands there.
#[tactic(auto, unfolding(crate::specs::Spelling::symbol_at))]
fn symbol_at(bytes: &[u8], at: u32) -> Result<(TokenKind, usize), LexFault>
    ensures ok { IfOk result (λ token. spec.symbol_at bytes.now ≡ Ok token) }
    ensures err { IfErr result (IsFaultAt at (spec.symbol_at bytes.now)) }
{
    match symbol(bytes) {
        Some((symbol, length)) => Ok((TokenKind::Symbol(symbol), length)),
        None => Err(LexFault::BadByte { at }),
    }
}

/// The token at the front of bytes that begin at a place, and its length.
pub fn token_at(alloc: Global, bytes: &[u8], at: u32) -> Result<(TokenKind, usize), LexFault>
    ensures ok { IfOk result (λ token. spec.token_at bytes.now ≡ Ok token) }
    ensures within { IfOk result (λ token. (0 < token.1) × (token.1 ≤ length bytes.now)) }
    ensures err { IfErr result (IsFaultAt at (spec.token_at bytes.now)) }
{
    match bytes {
        [] => Err(LexFault::BadByte { at }),
        [first, ..] if is_letter(*first) => name_at(alloc, bytes, at),
        [first, ..] if is_digit(*first) => number_at(bytes, at),
        _ => symbol_at(bytes, at),
    }
}
