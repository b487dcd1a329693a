// A text is read from left to right. After each token all spaces and comments are passed at once,
// so the loop over tokens meets a token, a fault or the end.
ghost use Rattle.std.specs.Prelude.{◌≡◌, ◌<◌, ◌≤◌, ◌+◌, ◌∷◌, [], ℕ, List, length, vec_len, All, IfOk, IfErr, IfSome};
ghost use Rattle.std.specs.Prelude.{IfNone, OnOk, MatchResult};
ghost use Rattle.plc_base.specs.FileSizes.{largest_file};
ghost use Rattle.plc_lex.specs.declared.token.Token.{Token};
ghost use Rattle.plc_lex.specs.declared.fault.LexFault.TheVariants.{Memory};
ghost use Rattle.plc_lex.specs.Spelling.{next_line, Refusal, AreTokensOf};
ghost use Rattle.plc_lex.specs.Stops.{IsToken, StopsAt, SpellingIsUnique, LinesAreCounted};
ghost use Rattle.plc_lex.specs.Refused.{StopsWith};
ghost use Rattle.plc_lex.specs.Reading.{IsAtToken, Reads};

use crate::characters::{is_space, line_length, opens_comment};
use crate::fault::LexFault;
use crate::reading::token_at;
use crate::rest::{Rest, rest_after};
use crate::token::Token;
use plc_base::Span;
use std::alloc::Global;

/// The line of what stands after a byte.
fn next_line(line: u32, b: u8) -> u32
    requires { line ≤ largest_file + 1 }
    ensures { result ≡ next_line line b }
{
    if b == b'\n' { line + 1 } else { line }
}

/// What is left after the space or the comment at the front.
fn skip_one_blank<'a>(rest: Rest<'a>) -> Option<Rest<'a>>
    ensures none { IfNone result (IsAtToken rest.entry.bytes.now) }
    ensures reads { IfSome result (Reads rest.entry.at rest.entry.line rest.entry.bytes.now []) }
    ensures smaller { IfSome result (λ after. length after.bytes.now < length rest.entry.bytes.now) }
{
    match rest.bytes {
        [first, ..] if is_space(*first) => {
            let after = rest_after(rest, 1);
            Some(Rest {
                bytes: after.bytes,
                at: after.at,
                line: next_line(rest.line, *first),
            })
        }
        bytes if opens_comment(bytes) => Some(rest_after(rest, line_length(bytes))),
        _ => None,
    }
}

/// What is left after all spaces and comments at the front.
fn skip_blank<'a>(rest: Rest<'a>) -> Rest<'a>
    ensures at_token { IsAtToken result.bytes.now }
    ensures reads { Reads rest.entry.at rest.entry.line rest.entry.bytes.now [] result }
    ensures within { length result.bytes.now ≤ length rest.entry.bytes.now }
{
    let mut left = rest;
    while let Some(after) = skip_one_blank(left) {
        left = after;
    }
    left
}

/// The token at the front, and what is left after it.
fn first_token<'a>(alloc: Global, rest: Rest<'a>) -> Result<(Token, Rest<'a>), LexFault>
    requires at_token { IsAtToken rest.bytes.now }
    requires some { 0 < length rest.bytes.now }
    ensures reads { IfOk result (λ read. Reads rest.entry.at rest.entry.line rest.entry.bytes.now
        (read.0 ∷ []) read.1) }
    ensures smaller { IfOk result (λ read. length read.1.bytes.now < length rest.entry.bytes.now) }
    ensures err { IfErr result (StopsWith rest.entry.at rest.entry.bytes.now) }
{
    let (kind, count) = token_at(alloc, rest.bytes, rest.at)?;
    let after = rest_after(rest, count);
    let span = Span {
        start: rest.at,
        end: after.at,
    };
    Ok((
        Token {
            kind,
            span,
            line: rest.line,
        },
        after,
    ))
}

/// The tokens that a text of at most 1 MiB spells, or the fault at the least place where no token
/// stands. Spaces and comments stand between tokens; a token is taken as long as it goes.
pub fn tokens(alloc: Global, bytes: &[u8]) -> Result<Vec<Token>, LexFault>
    requires { length bytes.now ≤ largest_file }
    ensures spelled { IfOk result (λ v. AreTokensOf bytes.now v.items) }
    ensures fault { IfErr result (StopsWith 0 bytes.now) }

    // Running out of memory aside, what is spelled is answered, and what stops is refused.
    ensures accepts { (ts : List Token) → AreTokensOf bytes.now ts
        → MatchResult result (λ v. v.items ≡ ts) (λ e. e ≡ Memory) }
    ensures refuses { (why : Refusal) (place : ℕ) → StopsAt bytes.now why place → OnOk result ⊥ }

    ensures each { IfOk result (λ v. All (IsToken (length bytes.now)) v.items) }
    ensures count { IfOk result (λ v. vec_len v ≤ length bytes.now) }
{
    let mut tokens = Vec::new(alloc);
    let mut rest = skip_blank(Rest {
        bytes,
        at: 0,
        line: 1,
    });
    while !rest.bytes.is_empty() {
        let (token, after) = first_token(alloc, rest)?;
        tokens.push(token)?;
        rest = skip_blank(after);
    }
    Ok(tokens)
}

/// A text spells one list of tokens, or stops at one place, and not both.
pub fn spelling_is_unique()
    ensures { SpellingIsUnique }
{}

/// The line of a token is one more than the number of line feeds before it.
pub fn lines_are_counted()
    ensures { LinesAreCounted }
{}
