// Texts with their tokens, or the first place where none stands: by the written grammar.
use crate::tests::tables::{assert_answer, assert_rows};
use crate::tests::texts::{ForTokens, Lexed};
use plc_lex::{Token, TokenKind};
use std::alloc::{AllocError, Global};

// What a token is, with its bytes and its line.
fn push_token(text: &mut String, token: &Token) -> Result<(), AllocError> {
    match &token.kind {
        TokenKind::Word(word) => write!(text, "{word:?}")?,
        TokenKind::Symbol(symbol) => write!(text, "{symbol:?}")?,
        TokenKind::Number(number) => write!(text, "{number}")?,
        TokenKind::Name(name) => {
            let name = str::from_utf8(name.as_slice()).unwrap_or("?");
            write!(text, "'{name}'")?
        }
    }
    let start = token.span.start;
    let end = token.span.end;
    let line = token.line;
    write!(text, " {start}..{end} line {line};")
}

fn push_tokens(text: &mut String, tokens: &[Token]) -> Result<(), AllocError> {
    for token in tokens {
        push_token(text, token)?;
    }
    Ok(())
}

// The tokens of a text, or the fault.
struct TokensOf;

impl ForTokens for TokensOf {
    fn push_for(&self, _: Global, text: &mut String, all: &[Token]) -> Result<(), AllocError> {
        push_tokens(text, all)
    }
}

// Each row begins with `# `; what it comes to stands after the arrow.
const SPELLINGS: &str = "\
#  => 
#  \t\r\n// none\n// => 
# struct N => Struct 0..6 line 1;'N' 7..8 line 1;
# structs => 'structs' 0..7 line 1;
# mark marks unmarked => Mark 0..4 line 1;'marks' 5..10 line 1;Unmarked 11..19 line 1;
# _ None none => '_' 0..1 line 1;'None' 2..6 line 1;None 7..11 line 1;
# a\nb\r\n\nc => 'a' 0..1 line 1;'b' 2..3 line 2;'c' 6..7 line 4;
# a//b\nc => 'a' 0..1 line 1;'c' 5..6 line 2;
# x // to the end => 'x' 0..1 line 1;
# // é\nme => Me 6..8 line 2;
# ?=:===:= => Refresh 0..2 line 1;Assign 2..4 line 1;Equal 4..6 line 1;Assign 6..8 line 1;
# a: := => 'a' 0..1 line 1;Colon 1..2 line 1;Assign 3..5 line 1;
# !=>=< => Unequal 0..2 line 1;AtLeast 2..4 line 1;Less 4..5 line 1;
# {}() => OpenBrace 0..1 line 1;CloseBrace 1..2 line 1;OpenParen 2..3 line 1;CloseParen 3..4 line 1;
# 0 10;4294967295,. => 0 0..1 line 1;10 2..4 line 1;Semicolon 4..5 line 1;4294967295 5..15 line 1;\
    Comma 15..16 line 1;Dot 16..17 line 1;
# 7x => 7 0..1 line 1;'x' 1..2 line 1;
# a123456789b123456789c123456789d123456789e123456789f123456789g123 => \
    'a123456789b123456789c123456789d123456789e123456789f123456789g123' 0..64 line 1;
# p : = q => BadByte { at: 4 }
# a\n / => BadByte { at: 3 }
# /* */ => BadByte { at: 0 }
# x ? y => BadByte { at: 2 }
# x > y => BadByte { at: 2 }
# not! => BadByte { at: 3 }
# aé => BadByte { at: 1 }
# 4294967296 => BadNumber { at: 0 }
# x := 18446744073709551617; => BadNumber { at: 5 }
# 0 00 => BadNumber { at: 2 }
# ; 01 @ => BadNumber { at: 2 }
# ; @ 01 => BadByte { at: 2 }
#  a123456789b123456789c123456789d123456789e123456789f123456789g1234 => LongName { at: 1 }
# or use call init loop skip over none => Or 0..2 line 1;Use 3..6 line 1;Call 7..11 line 1;Init 12..16 line 1;\
    Loop 17..21 line 1;Skip 22..26 line 1;Over 27..31 line 1;None 32..36 line 1;
";

const KEYWORDS: &str =
    "struct ptr data shared call use hazard epoch ghost thread init op atomic if else loop break return skip choose \
     or label during active assume new null cas outline depth inv over at all not retired me none mark unmark marked \
     unmarked";

const WORDS: &str =
    "Struct Ptr Data Shared Call Use Hazard Epoch Ghost Thread Init Op Atomic If Else Loop Break Return Skip Choose \
     Or Label During Active Assume New Null Cas Outline Depth Inv Over At All Not Retired Me None Mark Unmark Marked \
     Unmarked ";

// The words of a text without what is no keyword.
fn push_keywords(text: &mut String, tokens: &[Token]) -> Result<(), AllocError> {
    for token in tokens {
        if let TokenKind::Word(word) = token.kind {
            write!(text, "{word:?} ")?;
        }
    }
    Ok(())
}

struct WordsOf;

impl ForTokens for WordsOf {
    fn push_for(&self, _: Global, text: &mut String, all: &[Token]) -> Result<(), AllocError> {
        push_keywords(text, all)
    }
}

#[test]
fn each_keyword_is_a_word(rt: HostRuntime) -> Result<(), AllocError> {
    assert_answer(&rt, rt.alloc(), &Lexed(WordsOf), KEYWORDS, WORDS)
}

#[test]
fn texts_spell_tokens(rt: HostRuntime) -> Result<(), AllocError> {
    assert_rows(&rt, rt.alloc(), &Lexed(TokensOf), SPELLINGS, "# ", " => ")
}
