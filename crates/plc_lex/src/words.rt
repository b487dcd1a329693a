// The written keywords and symbols, as two tables in the order of the language's description. Reading searches them,
// and printing takes the row whose number is the variant's, so that no word is spelled twice and none lacks a text.
ghost use Rattle.std.specs.Prelude.{◌≡◌, Some, length, map};
ghost use Rattle.plc_lex.specs.Characters.{keyword_in, keyword_of, symbol_in, symbol_of};
ghost use Rattle.plc_lex.specs.Texts.{symbol_text, word_text};

use crate::token::{Keyword, Symbol};

const KEYWORDS: [(&[u8], Keyword); 42] = [
    (b"struct", Keyword::Struct),
    (b"ptr", Keyword::Ptr),
    (b"data", Keyword::Data),
    (b"shared", Keyword::Shared),
    (b"call", Keyword::Call),
    (b"use", Keyword::Use),
    (b"hazard", Keyword::Hazard),
    (b"epoch", Keyword::Epoch),
    (b"ghost", Keyword::Ghost),
    (b"thread", Keyword::Thread),
    (b"init", Keyword::Init),
    (b"op", Keyword::Op),
    (b"atomic", Keyword::Atomic),
    (b"if", Keyword::If),
    (b"else", Keyword::Else),
    (b"loop", Keyword::Loop),
    (b"break", Keyword::Break),
    (b"return", Keyword::Return),
    (b"skip", Keyword::Skip),
    (b"choose", Keyword::Choose),
    (b"or", Keyword::Or),
    (b"label", Keyword::Label),
    (b"during", Keyword::During),
    (b"active", Keyword::Active),
    (b"assume", Keyword::Assume),
    (b"new", Keyword::New),
    (b"null", Keyword::Null),
    (b"cas", Keyword::Cas),
    (b"outline", Keyword::Outline),
    (b"depth", Keyword::Depth),
    (b"inv", Keyword::Inv),
    (b"over", Keyword::Over),
    (b"at", Keyword::At),
    (b"all", Keyword::All),
    (b"not", Keyword::Not),
    (b"retired", Keyword::Retired),
    (b"me", Keyword::Me),
    (b"none", Keyword::None),
    (b"mark", Keyword::Mark),
    (b"unmark", Keyword::Unmark),
    (b"marked", Keyword::Marked),
    (b"unmarked", Keyword::Unmarked),
];

const SYMBOLS: [(&[u8], Symbol); 14] = [
    (b":=", Symbol::Assign),
    (b"?=", Symbol::Refresh),
    (b"==", Symbol::Equal),
    (b"!=", Symbol::Unequal),
    (b">=", Symbol::AtLeast),
    (b"{", Symbol::OpenBrace),
    (b"}", Symbol::CloseBrace),
    (b"(", Symbol::OpenParen),
    (b")", Symbol::CloseParen),
    (b";", Symbol::Semicolon),
    (b",", Symbol::Comma),
    (b".", Symbol::Dot),
    (b":", Symbol::Colon),
    (b"<", Symbol::Less),
];

/// The keyword of a table that a run of bytes spells.
fn keyword_in(mut table: &[(&[u8], Keyword)], run: &[u8]) -> Option<Keyword>
    ensures { result ≡ keyword_in (map (λ k. (k.0.now, k.1)) table.entry.now) run.now }
{
    while let [entry, rest @ ..] = table {
        if entry.0 == run {
            return Some(entry.1);
        }
        table = rest;
    }
    None
}

/// The keyword that a run of letters spells.
#[tactic(auto, unfolding(crate::specs::Characters::keyword_of, crate::specs::Characters::keywords))]
pub fn keyword(run: &[u8]) -> Option<Keyword>
    ensures { result ≡ keyword_of run.now }
{
    keyword_in(&KEYWORDS, run)
}

/// The first symbol of a table with which bytes begin, and its length.
fn symbol_in(mut table: &[(&[u8], Symbol)], bytes: &[u8]) -> Option<(Symbol, usize)>
    ensures { result ≡ symbol_in (map (λ s. (s.0.now, s.1)) table.entry.now) bytes.now }
{
    while let [entry, rest @ ..] = table {
        if bytes.starts_with(entry.0) {
            return Some((entry.1, entry.0.len()));
        }
        table = rest;
    }
    None
}

/// The longest symbol at the front, and its length.
#[tactic(auto, unfolding(crate::specs::Characters::symbol_of, crate::specs::Characters::symbols_longest_first))]
pub fn symbol(bytes: &[u8]) -> Option<(Symbol, usize)>
    ensures { result ≡ symbol_of bytes.now }
{
    symbol_in(&SYMBOLS, bytes)
}

/// The letters of a keyword, which spell it.
#[tactic(auto, unfolding(crate::specs::Characters::keyword_of, crate::specs::Characters::keywords))]
pub fn word_text(word: Keyword) -> &'static [u8]
    ensures text { result.now ≡ word_text word }
    ensures spells { keyword_of result.now ≡ Some word }
{
    KEYWORDS[word as usize].0
}

/// The characters of a symbol, which spell it.
#[tactic(auto, unfolding(crate::specs::Characters::symbol_of, crate::specs::Characters::symbols_longest_first))]
pub fn symbol_text(symbol: Symbol) -> &'static [u8]
    ensures text { result.now ≡ symbol_text symbol }
    ensures spells { symbol_of result.now ≡ Some (symbol, length result.now) }
{
    SYMBOLS[symbol as usize].0
}
