// Single tokens at the front, a name after its comma or before its symbol, and how a form is put around what is
// read. Each reader takes what it names, or answers the place of the token that stands there in its stead;
// `word_if_at` takes its word if it stands there, and says so.
ghost use Rattle.std.specs.Prelude.{◌≡◌, ◌+◌, ◌∷◌, [], MatchOption, IfSome};
ghost use Rattle.plc_syntax.specs.Syntax.{kinds};
ghost use Rattle.plc_syntax.specs.Views.{name_tree, number_tree};
ghost use Rattle.plc_syntax.specs.Fronts.{front_then, front_end};
ghost use Rattle.plc_syntax.specs.Forms.{word_of, word_if_of, symbol_of, name_of, name_and, number_of, comma_name_of};
ghost use Rattle.plc_syntax.specs.Answers.{Gives, Passes};

use crate::fault::Fault;
use crate::form::{Name, Placed};
use crate::rest::Rest;
use plc_lex::{Keyword, Symbol, TokenKind};

/// A tree and what stands after it, or why there is none.
pub type Read<'a, X> = Result<(X, Rest<'a>), Fault>;

/// Readers one after another, and what is answered with what they read. Where one refuses, its fault is the answer,
/// and what was read before and isn't copied is dropped by name. It is a match on each and no `?`, and a call of `drop`
/// in place of what a compiler puts at the end of a scope, since their compiled code is longer, and so its proof.
#[macro_export]
macro_rules! in_turn {
    ($answer:expr) => { $answer };
    ($read:pat = $reader:expr, dropping $($held:ident),+; $($then:tt)*) => {
        match $reader {
            Ok($read) => $crate::in_turn!($($then)*),
            Err(fault) => {
                $(drop($held);)+
                Err(fault)
            }
        }
    };
    ($read:pat = $reader:expr; $($then:tt)*) => {
        match $reader {
            Ok($read) => $crate::in_turn!($($then)*),
            Err(fault) => Err(fault),
        }
    };
}

/// A form, which holds what is read by its name, and then the symbols that end it.
#[macro_export]
macro_rules! form {
    ($form:expr; $part:ident = $read:expr) => {
        $crate::in_turn!(($part, after) = $read; Ok(($form, after)))
    };
    ($form:expr; $part:ident = $read:expr, dropping $($held:ident),+) => {
        $crate::in_turn!(($part, after) = $read, dropping $($held),+; Ok(($form, after)))
    };
    ($form:expr; $part:ident = $read:expr, $end:ident) => {
        $crate::in_turn!(
            ($part, after) = $read;
            after = $crate::symbol_at(after, plc_lex::Symbol::$end);
            Ok(($form, after))
        )
    };
    ($form:expr; $part:ident = $read:expr, $end:ident, $last:ident) => {
        $crate::in_turn!(
            ($part, after) = $read;
            after = $crate::symbol_at(after, plc_lex::Symbol::$end);
            after = $crate::symbol_at(after, plc_lex::Symbol::$last);
            Ok(($form, after))
        )
    };
}

/// The fault at the first token.
pub fn syntax_fault(rest: Rest) -> Fault
    ensures { result ≡ Fault.Syntax rest.entry.at }
{
    Fault::Syntax { at: rest.at }
}

/// The first token, of whatever kind.
pub fn first<'a>(rest: Rest<'a>) -> Option<(&'a TokenKind, Rest<'a>)>
    ensures read { MatchOption result (kinds rest.entry.tokens.now ≡ [])
        (λ r. kinds rest.entry.tokens.now ≡ r.0.now ∷ kinds r.1.tokens.now) }
    ensures at { IfSome result (λ r. r.1.at ≡ rest.entry.at + 1) }
{
    match rest.tokens {
        [token, tokens @ ..] => {
            let at = rest.at + 1;
            Some((&token.kind, Rest { tokens, at }))
        }
        [] => None,
    }
}

/// What stands at the front.
#[derive(Clone, Copy)]
pub enum Front<'a> {
    Word(Keyword),
    Name(&'a [u8]),
    Number(u32),
    Symbol(Symbol),
    /// No token.
    End,
}

/// The first token as a value, and what stands after it. A match on it is cheaper to prove than one on what
/// `first` borrows.
pub fn at_front<'a>(rest: Rest<'a>) -> (Front<'a>, Rest<'a>)
    ensures read { kinds rest.entry.tokens.now ≡ front_then result.0 (kinds result.1.tokens.now) }
    ensures at { result.1.at ≡ front_end result.0 rest.entry.at }
{
    match first(rest) {
        Some((TokenKind::Word(word), after)) => (Front::Word(*word), after),
        Some((TokenKind::Name(name), after)) => (Front::Name(name.as_slice()), after),
        Some((TokenKind::Number(number), after)) => (Front::Number(*number), after),
        Some((TokenKind::Symbol(symbol), after)) => (Front::Symbol(*symbol), after),
        None => (Front::End, rest),
    }
}

/// A keyword.
pub fn word_at<'a>(rest: Rest<'a>, word: Keyword) -> Result<Rest<'a>, Fault>
    ensures { Passes result (word_of word rest.entry.at (kinds rest.entry.tokens.now)) }
{
    match at_front(rest) {
        (Front::Word(found), after) if found == word => Ok(after),
        _ => Err(syntax_fault(rest)),
    }
}

/// Whether a keyword stands there, which may be left out.
pub fn word_if_at<'a>(rest: Rest<'a>, word: Keyword) -> Read<'a, bool>
    ensures { Gives (λ b. b) result (word_if_of word rest.entry.at (kinds rest.entry.tokens.now)) }
{
    match at_front(rest) {
        (Front::Word(found), after) if found == word => Ok((true, after)),
        _ => Ok((false, rest)),
    }
}

/// A symbol.
pub fn symbol_at<'a>(rest: Rest<'a>, symbol: Symbol) -> Result<Rest<'a>, Fault>
    ensures { Passes result (symbol_of symbol rest.entry.at (kinds rest.entry.tokens.now)) }
{
    match at_front(rest) {
        (Front::Symbol(found), after) if found == symbol => Ok(after),
        _ => Err(syntax_fault(rest)),
    }
}

/// A name.
pub fn name_at<'a>(rest: Rest<'a>) -> Read<'a, Name<'a>>
    ensures { Gives name_tree result (name_of rest.entry.at (kinds rest.entry.tokens.now)) }
{
    match at_front(rest) {
        (Front::Name(value), after) => Ok((Placed { at: rest.at, value }, after)),
        _ => Err(syntax_fault(rest)),
    }
}

/// A name after its comma: a further parameter, value or label.
pub fn comma_name_at<'a>(rest: Rest<'a>) -> Read<'a, Name<'a>>
    ensures { Gives name_tree result (comma_name_of rest.entry.at (kinds rest.entry.tokens.now)) }
{
    match at_front(rest) {
        (Front::Symbol(Symbol::Comma), after) => name_at(after),
        _ => Err(syntax_fault(rest)),
    }
}

/// A name and the symbol after it.
pub fn name_and_at<'a>(rest: Rest<'a>, symbol: Symbol) -> Read<'a, Name<'a>>
    ensures { Gives name_tree result (name_and symbol rest.entry.at (kinds rest.entry.tokens.now)) }
{
    in_turn!(
        (name, after) = name_at(rest);
        after = symbol_at(after, symbol);
        Ok((name, after))
    )
}

/// A number.
pub fn number_at<'a>(rest: Rest<'a>) -> Read<'a, Placed<u32>>
    ensures { Gives number_tree result (number_of rest.entry.at (kinds rest.entry.tokens.now)) }
{
    match at_front(rest) {
        (Front::Number(value), after) => Ok((Placed { at: rest.at, value }, after)),
        _ => Err(syntax_fault(rest)),
    }
}
