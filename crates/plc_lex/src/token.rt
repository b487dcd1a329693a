// A token keeps what it is, the bytes from which it was read, and its line, so that each later
// fault can name its place without the text.
use plc_base::{Items, Span};

/// A word that can't be a name, one variant for each.
#[derive(Clone, Copy, Debug, PartialEq, Eq)]
pub enum Keyword {
    Struct,
    Ptr,
    Data,
    Shared,
    Call,
    Use,
    Hazard,
    Epoch,
    Ghost,
    Thread,
    Init,
    Op,
    Atomic,
    If,
    Else,
    Loop,
    Break,
    Return,
    Skip,
    Choose,
    Or,
    Label,
    During,
    Active,
    Assume,
    New,
    Null,
    Cas,
    Outline,
    Depth,
    Inv,
    Over,
    At,
    All,
    Not,
    Retired,
    Me,
    None,
    Mark,
    Unmark,
    Marked,
    Unmarked,
}

/// A symbol of one or two bytes, one variant for each.
#[derive(Clone, Copy, Debug, PartialEq, Eq)]
pub enum Symbol {
    /// `:=`
    Assign,
    /// `?=`
    Refresh,
    /// `==`
    Equal,
    /// `!=`
    Unequal,
    /// `>=`
    AtLeast,
    /// `{`
    OpenBrace,
    /// `}`
    CloseBrace,
    /// `(`
    OpenParen,
    /// `)`
    CloseParen,
    /// `;`
    Semicolon,
    /// `,`
    Comma,
    /// `.`
    Dot,
    /// `:`
    Colon,
    /// `<`
    Less,
}

/// What a token is.
#[derive(Drop)]
pub enum TokenKind {
    Word(Keyword),
    /// A name's bytes, at least 1 and at most 64.
    Name(Items<u8>),
    Number(u32),
    Symbol(Symbol),
}

/// A token with its place.
#[derive(Drop)]
pub struct Token {
    pub kind: TokenKind,
    /// The bytes that spell it.
    pub span: Span,
    /// One more than the number of line feeds before it.
    pub line: u32,
}
