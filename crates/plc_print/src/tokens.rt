// A form that is a few tokens is printed by one call, as a list of them: so the table of the forms is a
// table of such lists, and what a form prints is seen at once.
ghost use Rattle.std.specs.Prelude.{◌≡◌, ◌++◌, ◌∷◌, [], OnOk, map};
ghost use Rattle.plc_print.specs.Pieces.{Prints, piece_of};
ghost use Rattle.plc_print.specs.Text.{after_symbol};

use plc_base::NoMemory;
use plc_lex::{Keyword, Symbol, symbol_text, word_text};
use std::alloc::Global;

/// A token to print.
#[derive(Clone, Copy)]
pub enum Piece<'a> {
    Word(Keyword),
    Name(&'a [u8]),
    Number(u32),
    Sign(Symbol),
}

// The tokens that stand in several forms.
/// `null`.
pub const NULL: Piece = Piece::Word(Keyword::Null);

/// `:=`.
pub const ASSIGN: Piece = Piece::Sign(Symbol::Assign);

/// `?=`.
pub const REFRESH: Piece = Piece::Sign(Symbol::Refresh);

/// `.`.
pub const DOT: Piece = Piece::Sign(Symbol::Dot);

/// `,`.
pub const COMMA: Piece = Piece::Sign(Symbol::Comma);

/// `:`.
pub const COLON: Piece = Piece::Sign(Symbol::Colon);

/// `;`.
pub const SEMICOLON: Piece = Piece::Sign(Symbol::Semicolon);

/// `(`.
pub const OPEN: Piece = Piece::Sign(Symbol::OpenParen);

/// `)`.
pub const CLOSE: Piece = Piece::Sign(Symbol::CloseParen);

/// `{`.
pub const BEGIN: Piece = Piece::Sign(Symbol::OpenBrace);

/// `}`.
pub const END: Piece = Piece::Sign(Symbol::CloseBrace);

/// What printing answers: nothing, or that memory ran out.
pub type Printed = Result<(), NoMemory>;

/// What was printed so far.
#[derive(Drop)]
pub struct Printer {
    pub alloc: Global,
    pub text: Vec<u8>,
}

/// What follows a symbol.
fn after_symbol(symbol: Symbol) -> u8
    ensures { result ≡ after_symbol symbol }
{
    match symbol {
        Symbol::OpenBrace | Symbol::CloseBrace | Symbol::Semicolon => b'\n',
        _ => b' ',
    }
}

impl Printer {
    /// A token's text and what follows it.
    fn put(&mut self, text: &[u8], after: u8) -> Printed
        ensures { OnOk result (self.new.text.items ≡ self.old.text.items ++ text.now ++ after ∷ []) }
    {
        self.text.extend_from_slice(text)?;
        self.text.push(after)?;
        Ok(())
    }

    /// One token.
    pub fn token(&mut self, piece: Piece) -> Printed
        ensures { Prints result self.old self.new (piece_of piece.entry ∷ []) }
    {
        match piece {
            Piece::Word(word) => self.put(word_text(word), b' '),
            Piece::Name(name) => self.put(name, b' '),
            Piece::Number(number) => {
                let digits = number.to_string(self.alloc)?;
                self.put(digits.as_bytes(), b' ')
            }
            Piece::Sign(symbol) => self.put(symbol_text(symbol), after_symbol(symbol)),
        }
    }

    /// Tokens one after the other.
    pub fn tokens(&mut self, pieces: &[Piece]) -> Printed
        ensures { Prints result self.old self.new (map piece_of pieces.now) }
    {
        for piece in pieces {
            self.token(*piece)?;
        }
        Ok(())
    }
}
