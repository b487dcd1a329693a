// The first block that stands too deep, counted on the tokens alone in one pass before they are read: so no
// reader counts blocks, and its recursion is bounded.
ghost use Rattle.std.specs.Prelude.{◌≡◌, ◌+◌, ◌-◌, ◌<◌, ◌^◌, ◌↔◌, ◌∷◌, [], IsTrue, MatchOption, length, take};
ghost use Rattle.std.specs.List.{count_by};
ghost use Rattle.plc_syntax.specs.Nesting.{is_open_brace, is_close_brace, OpensBlockAt, TooDeepAt, NoneTooDeep};
ghost use Rattle.plc_syntax.specs.Syntax.{kinds};
ghost use Rattle.plc_tree.specs.Answers.{IsFirstTooDeep};
ghost use Rattle.plc_tree.specs.Braces.{HasCounted};

use plc_base::What1;
use plc_lex::{Keyword, Symbol, Token, TokenKind};

/// How many braces of each kind are read. Both are counted, since tokens that are no file may close
/// more than they opened.
#[derive(Clone, Copy)]
struct Braces {
    opened: u32,
    closed: u32,
}

impl Braces {
    /// The braces of no tokens.
    fn none() -> Braces
        ensures { HasCounted result [] }
    {
        Braces {
            opened: 0,
            closed: 0,
        }
    }

    /// Counts one token more.
    fn count(&mut self, kind: &TokenKind)
        requires opened { self.old.opened + 1 < 2 ^ 32 }
        requires closed { self.old.closed + 1 < 2 ^ 32 }
        ensures opened { self.new.opened ≡ self.old.opened + count_by is_open_brace (kind.now ∷ []) }
        ensures closed { self.new.closed ≡ self.old.closed + count_by is_close_brace (kind.now ∷ []) }
    {
        match kind {
            TokenKind::Symbol(Symbol::OpenBrace) => self.opened += 1,
            TokenKind::Symbol(Symbol::CloseBrace) => self.closed += 1,
            _ => {}
        }
    }

    /// How many of the braces that are opened aren't closed.
    fn open(&self) -> u32
        ensures { result ≡ self.now.opened - self.now.closed }
    {
        self.opened.saturating_sub(self.closed)
    }
}

/// Whether the token at a place begins a block that stands too deep; the braces before it are
/// counted.
fn is_too_deep(tokens: &[Token], place: usize, before: &Braces) -> bool
    requires within { place < length tokens.now }
    requires counted { HasCounted before.now (take place (kinds tokens.now)) }
    ensures { IsTrue result ↔ TooDeepAt (kinds tokens.now) place }
{
    before.open() > What1::Nesting.most() && opens_block(tokens, place)
}

/// Whether the token at a place is the brace that begins a block, and not that of an `atomic`.
fn opens_block(tokens: &[Token], place: usize) -> bool
    requires { place < length tokens.now }
    ensures { IsTrue result ↔ OpensBlockAt (kinds tokens.now) place }
{
    is_open_brace(&tokens[place]) && !(place > 0 && is_atomic(&tokens[place - 1]))
}

/// Whether a token is `{`.
fn is_open_brace(token: &Token) -> bool
    ensures { IsTrue result ↔ (token.now.kind ≡ TokenKind.Symbol Symbol.OpenBrace) }
{
    matches!(token.kind, TokenKind::Symbol(Symbol::OpenBrace))
}

/// Whether a token is the word `atomic`.
fn is_atomic(token: &Token) -> bool
    ensures { IsTrue result ↔ (token.now.kind ≡ TokenKind.Word Keyword.Atomic) }
{
    matches!(token.kind, TokenKind::Word(Keyword::Atomic))
}

/// The place of the first block that stands too deep.
pub fn first_too_deep(tokens: &[Token]) -> Option<usize>
    requires { length tokens.now < 2 ^ 32 }
    ensures { MatchOption result (NoneTooDeep (kinds tokens.now)) (IsFirstTooDeep (kinds tokens.now)) }
{
    let mut braces = Braces::none();
    for (place, token) in tokens.iter().enumerate() {
        if is_too_deep(tokens, place, &braces) {
            return Some(place);
        }
        braces.count(&token.kind);
    }
    None
}
