// The lines on which tokens stand. Whoever says on which line something of a file is asks here.
ghost use Rattle.std.specs.Prelude.{◌≡◌, get_or};
ghost use Rattle.plc_parse.specs.Units.{lines_of};

use plc_lex::Token;

/// The line of the token at a place, or else what is said after the last token.
pub fn line_at(tokens: &[Token], at: u32, after: u32) -> u32
    ensures { result ≡ get_or (lines_of tokens.now) at after }
{
    match tokens.get(at as usize) {
        Some(token) => token.line,
        None => after,
    }
}
