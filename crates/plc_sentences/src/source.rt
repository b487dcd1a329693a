// Pieces of the file's own text. A clause may go over several lines and have comments between its words, so all that
// stands between two tokens is shown as one space.
use plc_answers::{push, push_bytes};
use plc_base::Span;
use plc_lex::Token;
use std::alloc::AllocError;

/// The bytes of a file, and the tokens that they spell.
#[derive(Clone, Copy)]
pub struct Source<'a> {
    pub bytes: &'a [u8],
    pub tokens: &'a [Token],
}

/// Where something stands in a file.
#[derive(Clone, Copy)]
pub struct Placed {
    /// The number of its first token.
    pub first: usize,
    /// That of the token after its last one.
    pub end: usize,
    /// The line of its first token.
    pub line: u32,
}

/// The bytes of a span; none where it doesn't lie within these.
fn bytes_of(bytes: &[u8], span: Span) -> &[u8] {
    bytes
        .get(span.start as usize..span.end as usize)
        .unwrap_or(&[])
}

/// A token's own bytes, after a space where it doesn't begin at the end of the one before.
fn push_token(
    out: &mut Vec<u8>,
    source: Source,
    before: Option<u32>,
    span: Span,
) -> Result<(), AllocError> {
    if before.is_some_and(|end| end != span.start) {
        push(out, " ")?;
    }
    push_bytes(out, bytes_of(source.bytes, span))
}

/// The file's own text of what stands somewhere: its tokens, with one space where the file has white space or comments
/// between two. The one error is that memory runs out.
pub(crate) fn push_source(
    out: &mut Vec<u8>,
    source: Source,
    placed: Placed,
) -> Result<(), AllocError> {
    let mut before = None;
    for token in source.tokens.get(placed.first..placed.end).unwrap_or(&[]) {
        push_token(out, source, before, token.span)?;
        before = Some(token.span.end);
    }
    Ok(())
}
