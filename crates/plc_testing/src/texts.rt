// Texts that are put together. Whether one is wanted is asked by each crate of tests: what may end a
// program stands in no library.
use std::alloc::AllocError;

/// Puts a piece at the end of a text. It takes the piece, so that who writes the text owns nothing beside it.
pub fn put<E: Drop + From<AllocError>>(
    text: &mut String,
    piece: Result<String, E>,
) -> Result<(), E> {
    text.push_str(piece?.as_str())?;
    Ok(())
}
