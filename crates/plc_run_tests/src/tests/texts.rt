// Texts that are wanted. A test hands its texts on, and owns none at its own ends: what a function has to show at each
// of its ends while it owns one costs more than all else that a test says.
use std::process::Abort;

// Fails a test where a text isn't the one that is wanted.
pub fn text_is<E: Drop>(rt: &impl Abort, text: Result<String, E>, want: &str) -> Result<(), E> {
    row_is(rt, "", text, want)
}

// Fails a test where the text of a row isn't the one that is wanted.
pub fn row_is<E: Drop>(
    rt: &impl Abort,
    row: &str,
    text: Result<String, E>,
    want: &str,
) -> Result<(), E> {
    let text = text?;
    assert_eq!(rt; text.as_str(), want, "{row}");
    Ok(())
}
