// Texts that are wanted, and parts of texts. A test hands its texts on, owns none at its own ends, and has one end:
// what a function has to show at each of its ends while it owns one costs more than all else that a test says. So what
// compares takes the handle by which a test fails, and fails there, also where memory ran out for the text.
use std::alloc::{AllocError, Global};
use std::process::Abort;

// Fails a test where a text isn't the one that is wanted of a row, or isn't there.
pub(crate) fn text_is<E: Drop>(rt: &impl Abort, text: Result<String, E>, want: &str, row: &str) {
    match text {
        Ok(text) => {
            assert_eq!(rt; text.as_str(), want, "{row}");
        }
        Err(_) => panic!(rt; "{row}: no text"),
    }
}

// What stands before a mark and after it, and nothing where the mark isn't there.
pub(crate) fn halves<'a>(text: &'a str, mark: &str) -> (&'a str, &'a str) {
    text.split_once(mark).unwrap_or(("", ""))
}

// A status, and below it what was written.
pub(crate) fn told(alloc: Global, status: u8, written: &[u8]) -> Result<String, AllocError> {
    let text = str::from_utf8(written).unwrap_or("?");
    format!(in alloc; "{status}\n{text}")
}

// An answer with its status beside the text.
pub(crate) fn on_one_line(alloc: Global, answer: &str) -> Result<String, AllocError> {
    let (status, text) = halves(answer, "\n");
    format!(in alloc; "{status} {text}")
}

// The status of an answer and the first line of its text.
pub(crate) fn first_of(alloc: Global, answer: &str) -> Result<String, AllocError> {
    let (status, text) = halves(answer, "\n");
    let (line, _) = halves(text, "\n");
    format!(in alloc; "{status} {line}")
}

// The text of an answer where it has this status, and no text where it has another one.
pub(crate) fn text_under(alloc: Global, status: &str, answer: &str) -> Result<String, AllocError> {
    String::from_str(alloc, answer.strip_prefix(status).unwrap_or(""))
}
