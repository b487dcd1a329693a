// Tables of texts with what they come to. What is asked of a text is an impl of `Answers`, so that the loop over a
// table and its one assertion are proved once for all tables.
use std::alloc::{AllocError, Global};
use std::process::Abort;

// What a text comes to.
pub(crate) trait Answers {
    fn push(&self, alloc: Global, answer: &mut String, text: &str) -> Result<(), AllocError>;
}

// Fails, with the row and both texts, where they differ.
fn assert_text(rt: &impl Abort, have: &str, want: &str, row: &str) {
    assert!(rt; have == want, "{row}: {have} is not {want}");
}

// One text comes to what is wanted, but for blanks at the end.
pub(crate) fn assert_answer<A: Answers>(
    rt: &impl Abort,
    alloc: Global,
    answers: &A,
    text: &str,
    want: &str,
) -> Result<(), AllocError> {
    let mut have = String::new(alloc);
    let pushed = answers.push(alloc, &mut have, text);
    if pushed.is_ok() {
        assert_text(rt, have.as_str().trim_end(), want.trim_end(), text);
    }
    pushed
}

// Each row comes to what stands after its arrow.
pub(crate) fn assert_rows<A: Answers>(
    rt: &impl Abort,
    alloc: Global,
    answers: &A,
    rows: &str,
    between: &str,
    arrow: &str,
) -> Result<(), AllocError> {
    for row in rows.split(between) {
        if !row.is_empty() {
            let (text, want) = row.split_once(arrow).unwrap_or((row, "?"));
            assert_answer(rt, alloc, answers, text, want)?;
        }
    }
    Ok(())
}

// Each line comes to what stands after its arrow.
pub(crate) fn assert_lines<A: Answers>(
    rt: &impl Abort,
    alloc: Global,
    answers: &A,
    lines: &str,
) -> Result<(), AllocError> {
    assert_rows(rt, alloc, answers, lines, "\n", " => ")
}
