// What all parts of a page are about: a file with what is judged of it.
use plc_base::NoMemory;
use plc_check::Judged;
use plc_html::{Html, Tag};
use plc_infer::Typing;
use plc_sentences::Clauses;

/// What writing a part of a page answers: nothing, or that memory runs out.
pub(crate) type Written = Result<(), NoMemory>;

/// A file that is shown.
#[derive(Clone, Copy)]
pub(crate) struct Shown<'a> {
    /// The bytes of the file.
    pub(crate) bytes: &'a [u8],
    /// What is judged of them.
    pub(crate) judged: &'a Judged,
    /// Where the clauses of its outline stand.
    pub(crate) clauses: &'a Clauses<'a>,
    /// What is known at each point: the strongest pre-typing.
    pub(crate) typing: &'a Typing,
}

/// Adds a sentence, in which the file's own words stand between backquotes.
pub(crate) fn push_sentence(html: &mut Html, words: &[u8]) -> Written {
    let mut quoted = false;
    for piece in words.split(|byte| *byte == b'`') {
        html.markup(if quoted { "<code>" } else { "" })?;
        html.text(piece)?;
        html.markup(if quoted { "</code>" } else { "" })?;
        quoted = !quoted;
    }
    Ok(())
}

/// Adds a link to a point, by its number.
pub(crate) fn push_point_link(html: &mut Html, point: u16) -> Written {
    let number = u64::from(point);
    html.tag(Tag::LinkToPoint { number })?;
    html.number(number)?;
    html.markup("</a>")
}

/// Adds a link to a line of the file, by words and its number.
pub(crate) fn push_line_link(html: &mut Html, words: &'static str, line: u32) -> Written {
    let number = u64::from(line);
    html.tag(Tag::LinkToLine { number })?;
    html.numbered(words, number)?;
    html.markup("</a>")
}
