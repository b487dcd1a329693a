// Whole answers of the program over files in memory. That there is memory for an answer, and which bytes an
// output is handed, is what no contract can say. `files.rt` has the files, and `rows.rt` the rows of answers.
use crate::tests::files::{Entries, FILES, Listed, STACKS, files_of, put_all, text_of};
use crate::tests::rows::{CERTIFIED, CHECKED, OUTLINED, PRINTED, REPLAYED, SUGGESTED, UNLISTED};
use crate::tests::texts::{first_of, halves, on_one_line, text_is, text_under, told};
use plc_cli::{FailSink, MemFiles, VecSink, run_with_own};
use std::alloc::{AllocError, Global};
use std::process::Abort;

pub(crate) fn entries(alloc: Global) -> Result<Entries, AllocError> {
    let mut files = Vec::new(alloc);
    put_all(alloc, &mut files)?;
    Ok(files)
}

// The files, where this call of `read` fails; the calls are counted from 1.
pub(crate) fn some_files(alloc: Global, failing: u64) -> Result<MemFiles, AllocError> {
    let failing = vec![in alloc; failing]?;
    Ok(MemFiles::new(alloc, entries(alloc)?, failing))
}

fn push_words(alloc: Global, list: &mut Vec<String>, words: &str) -> Result<(), AllocError> {
    for word in words.split(" ") {
        list.push(String::from_str(alloc, word)?)?;
    }
    Ok(())
}

pub(crate) fn words_of(alloc: Global, words: &str) -> Result<Vec<String>, AllocError> {
    let mut list = Vec::new(alloc);
    if !words.is_empty() {
        push_words(alloc, &mut list, words)?;
    }
    Ok(list)
}

// The status and then the text, in an output that never fails.
fn answered(alloc: Global, files: &mut MemFiles, words: &[String]) -> Result<String, AllocError> {
    let mut out = VecSink::new(alloc);
    let status = run_with_own(alloc, words, files, &mut out);
    told(alloc, status, out.written())
}

// The same, in an output that takes so many bytes at a call and fails at one; the calls are counted from 1.
pub(crate) fn answered_failing(
    alloc: Global,
    files: &mut MemFiles,
    words: &[String],
    most: usize,
    failing: u64,
) -> Result<String, AllocError> {
    let mut out = FailSink::new(alloc, most, vec![in alloc; failing]?);
    let status = run_with_own(alloc, words, files, &mut out);
    told(alloc, status, out.written())
}

pub(crate) fn answer(
    alloc: Global,
    files: &mut MemFiles,
    words: &str,
) -> Result<String, AllocError> {
    let words = words_of(alloc, words)?;
    answered(alloc, files, &words)
}

// The answer over these files.
pub(crate) fn answer_over(
    alloc: Global,
    list: Listed<'_>,
    words: &str,
) -> Result<String, AllocError> {
    let mut files = files_of(alloc, list)?;
    answer(alloc, &mut files, words)
}

// The text of that answer where it has this status, and no text where it has another one.
pub(crate) fn text_over(
    alloc: Global,
    list: Listed<'_>,
    words: &str,
    status: &str,
) -> Result<String, AllocError> {
    let answer = answer_over(alloc, list, words)?;
    text_under(alloc, status, answer.as_str())
}

// How much of an answer a row tells: all of it, or the status and the first line.
#[derive(Clone, Copy)]
pub(crate) enum Part {
    Whole,
    Head,
}

fn part_text(alloc: Global, part: Part, answer: &str) -> Result<String, AllocError> {
    match part {
        Part::Whole => String::from_str(alloc, answer),
        Part::Head => first_of(alloc, answer),
    }
}

fn part_of_answer(
    alloc: Global,
    part: Part,
    files: &mut MemFiles,
    words: &str,
) -> Result<String, AllocError> {
    let answer = answer(alloc, files, words)?;
    part_text(alloc, part, answer.as_str())
}

// Fails where what is answered to one of these commands, which commas part, isn't this.
pub(crate) fn answers_are(
    rt: &impl Abort,
    alloc: Global,
    files: &mut MemFiles,
    commands: &str,
    part: Part,
    want: &str,
) {
    for words in commands.split(", ") {
        text_is(rt, part_of_answer(alloc, part, files, words), want, words);
    }
}

// The same of rows; a row is its commands, their status and their text.
pub(crate) fn rows_are(rt: &impl Abort, alloc: Global, files: &mut MemFiles, rows: &str) {
    for row in rows.split("# ") {
        if let Some((commands, want)) = row.split_once(": ") {
            answers_are(rt, alloc, files, commands, Part::Whole, want);
        }
    }
}

// The same over all files.
fn all_files_are(rt: &impl Abort, alloc: Global, rows: &str, failing: u64) {
    let mut files = some_files(alloc, failing).expect(rt, "memory");
    rows_are(rt, alloc, &mut files, rows);
}

#[test]
fn each_row_has_its_answer(rt: HostRuntime) {
    for rows in [CHECKED, PRINTED, REPLAYED, CERTIFIED, SUGGESTED] {
        all_files_are(&rt, rt.alloc(), rows, 0);
    }
    all_files_are(&rt, rt.alloc(), UNLISTED, 1);
}

// The first call of `read` fails: none came before, and the next one is answered.
const UNREAD: &str = "# : 3
words refused
# check  publish: 3
words refused
# check publish: 4
read failed
# print least: 0
struct N {
}
";

#[test]
fn other_words_are_refused_unread(rt: HostRuntime) {
    all_files_are(&rt, rt.alloc(), UNREAD, 1);
}

// What is answered to `check lost` and written into a sink that takes so many bytes and fails at a call.
fn taken(alloc: Global, most: usize, failing: u64) -> Result<String, AllocError> {
    let words = words_of(alloc, "check lost")?;
    let mut files = some_files(alloc, 0)?;
    answered_failing(alloc, &mut files, &words, most, failing)
}

fn taken_on_one_line(alloc: Global, most: usize, failing: u64) -> Result<String, AllocError> {
    let answer = taken(alloc, most, failing)?;
    on_one_line(alloc, answer.as_str())
}

#[test]
fn an_output_takes_all_or_a_part(rt: HostRuntime) {
    for row in &[
        (1, 0, "1 untyped step 3 prim 0 line 8 deref m\n"),
        (1, 2, "5 u"),
        (3, 2, "5 unt"),
        (99, 1, "5 "),
        (0, 0, "5 "),
    ] {
        let (most, failing, want) = *row;
        text_is(
            &rt,
            taken_on_one_line(rt.alloc(), most, failing),
            want,
            want,
        );
    }
}

// What is printed of a text, below the status.
fn printed(alloc: Global, text: &str) -> Result<String, AllocError> {
    answer_over(alloc, &[("file", text.as_bytes())], "print file")
}

// Fails where what is printed of a text, if it is printed at all, isn't printed the same.
fn is_printed_once(rt: &impl Abort, alloc: Global, name: &str, file: &str) {
    let once = printed(alloc, file).expect(rt, "memory");
    if let Some(text) = once.as_str().strip_prefix("0\n") {
        text_is(rt, printed(alloc, text), once.as_str(), name);
    }
}

fn is_stack_printed_once(rt: &impl Abort, alloc: Global, name: &str) {
    let file = text_of(alloc, name).expect(rt, "memory");
    is_printed_once(rt, alloc, name, file.as_str());
}

#[test]
fn a_print_is_printed_the_same(rt: HostRuntime) {
    for section in FILES.split("# ") {
        let (name, file) = halves(section, "\n");
        is_printed_once(&rt, rt.alloc(), name, file);
    }
    for name in STACKS {
        is_stack_printed_once(&rt, rt.alloc(), *name);
    }
}

#[test]
fn what_is_spelled_as_printed_stays(rt: HostRuntime) {
    let text = text_over(
        rt.alloc(),
        &[("file", OUTLINED.as_bytes())],
        "print file",
        "0\n",
    );
    text_is(&rt, text, OUTLINED, "outlined");
}
