// Calls of the outside that fail, each in its turn: a read that fails is answered with 4, and where an output fails
// the status is 5 and a part of the answer was written. Files that never fail and an output with a fixed room
// answer so too.
use crate::tests::program::{answered_failing, entries, some_files, words_of};
use crate::tests::rows::{CHECKED, REPLAYED, SUGGESTED};
use crate::tests::texts::{halves, text_is, told};
use plc_base::NoMemory;
use plc_cli::run_with_own;
use plc_outside::{FixedSink, HonestFiles};
use std::alloc::{AllocError, Global};
use std::process::Abort;

// Words, the rows that have their answer, how many reads they ask for, how many bytes an output is to take at each
// call, and one call more than it then needs.
const COMMANDS: &[(&str, &str, u64, usize, usize)] = &[
    ("check hazards", CHECKED, 1, 150, 4),
    ("verify publish certificate", VERIFIED, 2, 20, 3),
    ("replay stack reused list", REPLAYED, 2, 10, 4),
    ("suggest stack", SUGGESTED, 1, 40, 4),
    ("locate hazards claims", LOCATED, 2, 20, 3),
];

const VERIFIED: &str = "# verify publish certificate: 0
verified points 5 steps 4 obligations 0
";

const LOCATED: &str = "# locate hazards claims: 0
located claims 1 obligations 2885
";

// The status and the text that are due to words, by rows that have them as the last or only command of a row.
fn wanted<'a>(rows: &'a str, words: &str) -> &'a str {
    let (_, rest) = halves(rows, words);
    let row = rest.strip_prefix(": ").unwrap_or("");
    row.split("# ").next().unwrap_or("")
}

// What is due where an output takes so many bytes of an answer: all of it, or the bytes with status 5.
fn due(alloc: Global, answer: &str, taken: usize) -> Result<String, AllocError> {
    let (_, text) = halves(answer, "\n");
    match text.as_bytes().get(..taken) {
        Some(part) if taken < text.len() => {
            format!(in alloc; "5\n{}", str::from_utf8(part).unwrap_or("?"))
        }
        _ => String::from_str(alloc, answer),
    }
}

// The status and the text where one call of `read` fails, and one of `put`, of which each takes so many bytes; the
// calls are counted from 1.
fn answer_failing(
    alloc: Global,
    words: &str,
    read: u64,
    put: u64,
    most: usize,
) -> Result<String, AllocError> {
    let words = words_of(alloc, words)?;
    let mut files = some_files(alloc, read)?;
    answered_failing(alloc, &mut files, &words, most, put)
}

// Fails where a read fails, each in its turn, and that isn't the answer.
fn reads_are_told(rt: &impl Abort, alloc: Global, words: &str, reads: u64, most: usize) {
    for n in 0..reads {
        let text = answer_failing(alloc, words, n.wrapping_add(1), 0, most);
        text_is(rt, text, "4\nread failed\n", words);
    }
}

// Fails where a call of `put` fails after so many and the answer isn't the one that is due.
fn write_is_told(rt: &impl Abort, alloc: Global, words: &str, answer: &str, most: usize, n: usize) {
    let want = due(alloc, answer, most.wrapping_mul(n)).expect(rt, "memory");
    let text = answer_failing(alloc, words, 0, (n as u64).wrapping_add(1), most);
    text_is(rt, text, want.as_str(), words);
}

// The same where each call of `put` fails in its turn, the last of which isn't needed.
fn writes_are_told(
    rt: &impl Abort,
    alloc: Global,
    words: &str,
    answer: &str,
    most: usize,
    writes: usize,
) {
    for n in 0..writes {
        write_is_told(rt, alloc, words, answer, most, n);
    }
}

#[test]
fn each_call_of_the_outside_fails_in_turn(rt: HostRuntime) {
    for row in COMMANDS {
        let (words, rows, reads, most, writes) = *row;
        reads_are_told(&rt, rt.alloc(), words, reads, most);
        writes_are_told(&rt, rt.alloc(), words, wanted(rows, words), most, writes);
    }
}

// The status and the text in an output with so much room.
fn answered_fixed(
    alloc: Global,
    files: &mut HonestFiles,
    words: &[String],
    room: usize,
) -> Result<String, NoMemory> {
    let mut out = FixedSink::new(alloc, room)?;
    let status = run_with_own(alloc, words, files, &mut out);
    match told(alloc, status, out.written()) {
        Ok(text) => Ok(text),
        Err(AllocError) => Err(NoMemory),
    }
}

// The same over files that never fail.
fn answered_honestly(alloc: Global, words: &str, room: usize) -> Result<String, NoMemory> {
    let words = words_of(alloc, words)?;
    let mut files = HonestFiles::new(alloc, entries(alloc)?);
    answered_fixed(alloc, &mut files, &words, room)
}

// Fails where what is answered to a check with so much room isn't what is due.
fn room_is(rt: &impl Abort, alloc: Global, room: usize) {
    let want = due(alloc, wanted(CHECKED, "check hazards"), room).expect(rt, "memory");
    let text = answered_honestly(alloc, "check hazards", room);
    text_is(rt, text, want.as_str(), "check hazards");
}

#[test]
fn a_fixed_room_takes_all_or_a_part(rt: HostRuntime) {
    for room in [1000, 100, 1, 0] {
        room_is(&rt, rt.alloc(), room);
    }
    text_is(
        &rt,
        answered_honestly(rt.alloc(), "certify hazards", 10),
        "5\n{\"env\":[[[",
        "certify hazards",
    );
    text_is(
        &rt,
        answered_honestly(rt.alloc(), "check absent", 100),
        "2\nrefused syntax token 0 line 1\n",
        "check absent",
    );
}
