// Replays under each reclaimer of the program, under two of one name and under none. What a reclaimer picks is pinned
// by its row; these are whole answers of replays, of which no contract says that there is memory for them.
ghost use Rattle.std.specs.Prelude.{codes};

use crate::tests::files::{Entries, PUT, PUT_AND_TAKE, TAKE, put, put_pieces, put_sections};
use crate::tests::program::{answer, rows_are, words_of};
use crate::tests::texts::{text_is, told};
use plc_auto::{Event, Scheme};
use plc_base::NoMemory;
use plc_cli::{ByList, Leak, MemFiles, Reclaimer, VecSink, run};
use std::alloc::{AllocError, Global};
use std::process::Abort;

// `hold`: a hazard pointer, taken and given up again. `stay`: an epoch, entered and left.
const FILES: &str = "# hazards
struct Node { ptr next; }
shared Top;
call protect(ptr);
use hazard(protect);
op put() { ptr n; n := new; Top := n; }
op take() { ptr t; t := Top; Top := null; retire(t); }
op hold() { ptr t; t := Top; protect(t); protect(null); }
# epochs
struct Node { ptr next; }
shared Top;
call enter();
call leave();
use epoch(enter, leave);
op put() { ptr n; n := new; Top := n; }
op take() { ptr t; t := Top; Top := null; retire(t); }
op stay() { enter(); leave(); }
# plain
struct Node { ptr next; }
shared Top;
op put() { ptr n; n := new; Top := n; }
op take() { ptr t; t := Top; Top := null; retire(t); }
";

const SCHEDULES: &[(&str, &[&str])] = &[
    (
        "held",
        &[
            PUT,
            "start 0 hold\nstep 0 0\nstep 0 0\nstep 0 0\n",
            TAKE,
            "step 0 0\ntick\n",
        ],
    ),
    (
        "pending",
        &[PUT, "start 0 hold\nstep 0 0\nstep 0 0\n", TAKE],
    ),
    (
        "inside",
        &[
            PUT,
            "start 0 stay\nstep 0 0\nstep 0 0\n",
            TAKE,
            "step 0 0\ntick\n",
        ],
    ),
    ("alone", &["threads 1\n", PUT_AND_TAKE, "tick\ntick\n"]),
];

// What is protected or in use waits for its thread, under the reclaimer that serves the file's scheme; one
// that serves another scheme picks as `list` does, and so does each where the file has none.
const ROWS: &str = "# replay hazards held hazard: 0
end lines 17 events 5 freed 1
# replay hazards held leak: 0
end lines 17 events 4 freed 0
# replay hazards held list: 1
forbidden free 1 line 15
# replay hazards held epoch: 1
forbidden free 1 line 15
# replay hazards pending hazard: 0
end lines 14 events 3 freed 1
# replay epochs inside epoch: 0
end lines 16 events 5 freed 1
# replay epochs inside list: 1
forbidden free 1 line 14
# replay epochs inside hazard: 1
forbidden free 1 line 14
# replay plain alone hazard: 0
end lines 12 events 2 freed 1
# replay plain alone epoch: 0
end lines 12 events 2 freed 1
";

fn entries(alloc: Global) -> Result<Entries, AllocError> {
    let mut files = Vec::new(alloc);
    put_sections(alloc, &mut files, FILES)?;
    put_pieces(alloc, &mut files, SCHEDULES)?;
    Ok(files)
}

fn some_files(alloc: Global) -> Result<MemFiles, AllocError> {
    Ok(MemFiles::new(alloc, entries(alloc)?, Vec::new(alloc)))
}

fn answers_are(rt: &impl Abort, alloc: Global, rows: &str) {
    let mut files = some_files(alloc).expect(rt, "memory");
    rows_are(rt, alloc, &mut files, rows);
}

#[test]
fn each_replay_has_its_end(rt: HostRuntime) {
    answers_are(&rt, rt.alloc(), ROWS);
}

// The number that is drawn after another.
pub(crate) fn drawn_after(number: u32) -> u32 {
    number.wrapping_mul(1_664_525).wrapping_add(1_013_904_223)
}

// The next line of a thread that puts a node at an address and takes it, in twelve lines.
fn writer_line(alloc: Global, at: u32, address: u32) -> Result<String, AllocError> {
    match at {
        0 => String::from_str(alloc, "start 0 put\n"),
        1 => format!(in alloc; "step 0 0 {address}\n"),
        4 | 11 => String::from_str(alloc, "return 0\n"),
        5 => String::from_str(alloc, "start 0 take\n"),
        _ => String::from_str(alloc, "step 0 0\n"),
    }
}

// The next line of a thread that reads. What it reads it hands on at once, while the node is there.
fn reader_line(
    alloc: Global,
    thread: u32,
    at: u32,
    op: &str,
    last: u32,
) -> Result<String, AllocError> {
    if at == 0 {
        format!(in alloc; "start {thread} {op}\nstep {thread} 0\nstep {thread} 0\n")
    } else if at == last {
        format!(in alloc; "return {thread}\n")
    } else {
        format!(in alloc; "step {thread} 0\n")
    }
}

fn next_of(at: u32, last: u32) -> u32 {
    if at == last { 0 } else { at.wrapping_add(1) }
}

// A drawn schedule under way: the number that decides the next move, the address of the next node, and how far each
// thread is.
#[derive(Clone, Copy)]
struct Turns {
    number: u32,
    address: u32,
    writer: u32,
    first: u32,
    second: u32,
}

// The next move: a thread puts and takes nodes, two others read, and the reclaimer is asked now and then.
fn next_line(alloc: Global, turns: Turns, op: &str, last: u32) -> Result<String, AllocError> {
    match turns.number / 536_870_912 {
        0 | 1 => String::from_str(alloc, "tick\n"),
        2 => reader_line(alloc, 1, turns.first, op, last),
        3 => reader_line(alloc, 2, turns.second, op, last),
        _ => writer_line(alloc, turns.writer, turns.address),
    }
}

// Where that move leads.
fn next_turns(turns: Turns, last: u32) -> Turns {
    let mut next = turns;
    match turns.number / 536_870_912 {
        0 | 1 => {}
        2 => next.first = next_of(turns.first, last),
        3 => next.second = next_of(turns.second, last),
        _ => {
            next.writer = next_of(turns.writer, 11);
            if next.writer == 0 {
                next.address = turns.address.wrapping_add(1);
            }
        }
    }
    next.number = drawn_after(turns.number);
    next
}

fn push_line(
    alloc: Global,
    text: &mut String,
    turns: Turns,
    op: &str,
    last: u32,
) -> Result<(), AllocError> {
    let line = next_line(alloc, turns, op, last)?;
    text.push_str(line.as_str())
}

// Three hundred moves in an order that a number draws.
fn push_moves(
    alloc: Global,
    text: &mut String,
    op: &str,
    last: u32,
    seed: u32,
) -> Result<(), AllocError> {
    let mut turns = Turns {
        number: drawn_after(seed),
        address: 1,
        writer: 0,
        first: 0,
        second: 0,
    };
    for _ in 0..300 {
        push_line(alloc, text, turns, op, last)?;
        turns = next_turns(turns, last);
    }
    Ok(())
}

fn drawn_schedule(alloc: Global, op: &str, last: u32, seed: u32) -> Result<Vec<u8>, AllocError> {
    let mut text = String::from_str(alloc, "threads 3\n")?;
    push_moves(alloc, &mut text, op, last, seed)?;
    Ok(text.into_bytes())
}

fn put_drawn(
    alloc: Global,
    files: &mut Entries,
    op: &str,
    last: u32,
    seed: u32,
) -> Result<(), AllocError> {
    let schedule = drawn_schedule(alloc, op, last, seed)?;
    put(alloc, files, "drawn", schedule)
}

fn drawn_files(alloc: Global, op: &str, last: u32, seed: u32) -> Result<MemFiles, AllocError> {
    let mut files = entries(alloc)?;
    put_drawn(alloc, &mut files, op, last, seed)?;
    Ok(MemFiles::new(alloc, files, Vec::new(alloc)))
}

// The answer to a replay of a drawn schedule.
fn drawn_answer(
    alloc: Global,
    words: &str,
    op: &str,
    last: u32,
    seed: u32,
) -> Result<String, AllocError> {
    let mut files = drawn_files(alloc, op, last, seed)?;
    answer(alloc, &mut files, words)
}

// A replay of a file with its operation that reads, how many lines that has, and whether it may end in a
// free that is forbidden: not under the reclaimer that serves the file's scheme, and not where none is freed.
const DRAWN: &[(&str, &str, u32, bool)] = &[
    ("replay hazards drawn leak", "hold", 5, false),
    ("replay hazards drawn list", "hold", 5, true),
    ("replay hazards drawn hazard", "hold", 5, false),
    ("replay hazards drawn epoch", "hold", 5, true),
    ("replay epochs drawn leak", "stay", 4, false),
    ("replay epochs drawn list", "stay", 4, true),
    ("replay epochs drawn hazard", "stay", 4, true),
    ("replay epochs drawn epoch", "stay", 4, false),
];

// Whether a replay has an end that it may have.
fn may_end_so(answer: &str, may_be_forbidden: bool) -> bool {
    let ended = answer.starts_with("0\nend lines ");
    let forbidden = answer.starts_with("1\nforbidden free ");
    ended || may_be_forbidden && forbidden
}

// Fails where the replay of a schedule that a number draws has another end.
fn drawn_ends_so(rt: &impl Abort, alloc: Global, row: (&str, &str, u32, bool), seed: u32) {
    let (words, op, last, may_be_forbidden) = row;
    let answer = drawn_answer(alloc, words, op, last, seed).expect(rt, "memory");
    let ends_so = may_end_so(answer.as_str(), may_be_forbidden);
    assert!(rt; ends_so, "{words}, {seed}: {answer}");
}

fn all_drawn_end_so(rt: &impl Abort, alloc: Global, seed: u32) {
    for row in DRAWN {
        drawn_ends_so(rt, alloc, *row, seed);
    }
}

#[test]
fn a_drawn_schedule_ends_in_no_forbidden_free(rt: HostRuntime) {
    for seed in [1, 2, 3, 5, 8] {
        all_drawn_end_so(&rt, rt.alloc(), seed);
    }
}

// Frees nothing, as `leak` does, under the name of another.
#[derive(Drop)]
struct Namesake {
    leak: Leak,
}

impl Reclaimer for Namesake {
    ghost held = { λ b. ⟦<Leak as Reclaimer>⟧.held b.leak };

    ghost meanings = { λ b. ⟦<Leak as Reclaimer>⟧.meanings b.leak };

    ghost named = { λ _. codes "list" };

    fn name(&self) -> &str {
        "list"
    }

    fn begin(&mut self, schemes: &[Scheme]) -> Result<(), NoMemory> {
        self.leak.begin(schemes)
    }

    fn event(&mut self, e: Event) -> Result<(), NoMemory> {
        self.leak.event(e)
    }

    fn pick(&mut self) -> Option<u32> {
        self.leak.pick()
    }
}

type Reclaimers = Vec<Box<dyn Reclaimer>>;

fn push_namesake(alloc: Global, reclaimers: &mut Reclaimers) -> Result<(), AllocError> {
    let leak = Leak::new(alloc);
    reclaimers.push(Box::new(alloc, Namesake { leak })?)?;
    Ok(())
}

fn push_list(alloc: Global, reclaimers: &mut Reclaimers) -> Result<(), AllocError> {
    reclaimers.push(Box::new(alloc, ByList::new(alloc))?)?;
    Ok(())
}

fn push_named(alloc: Global, reclaimers: &mut Reclaimers, name: &str) -> Result<(), AllocError> {
    if name == "list" {
        push_list(alloc, reclaimers)
    } else {
        push_namesake(alloc, reclaimers)
    }
}

fn push_all(alloc: Global, reclaimers: &mut Reclaimers, names: &str) -> Result<(), AllocError> {
    for name in names.split_whitespace() {
        push_named(alloc, reclaimers, name)?;
    }
    Ok(())
}

// The reclaimers of these names, in their order: `list`, or a namesake of it.
fn reclaimers_of(alloc: Global, names: &str) -> Result<Reclaimers, AllocError> {
    let mut reclaimers = Vec::new(alloc);
    push_all(alloc, &mut reclaimers, names)?;
    Ok(reclaimers)
}

// The status and then the text, where these reclaimers are handed in.
fn answered_under(
    alloc: Global,
    files: &mut MemFiles,
    words: &[String],
    reclaimers: Reclaimers,
) -> Result<String, AllocError> {
    let mut out = VecSink::new(alloc);
    let status = run(alloc, words, files, &mut out, reclaimers);
    told(alloc, status, out.written())
}

// The same under those of these names.
fn answered_under_all(
    alloc: Global,
    files: &mut MemFiles,
    words: &[String],
    names: &str,
) -> Result<String, AllocError> {
    let reclaimers = reclaimers_of(alloc, names)?;
    answered_under(alloc, files, words, reclaimers)
}

fn answer_under_all(alloc: Global, names: &str) -> Result<String, AllocError> {
    let words = words_of(alloc, "replay hazards held list")?;
    let mut files = some_files(alloc)?;
    answered_under_all(alloc, &mut files, &words, names)
}

#[test]
fn the_first_reclaimer_of_a_name_counts(rt: HostRuntime) {
    for row in &[
        ("list namesake", "1\nforbidden free 1 line 15\n"),
        ("namesake list", "0\nend lines 17 events 4 freed 0\n"),
        ("", "3\nwords refused\n"),
    ] {
        let (names, want) = *row;
        text_is(&rt, answer_under_all(rt.alloc(), names), want, want);
    }
}
