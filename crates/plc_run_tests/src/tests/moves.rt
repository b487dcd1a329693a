// The moves of runs with their answers: a text has a move a line, and so has its transcript.
ghost use Rattle.std.specs.Prelude.{IfOk};
ghost use Rattle.plc_flow.specs.WellFormed.{FlowFits};
ghost use Rattle.plc_run.specs.Position.{IsOfRun};

use crate::tests::texts::text_is;
use plc_auto::{Event, Observer};
use plc_base::{FieldId, Items, NoMemory, OpId};
use plc_check::Judged;
use plc_flow::Flow;
use plc_mem::Memory;
use plc_moves::{Move, Place};
use plc_run::{Config, Moved};
use plc_testing::{loaded, put};
use std::alloc::{AllocError, Global};
use std::process::Abort;

pub(crate) fn number(word: &str) -> u32 {
    word.parse::<u32>().unwrap_or(9999)
}

pub(crate) fn numbers(alloc: Global, words: &str) -> Result<Vec<u32>, AllocError> {
    let mut all = Vec::new(alloc);
    for word in words.split_whitespace() {
        all.push(number(word))?;
    }
    Ok(all)
}

// The number at a place, and 0 where there is none.
fn at(numbers: &[u32], place: usize) -> u32 {
    numbers.get(place).copied().unwrap_or(0)
}

// `start T OP ARG..`, `step T NTH ADDRESS`, `return T` and `free ADDRESS`; operations by their numbers.
fn move_of(alloc: Global, line: &str) -> Result<Move, NoMemory> {
    let (word, rest) = line.split_once(" ").unwrap_or((line, ""));
    let all = numbers(alloc, rest)?;
    let t = at(&all, 0);
    let second = (at(&all, 1) % 65536) as u16;
    match word {
        "start" => Ok(Move::Start {
            t,
            op: OpId(second),
            args: Items::from_vec(Vec::from_slice(alloc, all.get(2..).unwrap_or(&[]))?),
        }),
        "step" => Ok(Move::Step {
            t,
            nth: second,
            addr: all.get(2).copied(),
        }),
        "return" => Ok(Move::Return { t }),
        "free" => Ok(Move::Free { a: t }),
        _ => Err(NoMemory),
    }
}

fn event_text(alloc: Global, event: &Event) -> Result<String, AllocError> {
    match event {
        Event::Call { t, f, a: None } => {
            let f = f.0;
            format!(in alloc; ", {t} calls {f}")
        }
        Event::Call { t, f, a: Some(a) } => {
            let f = f.0;
            format!(in alloc; ", {t} calls {f} with {a}")
        }
        Event::Done { t, f } => {
            let f = f.0;
            format!(in alloc; ", {t} is back from {f}")
        }
        Event::Free { a } => format!(in alloc; ", {a} is freed"),
    }
}

const NEXT: FieldId = FieldId(0);

const VAL: FieldId = FieldId(1);

// Places by short names: a data field and a local of a third thread, which aren't there, then shared pointers, locals
// of two threads, and the field of two nodes.
const PLACES: &[(&str, Place)] = &[
    ("1.val", Place::Cell { a: 1, f: VAL }),
    ("s", Place::Local { t: 2, v: 0 }),
    ("Top", Place::Shared(0)),
    ("Other", Place::Shared(1)),
    ("p", Place::Local { t: 0, v: 0 }),
    ("q", Place::Local { t: 0, v: 1 }),
    ("r", Place::Local { t: 1, v: 0 }),
    ("1.next", Place::Cell { a: 1, f: NEXT }),
    ("2.next", Place::Cell { a: 2, f: NEXT }),
];

// Each place that is there with its number, after which `?` says that it is invalid; then the addresses that
// are used, and those that are retired.
pub(crate) fn places_text(alloc: Global, memory: &Memory) -> Result<String, AllocError> {
    let mut text = String::new(alloc);
    for row in PLACES {
        let (name, place) = *row;
        if let Some(number) = memory.number(&place) {
            let doubt = if memory.valid(&place) { "" } else { "?" };
            write!(text, "{name}={number}{doubt} ")?;
        }
    }
    for address in [1, 2, 3] {
        if memory.used(address) {
            write!(text, "used {address} ")?;
        }
        if memory.retired(address) {
            write!(text, "retired {address} ")?;
        }
    }
    Ok(text)
}

// An answer, a race with its kind and its primitive.
fn answer_text(alloc: Global, answer: &Moved) -> Result<String, AllocError> {
    match answer {
        Moved::Race { kind, prim } => format!(in alloc; "{kind:?} {prim}"),
        other => format!(in alloc; "{other:?}"),
    }
}

// An answer, and the events by which the history grew.
fn moved_text(alloc: Global, answer: &Moved, events: &[Event]) -> Result<String, AllocError> {
    let mut text = answer_text(alloc, answer)?;
    for event in events {
        put(&mut text, event_text(alloc, event))?;
    }
    Ok(text)
}

// Why there is no such move, after the word `why`.
fn why_text(
    alloc: Global,
    flow: &Flow,
    observer: &Observer,
    config: &Config,
    line: &str,
) -> Result<String, NoMemory>
    requires fits { FlowFits flow.now }
    requires of_run { IsOfRun flow.now observer.now config.now }
{
    let m = move_of(alloc, line)?;
    let cause = config.refusal(flow, &m);
    drop(m);
    match cause? {
        Some(cause) => Ok(format!(in alloc; "{cause:?}")?),
        None => Ok(String::from_str(alloc, "None")?),
    }
}

// One move, with its answer; or the places, where `places` stands in its stead, or after `why` the cause.
fn take_move(
    alloc: Global,
    flow: &Flow,
    observer: &Observer,
    config: &mut Config,
    line: &str,
) -> Result<String, NoMemory>
    requires fits { FlowFits flow.now }
    requires of_run { IsOfRun flow.now observer.now config.old }
    ensures { IsOfRun flow.now observer.now config.new }
{
    if line == "places" {
        return Ok(places_text(alloc, config.memory())?);
    }
    if let Some(asked) = line.strip_prefix("why ") {
        return why_text(alloc, flow, observer, config, asked);
    }
    let m = move_of(alloc, line)?;
    let before = config.history().len();
    let answer = config.step(flow, observer, &m);
    drop(m);
    let answer = answer?;
    let events = config.history().get(before..).unwrap_or(&[]);
    Ok(moved_text(alloc, &answer, events)?)
}

// The moves of a text, a line for each; what stands after an arrow is not read, but written anew.
fn take_moves(
    alloc: Global,
    flow: &Flow,
    observer: &Observer,
    config: &mut Config,
    moves: &str,
) -> Result<String, NoMemory>
    requires of_run { IsOfRun flow.now observer.now config.old }
    requires fits { FlowFits flow.now }
    ensures { IsOfRun flow.now observer.now config.new }
{
    let mut text = String::new(alloc);
    for line in moves.lines() {
        let (line, _) = line.split_once(" => ").unwrap_or((line, ""));
        let answer = take_move(alloc, flow, observer, config, line)?;
        put(&mut text, format!(in alloc; "{line} => {answer}\n"))?;
    }
    Ok(text)
}

// Takes the moves of some texts, whose answers nobody reads.
pub(crate) fn take_all(
    alloc: Global,
    flow: &Flow,
    observer: &Observer,
    config: &mut Config,
    texts: &[&str],
) -> Result<(), NoMemory>
    requires of_run { IsOfRun flow.now observer.now config.old }
    requires fits { FlowFits flow.now }
    ensures { IsOfRun flow.now observer.now config.new }
{
    for moves in texts {
        drop(take_moves(alloc, flow, observer, config, moves)?);
    }
    Ok(())
}

// The configuration of two threads that a run starts in.
pub(crate) fn started(alloc: Global, flow: &Flow, observer: &Observer) -> Result<Config, NoMemory>
    requires fits { FlowFits flow.now }
    ensures { IfOk result (λ config. IsOfRun flow.now observer.now config) }
{
    match Config::start(alloc, flow, observer, 2) {
        Ok(config) => Ok(config),
        Err(_) => Err(NoMemory),
    }
}

// The answers of moves after other moves.
fn answers_after(
    alloc: Global,
    judged: &Judged,
    config: &mut Config,
    before: &[&str],
    moves: &str,
) -> Result<String, NoMemory>
    requires fits { FlowFits judged.now.flow }
    requires of_run { IsOfRun judged.now.flow judged.now.observer config.old }
{
    take_all(alloc, &judged.flow, &judged.observer, config, before)?;
    take_moves(alloc, &judged.flow, &judged.observer, config, moves)
}

fn run_text(
    alloc: Global,
    judged: &Judged,
    before: &[&str],
    moves: &str,
) -> Result<String, NoMemory>
    requires { FlowFits judged.now.flow }
{
    let mut config = started(alloc, &judged.flow, &judged.observer)?;
    let answers = answers_after(alloc, judged, &mut config, before, moves);
    drop(config);
    answers
}

pub(crate) fn ran(
    alloc: Global,
    file: &str,
    before: &[&str],
    moves: &str,
) -> Result<String, NoMemory> {
    let judged = loaded(alloc, file)?;
    let answers = run_text(alloc, &judged, before, moves);
    drop(judged);
    answers
}

// A stack whose readers protect their nodes by hazard pointers.
const STACK: &str =
    "struct Node { ptr next; } shared Top; call protect(ptr); use hazard(protect); op put(v) { ptr n; n := new; \
     Top := n; } op take() { ptr t; t := Top; Top := null; retire(t); } op look() { ptr t; t := Top; protect(t); \
     t ?= Top; } op swap() { ptr n; atomic { n := Top; assume n != Top; Top := n; } }";

// Moves with their answers, from the beginning.
const MOVES: &str = "# start 0 0 7 => Done
start 0 0 7 => Blocked
start 1 4 => Blocked
start 1 0 => Blocked
start 1 0 7 7 => Blocked
start 2 0 7 => Blocked
start 1 1 => Done
places => Top=0 p=0 r=0 
# step 0 0 => Blocked
start 0 0 7 => Done
step 0 0 => Blocked
step 0 0 0 => Blocked
step 0 1 2 => Blocked
step 0 0 2 => Done
step 0 0 3 => Blocked
step 0 0 => Done
return 0 => Blocked
step 0 0 => Done
return 0 => Done
return 0 => Blocked
places => Top=2 2.next=0 used 2 
# free 0 => Blocked
free 1 => Forbidden { a: 1 }
start 0 0 7 => Done
step 0 0 1 => Done
free 1 => Forbidden { a: 1 }
places => Top=0 p=1 1.next=0 used 1 
";

// Why moves are blocked, or not, where nothing happens of the asking.
const WHYS: &str = "# why start 0 0 7 => None
why start 2 0 7 => NoThread
why start 0 4 => NoOperation
why start 0 0 => Arguments
why step 0 0 => Idle
why step 2 0 => NoThread
why return 0 => Idle
why free 0 => Null
why free 1 => None
start 0 0 7 => Done
why start 0 0 7 => Busy
why step 0 0 => NoAddress
why step 0 1 2 => NoStep
why step 0 0 2 => None
why return 0 => NotAtExit
step 0 0 2 => Done
why step 0 0 3 => NotAllocating
step 0 0 => Done
step 0 0 => Done
why return 0 => None
# start 0 3 => Done
why step 0 0 => Blocked { prim: 1 }
places => Top=0 p=0 
";

// Moves from the beginning by which a thread puts a node.
const PUT: &str = "start 0 0 7 => Done
step 0 0 1 => Done
step 0 0 => Done
step 0 0 => Done
return 0 => Done
";

// Moves after those to the free of the node, which two threads have taken and of which one has retired it.
const FREED: &str = "start 0 1 => Done
start 1 1 => Done
step 0 0 => Done
step 1 0 => Done
step 0 0 => Done
step 1 0 => Done
step 0 0 => Done, 0 calls 0 with 1
free 1 => Done, 1 is freed
";

// Moves after those: the other thread retires the node, which is a race.
const RACED: &str = "# step 1 0 => Pass 0
step 0 0 => Blocked
free 1 => Blocked
places => Top=0 p=1? r=1? 
# why step 1 0 => None
step 1 0 => Pass 0
why step 0 0 => Ended
why free 0 => Ended
";

// Moves after the put to the call by which a reader protects the node of `Top`.
const PROTECT: &str = "start 1 2 => Done
step 1 0 => Done
step 1 0 => Done, 1 calls 1 with 1
";

// Moves after those: the node is retired before the call returns, or after the pointer is valid for sure.
const PROTECTED: &str = "# start 0 1 => Done
step 0 0 => Done
step 0 0 => Done
step 0 0 => Done, 0 calls 0 with 1
free 1 => Done, 1 is freed
step 1 0 => Done, 1 is back from 1
step 1 0 => Blocked
start 0 2 => Blocked
places => Top=0 p=1? r=1? 
# step 1 0 => Done, 1 is back from 1
step 1 0 => Done
start 0 1 => Done
step 0 0 => Done
step 0 0 => Done
step 0 0 => Done, 0 calls 0 with 1
free 1 => Forbidden { a: 1 }
places => Top=0 p=1 r=1 1.next=0 used 1 retired 1 
";

// Fails a test where moves of the stack after two texts of other moves have other answers.
fn rows_are_answered(
    rt: &impl Abort,
    alloc: Global,
    before: &[&str],
    rows: &str,
) -> Result<(), NoMemory> {
    for row in rows.split("# ") {
        text_is(rt, ran(alloc, STACK, before, row), row)?;
    }
    Ok(())
}

#[test]
fn moves_have_their_answers(rt: HostRuntime) -> Result<(), NoMemory> {
    for (first, second, rows) in [
        ("", "", MOVES),
        ("", "", WHYS),
        ("", "", PUT),
        (PUT, "", FREED),
        (PUT, FREED, RACED),
        (PUT, "", PROTECT),
        (PUT, PROTECT, PROTECTED),
    ] {
        rows_are_answered(&rt, rt.alloc(), &[first, second], rows)?;
    }
    Ok(())
}
