// Claims of locations beside drawn runs: where the program says that a claim is true, the observer stands in one of its
// locations in each state in which a thread is at the label and its pointer isn't null; where it says that it can't be
// shown, some states are drawn in which it is false. Where threads stand is followed here, and where the observer
// stands is read from the whole history, event by event.
ghost use Rattle.plc_flow.specs.WellFormed.{FlowFits};
ghost use Rattle.plc_run.specs.Position.{IsOfRun};

use crate::tests::locations::{answer, file_text};
use crate::tests::reclaimers::drawn_after;
use crate::tests::texts::text_is;
use plc_auto::{Event, Observer};
use plc_base::{Items, LocId, NoMemory, OpId};
use plc_check::Judged;
use plc_flow::{Flow, Point, names_rightly};
use plc_lang::count_parameters;
use plc_moves::{Move, Place, arrival, at_exit, begun, point_at, step_at};
use plc_run::{Config, Moved};
use plc_testing::loaded;
use std::alloc::{AllocError, Global};

const THREADS: u32 = 3;

// How many moves are drawn in a run. Some of them don't come about.
const MOVES: u32 = 1500;

// A claim: the number of its label, that of its pointer local, and those of its locations.
#[derive(Clone, Copy)]
struct Claim {
    label: u16,
    local: u16,
    locations: &'static [u16],
}

// In how many states, counted by threads, a pointer that isn't null was seen at a label, and how many of them a claim
// denies.
#[derive(Clone, Copy)]
struct Seen {
    all: u32,
    denied: u32,
}

const NONE_SEEN: Seen = Seen { all: 0, denied: 0 };

fn both(a: Seen, b: Seen) -> Seen {
    Seen {
        all: a.all.wrapping_add(b.all),
        denied: a.denied.wrapping_add(b.denied),
    }
}

// A location that no observer has.
const BAD: LocId = LocId(99);

// Where the observer stands after an event, for a thread and an address.
fn location_after(observer: &Observer, at: LocId, e: &Event, t: u32, a: u32) -> LocId {
    if at.0 >= observer.count() {
        return at;
    }
    let own = match e.thread() {
        Some(other) => other == t,
        None => false,
    };
    observer
        .step(at, e.kind(), own, e.address() == a)
        .unwrap_or(BAD)
}

// Where it stands after a history.
fn location(observer: &Observer, history: &[Event], t: u32, a: u32) -> LocId {
    let mut at = LocId(0);
    for e in history {
        at = location_after(observer, at, e, t, a);
    }
    at
}

// Whether a thread is at a label.
fn is_at(flow: &Flow, points: &[Option<Point>], t: u32, label: u16) -> bool {
    let Some(point) = point_at(points, t) else {
        return false;
    };
    match flow.labels.get(label as usize) {
        Some(labelled) => point.at == labelled.0,
        None => false,
    }
}

// What a claim says of one thread.
fn seen_by(
    flow: &Flow,
    observer: &Observer,
    config: &Config,
    points: &[Option<Point>],
    claim: Claim,
    t: u32,
) -> Seen {
    if !is_at(flow, points, t, claim.label) {
        return NONE_SEEN;
    }
    let place = Place::Local { t, v: claim.local };
    let a = config.memory().number(&place).unwrap_or(0);
    if a == 0 {
        return NONE_SEEN;
    }
    let at = location(observer, config.history(), t, a);
    let is_denied = !claim.locations.contains(&at.0);
    Seen {
        all: 1,
        denied: u32::from(is_denied),
    }
}

// What it says of all threads.
fn seen_by_all(
    flow: &Flow,
    observer: &Observer,
    config: &Config,
    points: &[Option<Point>],
    claim: Claim,
) -> Seen {
    let mut sum = NONE_SEEN;
    for t in 0..THREADS {
        sum = both(sum, seen_by(flow, observer, config, points, claim, t));
    }
    sum
}

// Where a move leaves its thread, if that is busy then.
fn led(flow: &Flow, points: &[Option<Point>], m: &Move) -> Option<Point> {
    match m {
        Move::Start { t, op, args } => {
            let (_, entry) = begun(flow, points, *t, *op, args.as_slice())?;
            Some(entry)
        }
        Move::Step { t, nth, .. } => {
            let (point, step) = step_at(flow, points, *t, *nth)?;
            Some(arrival(point, step))
        }
        Move::Return { .. } | Move::Free { .. } => None,
    }
}

// The thread of a move; no thread frees.
fn thread_of(m: &Move) -> u32 {
    match m {
        Move::Start { t, .. } | Move::Step { t, .. } | Move::Return { t } => *t,
        Move::Free { .. } => THREADS,
    }
}

// Takes a move, and notes where it leaves its thread.
fn take(
    flow: &Flow,
    observer: &Observer,
    config: &mut Config,
    points: &mut Vec<Option<Point>>,
    m: &Move,
) -> Result<(), NoMemory>
    requires fits { FlowFits flow.now }
    requires of_run { IsOfRun flow.now observer.now config.old }
    ensures { IsOfRun flow.now observer.now config.new }
{
    let to = led(flow, points, m);
    let t = thread_of(m) as usize;
    if config.step(flow, observer, m)? == Moved::Done && t < points.len() {
        points[t] = to;
    }
    Ok(())
}

// A start: the first thread takes the first operation, which puts a node, and the others the last, which takes one, so
// that neither room nor nodes run out for good. All parameters are 5.
fn start(alloc: Global, flow: &Flow, t: u32) -> Result<Move, AllocError> {
    let ops = flow.file.ops.as_slice();
    let op = if t == 0 {
        0
    } else {
        ops.len().saturating_sub(1)
    };
    let mut args = Vec::new(alloc);
    if let Some(operation) = ops.get(op) {
        for _ in 0..count_parameters(operation) {
            args.push(5)?;
        }
    }
    Ok(Move::Start {
        t,
        op: OpId((op % 65_536) as u16),
        args: Items::from_vec(args),
    })
}

// A step that a number draws: the second one where there is one, or the first.
fn drawn_step(flow: &Flow, points: &[Option<Point>], t: u32, number: u32) -> Move {
    let mut nth = (number % 2) as u16;
    if step_at(flow, points, t, nth).is_none() {
        nth = 0;
    }
    let names = match step_at(flow, points, t, nth) {
        Some((_, step)) => !names_rightly(step, None),
        None => false,
    };
    let addr = if names {
        Some(1 + number / 2 % 3)
    } else {
        None
    };
    Move::Step { t, nth, addr }
}

// A move that a number draws: now and then a free, else one that is a thread's turn.
fn drawn_move(
    alloc: Global,
    flow: &Flow,
    points: &[Option<Point>],
    number: u32,
) -> Result<Move, AllocError> {
    let t = number % THREADS;
    let rest = number / 24;
    if number / 3 % 8 == 0 {
        return Ok(Move::Free { a: 1 + rest % 3 });
    }
    if point_at(points, t).is_none() {
        return start(alloc, flow, t);
    }
    if at_exit(flow, points, t) {
        return Ok(Move::Return { t });
    }
    Ok(drawn_step(flow, points, t, rest))
}

// Takes drawn moves, and looks at each state.
fn look(
    alloc: Global,
    flow: &Flow,
    observer: &Observer,
    config: &mut Config,
    claim: Claim,
    seed: u32,
) -> Result<Seen, NoMemory>
    requires of_run { IsOfRun flow.now observer.now config.old }
    requires fits { FlowFits flow.now }
{
    let mut points = vec![in alloc; None, None, None]?;
    let mut sum = NONE_SEEN;
    let mut number = seed;
    for _round in 0..MOVES {
        number = drawn_after(number);
        let m = drawn_move(alloc, flow, &points, number / 65_536)?;
        take(flow, observer, config, &mut points, &m)?;
        sum = both(sum, seen_by_all(flow, observer, config, &points, claim));
    }
    Ok(sum)
}

fn look_in(alloc: Global, judged: &Judged, claim: Claim, seed: u32) -> Result<Seen, NoMemory>
    requires { FlowFits judged.now.flow }
{
    match Config::start(alloc, &judged.flow, &judged.observer, THREADS) {
        Ok(mut config) => {
            let seen = look(
                alloc,
                &judged.flow,
                &judged.observer,
                &mut config,
                claim,
                seed,
            );
            drop(config);
            seen
        }
        Err(_) => Err(NoMemory),
    }
}

fn look_at(alloc: Global, file: &str, claim: Claim, seed: u32) -> Result<Seen, NoMemory> {
    let judged = loaded(alloc, file)?;
    let seen = look_in(alloc, &judged, claim, seed);
    drop(judged);
    seen
}

// A mailbox of one message under the plain observer.
const MAILBOX: &str = "struct Message { data val; } shared Box;
ghost st { made, sent, taken }; ghost owner thread;
op send(v) { ptr n; atomic { n := new; ghost n.owner := me; } n.val := v;
loop { choose { atomic { assume Box == null; Box := n; ghost n.st := sent; n := null; } return; } or { } } }
op receive() { ptr t; data x; choose {
atomic { t := Box; assume t != null; Box := null; ghost t.st := taken; ghost t.owner := me; }
label got; atomic { active t; x := t.val; } label seen; retire(active t); label gone; } or { } }
outline { inv Box == null or Box.st == sent; inv all x: x.st != sent or not retired(x);
over send: n == null or n.st == made; over send: n == null or n.owner == me; over send: n == null or not retired(n);
at got, seen: t == null or t.st == taken; at got, seen: t.owner == me; at got, seen: not retired(t); }
";

fn text_of(alloc: Global, name: &str) -> Result<String, AllocError> {
    match name {
        "mailbox" => String::from_str(alloc, MAILBOX),
        _ => file_text(alloc, name),
    }
}

// Whether the program says that a claim is true, whether there were states to look at, and whether it denies some.
fn looked_at(alloc: Global, name: &str, text: &str, claim: Claim) -> Result<String, NoMemory> {
    let file = text_of(alloc, name)?;
    let answer = answer(alloc, file.as_str(), text)?;
    let located = answer.as_str().starts_with("0 located claims 1 ");
    let mut sum = NONE_SEEN;
    for seed in 1..20 {
        sum = both(sum, look_at(alloc, file.as_str(), claim, seed)?);
    }
    let seen = sum.all != 0;
    let denied = sum.denied != 0;
    Ok(format!(in alloc; "{located} {seen} {denied}")?)
}

// A claim with its numbers; whether the program says that it is true.
const CLAIMS: &[(&str, &str, u16, u16, &[u16], bool)] = &[
    ("hazards", "at d t { u.held r.kept }", 0, 0, &[2, 6], true),
    ("hazards", "at e t { u.held r.kept }", 1, 0, &[2, 6], true),
    ("hazards", "at f t { u.held }", 2, 0, &[2], true),
    ("hazards", "at d t { u.held }", 0, 0, &[2], false),
    ("hazards", "at d t { r.kept }", 0, 0, &[6], false),
    ("epochs-held", "at d t { u.in r.kept }", 0, 0, &[2, 6], true),
    ("epochs-held", "at f t { u.in }", 2, 0, &[2], true),
    ("epochs-held", "at d t { u.in }", 0, 0, &[2], false),
    ("mailbox", "at got t { u }", 0, 0, &[0], true),
    ("mailbox", "at seen t { u }", 1, 0, &[0], true),
    ("mailbox", "at gone t { u }", 2, 0, &[0], false),
];

#[test]
fn located_pointers_stand_in_their_locations(rt: HostRuntime) {
    for row in CLAIMS {
        let (name, text, label, local, locations, is_true) = *row;
        let claim = Claim {
            label,
            local,
            locations,
        };
        let want = if is_true {
            "true true false"
        } else {
            "false true true"
        };
        text_is(&rt, looked_at(rt.alloc(), name, text, claim), want, text);
    }
}
