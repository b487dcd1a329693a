// A stack whose nodes are protected by hazard pointers, with its outline: what each move comes to, which node each
// place holds, which claims a step reaches, and which clauses are true.
ghost use Rattle.plc_flow.specs.WellFormed.{FlowFits};
ghost use Rattle.plc_flow.specs.WellSorted.{FlowIsWellSorted};
ghost use Rattle.plc_gc.specs.Position.{IsOfRun};

use crate::tests::loading::{Runs, ran};
use crate::tests::texts::text_is;
use plc_base::{FieldId, Items, NoMemory, OpId};
use plc_check::Judged;
use plc_flow::Flow;
use plc_gc::{GcConfig, holds};
use plc_logic::{Clause, Item, Outline};
use plc_moves::{Move, Place, StartFault};
use plc_testing::{HAZARDS, put};
use std::alloc::{AllocError, Global};

// The number of a word, 0 where it is none.
fn number(word: Option<&str>) -> u32 {
    word.unwrap_or("0").parse::<u32>().unwrap_or(0)
}

// The first three words after the first, as numbers.
fn three(line: &str) -> (u32, u32, u32) {
    let mut words = line.split_whitespace();
    let _word = words.next();
    let first = number(words.next());
    let second = number(words.next());
    (first, second, number(words.next()))
}

// The address that a step names; 0 is none.
fn address(number: u32) -> Option<u32> {
    if number == 0 { None } else { Some(number) }
}

// `start T OP` with one argument to the first operation, `step T NTH [ADDRESS]`, `return T` and, for each other
// word, `free`.
pub(crate) fn move_of(alloc: Global, line: &str) -> Result<Move, AllocError> {
    let (t, second, third) = three(line);
    let nth = (second % 65536) as u16;
    if line.starts_with("start") {
        let args = if nth == 0 {
            vec![in alloc; third]?
        } else {
            Vec::new(alloc)
        };
        return Ok(Move::Start {
            t,
            op: OpId(nth),
            args: Items::from_vec(args),
        });
    }
    if line.starts_with("step") {
        return Ok(Move::Step {
            t,
            nth,
            addr: address(third),
        });
    }
    if line.starts_with("return") {
        return Ok(Move::Return { t });
    }
    Ok(Move::Free { a: t })
}

const NEXT: FieldId = FieldId(0);

const VAL: FieldId = FieldId(1);

// Places by short names: the shared pointer, two locals of two threads, and the fields of null and two nodes.
const PLACES: &[(&str, Place)] = &[
    ("Top", Place::Shared(0)),
    ("n", Place::Local { t: 0, v: 0 }),
    ("t", Place::Local { t: 0, v: 1 }),
    ("t'", Place::Local { t: 1, v: 0 }),
    ("s'", Place::Local { t: 1, v: 1 }),
    ("0.next", Place::Cell { a: 0, f: NEXT }),
    ("1.next", Place::Cell { a: 1, f: NEXT }),
    ("1.val", Place::Cell { a: 1, f: VAL }),
    ("2.next", Place::Cell { a: 2, f: NEXT }),
];

// Each place that is there with its node.
fn places_text(alloc: Global, config: &GcConfig) -> Result<String, AllocError> {
    let mut text = String::new(alloc);
    for row in PLACES {
        let (name, place) = *row;
        if let Some(node) = config.node(&place) {
            put(&mut text, format!(in alloc; " {name}={node}"))?;
        }
    }
    Ok(text)
}

// Truths as a word of `y` and `n`.
fn truths_text(alloc: Global, truths: &[bool]) -> Result<String, AllocError> {
    let mut text = String::new(alloc);
    for truth in truths {
        text.push_str(if *truth { "y" } else { "n" })?;
    }
    Ok(text)
}

// The truth of one clause for a thread, its names standing for two nodes.
fn is_true(clause: &Clause, config: &GcConfig, line: &str) -> bool {
    let (t, x, y) = three(line);
    holds(clause, config, Some(t), &[x, y])
}

// The items of `push T` or `pop T`.
fn items_of<'a>(items: &'a [Item], line: &str) -> &'a [Item] {
    if line.starts_with("push") {
        return items.get(..3).unwrap_or(&[]);
    }
    items.get(3..).unwrap_or(&[])
}

// The truths that `invariants T X Y`, `push T` or `pop T` asks for.
fn outline_truths(
    alloc: Global,
    outline: &Outline,
    config: &GcConfig,
    line: &str,
) -> Result<Vec<bool>, AllocError> {
    let mut truths = Vec::new(alloc);
    if line.starts_with("invariants") {
        for clause in outline.invariants.as_slice() {
            truths.push(is_true(clause, config, line))?;
        }
        return Ok(truths);
    }
    for item in items_of(outline.items.as_slice(), line) {
        truths.push(is_true(&item.clause, config, line))?;
    }
    Ok(truths)
}

fn outline_text(
    alloc: Global,
    judged: &Judged,
    config: &GcConfig,
    line: &str,
) -> Result<String, AllocError> {
    let truths = outline_truths(alloc, &judged.unit_outline, config, line)?;
    truths_text(alloc, &truths)
}

// The truth of the claims of a step.
fn claims_text(
    alloc: Global,
    flow: &Flow,
    config: &GcConfig,
    t: u32,
    nth: u16,
) -> Result<String, NoMemory>
    requires of_run { IsOfRun flow.now config.now }
    requires fits { FlowFits flow.now }
    requires sorted { FlowIsWellSorted flow.now }
{
    let truths = config.claims(flow, t, nth)?;
    Ok(truths_text(alloc, &truths)?)
}

// What a line comes to: `places`, `claims T NTH`, clauses of the outline, or a move.
fn answer(
    alloc: Global,
    judged: &Judged,
    config: &mut GcConfig,
    line: &str,
) -> Result<String, NoMemory>
    requires fits { FlowFits judged.now.flow }
    requires sorted { FlowIsWellSorted judged.now.flow }
    requires of_run { IsOfRun judged.now.flow config.old }
    ensures { IsOfRun judged.now.flow config.new }
{
    if line.starts_with("places") {
        return Ok(places_text(alloc, config)?);
    }
    if line.starts_with("claims") {
        let (t, nth, _) = three(line);
        return claims_text(alloc, &judged.flow, config, t, (nth % 65536) as u16);
    }
    if line.starts_with("invariants") || line.starts_with("p") {
        return Ok(outline_text(alloc, judged, config, line)?);
    }
    let m = move_of(alloc, line)?;
    let moved = config.step(&judged.flow, &m)?;
    Ok(format!(in alloc; "{moved:?}")?)
}

// The lines of a text, each with what it comes to; what stands after an arrow is not read, but written anew.
fn answers(
    alloc: Global,
    judged: &Judged,
    config: &mut GcConfig,
    lines: &str,
) -> Result<String, NoMemory>
    requires of_run { IsOfRun judged.now.flow config.old }
    requires fits { FlowFits judged.now.flow }
    requires sorted { FlowIsWellSorted judged.now.flow }
    ensures { IsOfRun judged.now.flow config.new }
{
    let mut text = String::new(alloc);
    for line in lines.lines() {
        let (line, _) = line.split_once(" => ").unwrap_or((line, ""));
        let came = answer(alloc, judged, config, line)?;
        put(&mut text, format!(in alloc; "{line} => {came}\n"))?;
    }
    Ok(text)
}

// A garbage-collected run alone.
struct Collected;

impl Runs for Collected {
    fn transcript(&self, alloc: Global, judged: &Judged, lines: &str) -> Result<String, NoMemory> {
        match GcConfig::start(alloc, &judged.flow, 2) {
            Ok(mut config) => {
                let text = answers(alloc, judged, &mut config, lines);
                drop(config);
                text
            }
            Err(StartFault::NoStart) => Ok(String::from_str(alloc, "no start")?),
            Err(StartFault::Memory) => Err(NoMemory),
        }
    }
}

// One thread pushes a node; then it pushes a second one while the other thread pops and retires the first, so that
// its refresh is of another node than `Top`.
const RUN: &str = "places =>  Top=0
step 0 0 => Blocked
start 2 0 7 => Blocked
start 0 2 => Blocked
start 0 0 7 => Done
start 0 0 7 => Blocked
step 0 1 => Blocked
return 0 => Blocked
claims 0 0 => 
step 0 0 => Done
places =>  Top=0 n=1 t=0 1.next=0
invariants 0 1 1 => yyyyy
push 0 => yyy
push 1 => yyy
step 0 0 => Done
step 0 0 => Done
step 0 0 => Done
invariants 0 1 1 => yyyyy
step 0 0 => Done
step 0 0 => Done
step 0 0 => Done
places =>  Top=1 n=0 t=0 1.next=0
invariants 0 1 1 => yyyyy
push 0 => yyy
step 0 0 => Done
return 0 => Done
return 0 => Blocked
places =>  Top=1 1.next=0
start 1 1 => Done
start 0 0 5 => Done
step 0 0 => Done
step 0 0 => Done
step 0 0 => Done
step 0 0 => Done
step 0 0 => Done
step 0 0 => Done
places =>  Top=1 n=2 t=1 t'=0 s'=0 1.next=0 2.next=1
step 1 0 => Done
step 1 0 => Done
step 1 0 => Blocked
step 1 1 => Done
step 1 0 => Done
step 1 0 => Done
step 1 0 => Done
step 1 0 => Done
claims 1 0 => y
step 1 0 => Done
step 1 0 => Done
pop 1 => yyynny
step 1 0 => Done
claims 1 0 => y
step 1 0 => Done
places =>  Top=0 n=2 t=1 t'=1 s'=0 1.next=0 2.next=1
pop 1 => yyyyyy
claims 1 0 => y
step 1 0 => Done
claims 1 0 => 
claims 1 1 => 
pop 1 => yyyyyn
free 1 => Done
free 0 => Done
step 0 0 => Done
places =>  Top=2 n=0 t=1 t'=1 s'=0 1.next=0 2.next=0
invariants 0 2 1 => yyyyy
invariants 0 1 2 => yyyyy
";

#[test]
fn runs_of_a_stack(rt: HostRuntime) -> Result<(), NoMemory> {
    let file = HAZARDS.concat(rt.alloc())?;
    text_is(&rt, ran(rt.alloc(), file.as_str(), &Collected, RUN), RUN)
}

// A blocked `init`, and one that writes an auxiliary field of null.
#[test]
fn runs_begin(rt: HostRuntime) -> Result<(), NoMemory> {
    let file = "struct N { ptr f; } shared T; init { T.f := null; }";
    text_is(&rt, ran(rt.alloc(), file, &Collected, "places"), "no start")?;
    let file =
        "struct N { ptr f; } shared T; ghost g { a, b }; init { ghost T.g := b; } outline { inv T.g == b; \
         inv T.g == a; }";
    text_is(
        &rt,
        ran(rt.alloc(), file, &Collected, "places\ninvariants 0\n"),
        "places =>  Top=0\ninvariants 0 => yn\n",
    )
}
