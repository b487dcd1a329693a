// A run in memory beside the garbage-collected run of the same moves without the frees: an address that is
// allocated again has a new node, and a pointer that wasn't refreshed keeps the old one.
ghost use Rattle.plc_flow.specs.WellFormed.{FlowFits};
ghost use Rattle.plc_flow.specs.WellSorted.{FlowIsWellSorted};
ghost use Rattle.plc_gc.specs.Position.{IsOfRun};
ghost use Rattle.plc_run.specs.Position.{IsOfRun as IsOfMemoryRun};

use crate::tests::collected::move_of;
use crate::tests::loading::{Runs, ran};
use crate::tests::texts::text_is;
use plc_base::NoMemory;
use plc_check::Judged;
use plc_gc::GcConfig;
use plc_mem::Memory;
use plc_moves::Place;
use plc_run::Config;
use plc_testing::put;
use std::alloc::{AllocError, Global};

// Places by short names: the shared pointer, and the first local of each thread.
const PLACES: &[(&str, Place)] = &[
    ("Top", Place::Shared(0)),
    ("t", Place::Local { t: 0, v: 0 }),
    ("u", Place::Local { t: 1, v: 0 }),
];

// Each place that is there with its number in memory, after which `?` says that it is invalid, and its node.
fn places_text(alloc: Global, memory: &Memory, collected: &GcConfig) -> Result<String, AllocError> {
    let mut text = String::new(alloc);
    for row in PLACES {
        let (name, place) = *row;
        if let Some(number) = memory.number(&place) {
            let doubt = if memory.valid(&place) { "" } else { "?" };
            let node = collected.node(&place).unwrap_or(9);
            put(
                &mut text,
                format!(in alloc; " {name}={number}{doubt}/{node}"),
            )?;
        }
    }
    Ok(text)
}

// One move in memory and, where it is no free, in the garbage-collected run; or the places.
fn answer(
    alloc: Global,
    judged: &Judged,
    config: &mut Config,
    collected: &mut GcConfig,
    line: &str,
) -> Result<String, NoMemory>
    requires fits { FlowFits judged.now.flow }
    requires sorted { FlowIsWellSorted judged.now.flow }
    requires of_run { IsOfMemoryRun judged.now.flow judged.now.observer config.old }
    requires of_collected_run { IsOfRun judged.now.flow collected.old }
    ensures of_run { IsOfMemoryRun judged.now.flow judged.now.observer config.new }
    ensures of_collected_run { IsOfRun judged.now.flow collected.new }
{
    if line.starts_with("places") {
        return Ok(places_text(alloc, config.memory(), collected)?);
    }
    let m = move_of(alloc, line)?;
    let moved = config.step(&judged.flow, &judged.observer, &m)?;
    if line.starts_with("free") {
        return Ok(format!(in alloc; "{moved:?}")?);
    }
    let came = collected.step(&judged.flow, &m)?;
    Ok(format!(in alloc; "{moved:?} {came:?}")?)
}

// The lines of a text, each with what it comes to; what stands after an arrow is not read, but written anew.
fn answers(
    alloc: Global,
    judged: &Judged,
    lines: &str,
    config: &mut Config,
    collected: &mut GcConfig,
) -> Result<String, NoMemory>
    requires of_run { IsOfMemoryRun judged.now.flow judged.now.observer config.old }
    requires of_collected_run { IsOfRun judged.now.flow collected.old }
    requires fits { FlowFits judged.now.flow }
    requires sorted { FlowIsWellSorted judged.now.flow }
{
    let mut text = String::new(alloc);
    for line in lines.lines() {
        let line = line.split(" => ").next().unwrap_or("");
        let came = answer(alloc, judged, config, collected, line)?;
        put(&mut text, format!(in alloc; "{line} => {came}\n"))?;
    }
    Ok(text)
}

// The answers of a run in memory with two threads and of the garbage-collected run beside it.
fn run_beside(
    alloc: Global,
    judged: &Judged,
    lines: &str,
    config: &mut Config,
) -> Result<String, NoMemory>
    requires fits { FlowFits judged.now.flow }
    requires sorted { FlowIsWellSorted judged.now.flow }
    requires of_run { IsOfMemoryRun judged.now.flow judged.now.observer config.old }
{
    match GcConfig::start(alloc, &judged.flow, 2) {
        Ok(mut collected) => {
            let text = answers(alloc, judged, lines, config, &mut collected);
            drop(collected);
            text
        }
        Err(_) => Err(NoMemory),
    }
}

// A run in memory and the garbage-collected run beside it.
pub(crate) struct Both;

impl Runs for Both {
    fn transcript(&self, alloc: Global, judged: &Judged, lines: &str) -> Result<String, NoMemory> {
        match Config::start(alloc, &judged.flow, &judged.observer, 2) {
            Ok(mut config) => {
                let text = run_beside(alloc, judged, lines, &mut config);
                drop(config);
                text
            }
            Err(_) => Err(NoMemory),
        }
    }
}

const STACK: &str = "struct Node { ptr next; }
shared Top;
call protect(ptr);
use hazard(protect);
op put(v) { ptr n; n := new; Top := n; }
op take() { ptr t; t := Top; Top := null; retire(t); }
op look() { ptr t; ptr s; t := Top; protect(t); t ?= Top; s := t.next; }
op peek() { ptr t; ptr s; t := Top; s := t.next; }
";

// Thread 0 reads `Top` and then looks at the node, between which thread 1 takes it, has it freed, and puts a new
// one at its address.
const RUN: &str = "start 1 0 => Done Done
step 1 0 1 => Done Done
step 1 0 => Done Done
step 1 0 => Done Done
return 1 => Done Done
start 0 2 => Done Done
step 0 0 => Done Done
places =>  Top=1/1 t=1/1
start 1 1 => Done Done
step 1 0 => Done Done
step 1 0 => Done Done
step 1 0 => Done Done
places =>  Top=0/0 t=1/1 u=1/1
free 1 => Done
places =>  Top=0/0 t=1?/1 u=1?/1
step 1 0 => Done Done
step 1 0 => Done Done
return 1 => Done Done
start 1 0 => Done Done
step 1 0 1 => Done Done
places =>  Top=0/0 t=1?/1 u=1/2
step 1 0 => Done Done
step 0 0 => Done Done
step 0 0 => Done Done
step 0 0 => Done Done
places =>  Top=1/2 t=1/2 u=1/2
step 0 0 => Done Done
";

#[test]
fn a_used_address_has_its_last_node(rt: HostRuntime) -> Result<(), NoMemory> {
    text_is(&rt, ran(rt.alloc(), STACK, &Both, RUN), RUN)
}
