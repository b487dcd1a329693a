// Copies of memories and of locals are equal to what was copied, and go on apart from it.
ghost use Rattle.plc_flow.specs.WellFormed.{FlowFits};
ghost use Rattle.plc_run.specs.Position.{IsOfRun};

use crate::tests::moves::{places_text, started, take_all};
use crate::tests::texts::text_is;
use plc_base::NoMemory;
use plc_check::Judged;
use plc_flow::Flow;
use plc_mem::{Locals, Memory};
use plc_run::Config;
use plc_testing::{loaded, put};
use std::alloc::{AllocError, Global};

const LINKED: &str =
    "struct Node { ptr next; data val; } shared Top; op put() { ptr n; ptr s; atomic { n := new; n.next := n; \
     Top := n; } retire(n); } op look() { ptr t; t := Top; }";

// Thread 0 has put the node 1 and retired it, and thread 1 holds it.
const SHARED: &str = "start 0 0\nstep 0 0 1\nstart 1 1\nstep 1 0\nstep 0 0\n";

// Puts a piece on a line of its own at the end of a text.
fn put_line<E: Drop + From<AllocError>>(
    text: &mut String,
    piece: Result<String, E>,
) -> Result<(), E> {
    text.push('\n')?;
    put(text, piece)
}

// A copy, the copy after its node is freed, and the memory that was copied.
fn both_text(alloc: Global, copy: &mut Memory, memory: &Memory) -> Result<String, AllocError> {
    let mut text = places_text(alloc, copy)?;
    copy.free(1);
    put_line(&mut text, places_text(alloc, copy))?;
    put_line(&mut text, places_text(alloc, memory))?;
    Ok(text)
}

// The three texts of a memory that is copied.
fn copies_text(alloc: Global, memory: &Memory) -> Result<String, NoMemory> {
    let mut copy = memory.copy()?;
    let text = both_text(alloc, &mut copy, memory);
    drop(copy);
    Ok(text?)
}

fn is_taken(memory: &mut Memory, t: u32) -> bool {
    memory.take(t).is_some()
}

// Whether the locals of thread 1 are taken at first, again, and of a thread past the last; and what is left.
fn taken_text(alloc: Global, memory: &mut Memory) -> Result<String, AllocError> {
    let first = is_taken(memory, 1);
    let again = is_taken(memory, 1);
    let past = is_taken(memory, 2);
    let places = places_text(alloc, memory)?;
    format!(in alloc; "{first} {again} {past} {places}")
}

// What is taken from a copy of a memory.
fn takes_text(alloc: Global, memory: &Memory) -> Result<String, NoMemory> {
    let mut copy = memory.copy()?;
    let text = taken_text(alloc, &mut copy);
    drop(copy);
    Ok(text?)
}

// A fresh memory in which thread 1 holds the locals, before or after the node is freed.
fn with_held(alloc: Global, flow: &Flow, locals: Locals, free: bool) -> Result<String, NoMemory> {
    let mut memory = Memory::new(alloc, flow, 2)?;
    memory.put(1, locals);
    if free {
        memory.free(1);
    }
    let places = places_text(alloc, &memory);
    drop(memory);
    Ok(places?)
}

// The locals of thread 1 where their node is freed, and a copy of them.
fn locals_text(alloc: Global, flow: &Flow, locals: Locals) -> Result<String, NoMemory> {
    let copy = locals.copy()?;
    let mut text = with_held(alloc, flow, locals, true)?;
    put_line(&mut text, with_held(alloc, flow, copy, false))?;
    Ok(text)
}

fn held_text(alloc: Global, flow: &Flow, memory: &Memory) -> Result<String, NoMemory> {
    let mut copy = memory.copy()?;
    let locals = copy.take(1);
    drop(copy);
    match locals {
        Some(locals) => locals_text(alloc, flow, locals),
        None => Err(NoMemory),
    }
}

fn all_copies(alloc: Global, flow: &Flow, memory: &Memory) -> Result<String, NoMemory> {
    let mut text = copies_text(alloc, memory)?;
    put_line(&mut text, takes_text(alloc, memory))?;
    put_line(&mut text, held_text(alloc, flow, memory))?;
    Ok(text)
}

// The copies after some moves.
fn moved_copies(alloc: Global, judged: &Judged, config: &mut Config) -> Result<String, NoMemory>
    requires fits { FlowFits judged.now.flow }
    requires of_run { IsOfRun judged.now.flow judged.now.observer config.old }
{
    take_all(alloc, &judged.flow, &judged.observer, config, &[SHARED])?;
    all_copies(alloc, &judged.flow, config.memory())
}

fn linked_copies(alloc: Global, judged: &Judged) -> Result<String, NoMemory>
    requires { FlowFits judged.now.flow }
{
    let mut config = started(alloc, &judged.flow, &judged.observer)?;
    let text = moved_copies(alloc, judged, &mut config);
    drop(config);
    text
}

fn copies(alloc: Global) -> Result<String, NoMemory> {
    let judged = loaded(alloc, LINKED)?;
    let text = linked_copies(alloc, &judged);
    drop(judged);
    text
}

const COPIES: &str = "Top=1 p=1 q=0 r=1 1.next=1 used 1 retired 1 
Top=1? p=1? q=0 r=1? 
Top=1 p=1 q=0 r=1 1.next=1 used 1 retired 1 
true false false Top=1 p=1 q=0 1.next=1 used 1 retired 1 
Top=0 r=1? 
Top=0 r=1 ";

#[test]
fn copies_are_equal_and_apart(rt: HostRuntime) -> Result<(), NoMemory> {
    text_is(&rt, copies(rt.alloc()), COPIES)?;
    Ok(())
}
