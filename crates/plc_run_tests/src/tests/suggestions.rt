// Claims that are suggested, beside those that trying finds. In small files all sets of places for claims are tried,
// and then one place after the other is left out, as the definition says. In larger ones the claims that stand there
// are taken out, and those that are suggested must do in their stead, with none to spare. A claim is put into the flow
// itself, since not every place for one is a place in the text.
ghost use Rattle.std.specs.Prelude.{◌≡◌, ◌≤◌, IfOk, length};
ghost use Rattle.plc_lang.specs.Fit.{FileFits};
ghost use Rattle.plc_flow.specs.WellFormed.{IsWellFormed, most_step_primitives};

use crate::tests::texts::row_is;
use plc_auto::Observer;
use plc_base::{Items, NoMemory, OpId, StepId};
use plc_flow::{Flow, Step};
use plc_infer::{InferFault, infer};
use plc_lang::{Prim, Var, count_pointers};
use plc_suggest::{Spot, SuggestFault, Suggestion, suggest};
use plc_testing::{EPOCHS, HAZARDS, loaded};
use std::alloc::{AllocError, Global};

// The most primitives that a step may have, with the claims in front of them.
const MOST_PRIMITIVES: usize = 112;

// A mailbox of one message, which its reader takes, reads and retires.
const MAILBOX: &str =
    "struct Message { data val; } shared Box; op send(v) { ptr n; n := new; n.val := v; loop { choose { \
     atomic { assume Box == null; Box := n; n := null; } return; } or { } } } op receive() { ptr t; data x; choose { \
     atomic { t := Box; assume t != null; Box := null; } atomic { active t; x := t.val; } retire(active t); } or { } }";

// Primitives with a claim in front.
fn with_claim(alloc: Global, prims: &[Prim], var: Var) -> Result<Vec<Prim>, AllocError> {
    let mut all = Vec::new(alloc);
    all.push(Prim::Active { p: var })?;
    for prim in prims {
        all.push(*prim)?;
    }
    Ok(all)
}

// A step with a claim in front of its primitives. Where that would be too many, it is as if memory ran out.
fn claimed(alloc: Global, step: &Step, var: Var) -> Result<Step, NoMemory>
    ensures op { IfOk result (λ x. x.op ≡ step.now.op) }
    ensures from { IfOk result (λ x. x.from ≡ step.now.from) }
    ensures to { IfOk result (λ x. x.to ≡ step.now.to) }
    ensures short { IfOk result (λ x. length x.prims ≤ most_step_primitives) }
{
    let prims = with_claim(alloc, step.prims.as_slice(), var)?;
    if prims.len() > MOST_PRIMITIVES {
        return Err(NoMemory);
    }
    Ok(Step {
        op: step.op,
        from: step.from,
        to: step.to,
        prims: Items::from_vec(prims),
        line: step.line,
    })
}

// Puts a claim in front of a step.
fn put_claim(alloc: Global, flow: &mut Flow, spot: &Spot) -> Result<(), NoMemory>
    requires well { IsWellFormed flow.old }
    requires file { FileFits flow.old.file }
    ensures well { IsWellFormed flow.new }
    ensures file { FileFits flow.new.file }
{
    let k = spot.step.0 as usize;
    if k >= flow.steps.len() {
        return Err(NoMemory);
    }
    let step = claimed(alloc, &flow.steps.as_slice()[k], spot.var)?;
    flow.steps.set(k, step);
    Ok(())
}

// Puts claims in front of steps.
fn put_claims(alloc: Global, flow: &mut Flow, spots: &[Spot]) -> Result<(), NoMemory>
    requires well { IsWellFormed flow.old }
    requires file { FileFits flow.old.file }
    ensures well { IsWellFormed flow.new }
    ensures file { FileFits flow.new.file }
{
    for spot in spots {
        put_claim(alloc, flow, spot)?;
    }
    Ok(())
}

// Whether there is a typing with these claims.
fn is_typed(
    alloc: Global,
    flow: &mut Flow,
    observer: &Observer,
    spots: &[Spot],
) -> Result<bool, NoMemory>
    requires well { IsWellFormed flow.old }
    requires file { FileFits flow.old.file }
{
    put_claims(alloc, flow, spots)?;
    match infer(alloc, flow, observer) {
        Ok(_) => Ok(true),
        Err(InferFault::Stuck { .. }) => Ok(false),
        Err(InferFault::Memory) => Err(NoMemory),
    }
}

// Whether a file has a typing with these claims beside its own.
fn typable(alloc: Global, file: &str, spots: &[Spot]) -> Result<bool, NoMemory> {
    let mut judged = loaded(alloc, file)?;
    let observer = judged.observer;
    let typed = is_typed(alloc, &mut judged.flow, &observer, spots);
    drop(judged);
    typed
}

// The claims that are suggested, if any are enough.
fn found(answer: Result<Suggestion, SuggestFault>) -> Result<Option<Vec<Spot>>, NoMemory> {
    match answer {
        Ok(Suggestion::Found(spots)) => Ok(Some(spots.into_vec())),
        Ok(Suggestion::Insufficient { .. }) => Ok(None),
        Err(_) => Err(NoMemory),
    }
}

fn suggested(alloc: Global, file: &str) -> Result<Option<Vec<Spot>>, NoMemory> {
    let judged = loaded(alloc, file)?;
    let answer = suggest(alloc, &judged.flow, &judged.observer);
    drop(judged);
    found(answer)
}

// Adds the places in front of a step.
fn push_spots(
    spots: &mut Vec<Spot>,
    step: u16,
    shared: u16,
    locals: u16,
) -> Result<(), AllocError> {
    let step = StepId(step);
    for i in 0..shared {
        let var = Var::Shared(i);
        spots.push(Spot { step, var })?;
    }
    for i in 0..locals {
        let var = Var::Local(i);
        spots.push(Spot { step, var })?;
    }
    Ok(())
}

// How many pointer locals an operation has.
fn pointers_of(flow: &Flow, op: OpId) -> u16 {
    match flow.file.ops.get(op.0 as usize) {
        Some(op) => (count_pointers(op) % 65_536) as u16,
        None => 0,
    }
}

// All places for claims, in order.
fn spots_in(alloc: Global, flow: &Flow) -> Result<Vec<Spot>, AllocError> {
    let shared = (flow.file.shared.len() % 65_536) as u16;
    let mut spots = Vec::new(alloc);
    let mut k = 0u16;
    for step in flow.steps.as_slice() {
        if !step.prims.is_empty() {
            let locals = pointers_of(flow, step.op);
            push_spots(&mut spots, k, shared, locals)?;
        }
        k = k.wrapping_add(1);
    }
    Ok(spots)
}

fn all_spots(alloc: Global, file: &str) -> Result<Vec<Spot>, NoMemory> {
    let judged = loaded(alloc, file)?;
    let spots = spots_in(alloc, &judged.flow);
    drop(judged);
    Ok(spots?)
}

// A set of places is a number, in which the place with number n counts two to the n.
fn bit(number: u32) -> u32 {
    let mut bit = 1u32;
    for _ in 0..number {
        bit = bit.wrapping_mul(2);
    }
    bit
}

fn has(set: u32, number: u32) -> bool {
    set & bit(number) != 0
}

fn without(set: u32, number: u32) -> u32 {
    set & !bit(number)
}

fn count_of(spots: &[Spot]) -> u32 {
    (spots.len() % 32) as u32
}

// The places of a set.
fn chosen(alloc: Global, spots: &[Spot], set: u32) -> Result<Vec<Spot>, AllocError> {
    let mut some = Vec::new(alloc);
    let mut number = 0u32;
    for spot in spots {
        if has(set, number) {
            some.push(*spot)?;
        }
        number = number.wrapping_add(1);
    }
    Ok(some)
}

// For each set of places whether a file has a typing with claims there.
fn all_sets(alloc: Global, file: &str, spots: &[Spot]) -> Result<Vec<bool>, NoMemory> {
    let mut typed = Vec::new(alloc);
    for set in 0..bit(count_of(spots)) {
        let some = chosen(alloc, spots, set)?;
        let is_one = typable(alloc, file, &some);
        drop(some);
        typed.push(is_one?)?;
    }
    Ok(typed)
}

fn is_typed_by(typed: &[bool], set: u32) -> bool {
    typed.get(set as usize).copied().unwrap_or(false)
}

// What is left of all places where one after the other is left out, if there is a typing without it.
fn left(typed: &[bool], count: u32) -> u32 {
    let mut set = bit(count).wrapping_sub(1);
    for number in 0..count {
        if is_typed_by(typed, without(set, number)) {
            set = without(set, number);
        }
    }
    set
}

// How many sets have a typing that are a part of this one; itself is one.
fn parts(typed: &[bool], set: u32) -> u32 {
    let mut count = 0u32;
    let mut part = 0u32;
    for is_one in typed {
        if *is_one && part & !set == 0 {
            count = count.wrapping_add(1);
        }
        part = part.wrapping_add(1);
    }
    count
}

// How many of the first places a set has.
fn size(set: u32, count: u32) -> u32 {
    let mut size = 0u32;
    for number in 0..count {
        if has(set, number) {
            size = size.wrapping_add(1);
        }
    }
    size
}

// The size of the smallest set that has a typing.
fn least(typed: &[bool], count: u32) -> u32 {
    let mut least = count;
    let mut set = 0u32;
    for is_one in typed {
        if *is_one {
            least = size(set, count).min(least);
        }
        set = set.wrapping_add(1);
    }
    least
}

// What trying comes to: how many places there are and how many claims would do, then the places that are left.
fn tried_text(alloc: Global, typed: &[bool], count: u32) -> Result<String, AllocError> {
    let all = bit(count).wrapping_sub(1);
    if !is_typed_by(typed, all) {
        let parts = parts(typed, all);
        return format!(in alloc; "{count} places, {parts} do; none");
    }
    let set = left(typed, count);
    let least = least(typed, count);
    let mut text = format!(in alloc; "{count} places, {least} can do;")?;
    for number in 0..count {
        if has(set, number) {
            write!(text, " {number}")?;
        }
    }
    if parts(typed, set) != 1 {
        text.push_str(" or less")?;
    }
    Ok(text)
}

fn tried(alloc: Global, file: &str) -> Result<String, NoMemory> {
    let spots = all_spots(alloc, file)?;
    let typed = all_sets(alloc, file, &spots)?;
    Ok(tried_text(alloc, &typed, count_of(&spots))?)
}

// The numbers of some places among all.
fn numbers_text(alloc: Global, all: &[Spot], some: &[Spot]) -> Result<String, AllocError> {
    let mut text = String::new(alloc);
    let mut number = 0u32;
    for spot in all {
        if some.contains(spot) {
            write!(text, " {number}")?;
        }
        number = number.wrapping_add(1);
    }
    Ok(text)
}

// What is suggested.
fn suggested_text(alloc: Global, file: &str) -> Result<String, NoMemory> {
    let all = all_spots(alloc, file)?;
    match suggested(alloc, file)? {
        Some(some) => Ok(numbers_text(alloc, &all, &some)?),
        None => Ok(String::from_str(alloc, " none")?),
    }
}

// Files with what trying comes to. In the last but one a claim before the first branch would do for both, but a place
// for it comes first, and is left out first.
const TRIED: &str = "\
struct N { ptr f; } shared T; op g() { ptr p; p := T; p := p.f; } => 4 places, 1 can do; 3
struct N { } shared T; op g() { ptr p; p := T; assume p == T; } => 4 places, 2 can do; 2 3
struct N { } op g() { ptr p; p := new; retire(p); retire(p); } => 5 places, 1 can do; 3
struct N { ptr f; } shared T; op g() { ptr p; atomic { p := T; p := p.f; p := p.f; } } => 2 places, 0 do; none
struct N { ptr f; } shared T; op g() { ptr p; ptr q; p := T; atomic { q := unmark p; p := q.f; } p := q.f; } \
=> 9 places, 2 can do; 4 8
struct N { ptr f; } call h(ptr); use hazard(h); op g() { ptr t; t := new; t := t.f; h(t); \
choose { t := t.f; } or { t := t.f; } } => 6 places, 1 can do; 4 5
struct N { ptr f; } shared T; op take() { ptr p; p := T; T := null; retire(p); } op put() { T := new; } \
=> 9 places, 1 can do; 5
";

#[test]
fn suggested_claims_are_those_that_trying_leaves(rt: HostRuntime) -> Result<(), NoMemory> {
    for row in TRIED.lines() {
        let (file, want) = row.split_once(" => ").unwrap_or((row, ""));
        let (_, left) = want.split_once(";").unwrap_or(("", ""));
        row_is(&rt, file, tried(rt.alloc(), file), want)?;
        row_is(&rt, file, suggested_text(rt.alloc(), file), left)?;
    }
    Ok(())
}

// A text without the claims that stand in it: `active` goes in front of an argument, and else with its pointer.
fn without_claims(alloc: Global, file: &str) -> Result<String, AllocError> {
    let mut text = String::new(alloc);
    let mut is_first = true;
    for piece in file.split("active ") {
        let (name, rest) = piece.split_once(";").unwrap_or((piece, ""));
        let kept = if is_first || name.contains(")") {
            piece
        } else {
            rest
        };
        text.push_str(kept)?;
        is_first = false;
    }
    Ok(text)
}

// How often a file has a typing where one of some claims is left out.
fn typed_without_one(alloc: Global, file: &str, spots: &[Spot]) -> Result<u32, NoMemory> {
    let mut count = 0u32;
    for spot in spots {
        let others = all_but(alloc, spots, *spot)?;
        if typable(alloc, file, &others)? {
            count = count.wrapping_add(1);
        }
    }
    Ok(count)
}

fn all_but(alloc: Global, spots: &[Spot], one: Spot) -> Result<Vec<Spot>, AllocError> {
    let mut others = Vec::new(alloc);
    for spot in spots {
        if *spot != one {
            others.push(*spot)?;
        }
    }
    Ok(others)
}

// How many claims are suggested, whether they do, and how many of them could be spared.
fn spared_text(alloc: Global, file: &str, spots: &[Spot]) -> Result<String, NoMemory> {
    let count = spots.len();
    let none = typable(alloc, file, &[])?;
    let all = typable(alloc, file, spots)?;
    let spared = typed_without_one(alloc, file, spots)?;
    Ok(format!(in alloc; "{none} {count} {all} {spared}")?)
}

// The same for a text whose claims are taken out.
fn replaced(alloc: Global, pieces: &[&str]) -> Result<String, NoMemory> {
    let text = pieces.concat(alloc)?;
    let file = without_claims(alloc, text.as_str());
    drop(text);
    let file = file?;
    match suggested(alloc, file.as_str())? {
        Some(spots) => spared_text(alloc, file.as_str(), &spots),
        None => Ok(String::from_str(alloc, "none")?),
    }
}

#[test]
fn suggested_claims_stand_in_for_those_taken_out(rt: HostRuntime) -> Result<(), NoMemory> {
    let alloc = rt.alloc();
    row_is(&rt, "", replaced(alloc, &HAZARDS), "false 4 true 0")?;
    row_is(&rt, "", replaced(alloc, &EPOCHS), "false 4 true 0")?;
    row_is(&rt, "", replaced(alloc, &[MAILBOX]), "false 2 true 0")?;
    Ok(())
}
