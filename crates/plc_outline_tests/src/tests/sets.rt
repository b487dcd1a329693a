// Ground sets of obligations as an independent reading of the format gives them: one of each kind and one at depth 1
// whole (`whole_sets.rt` tells how a set is written), others by checksums, with loads, `retire` and premises at depth 1
// among them. So do those of files that use marks (`marked_sets.rt`).
ghost use Rattle.plc_vocabulary.specs.Fit.{Fits};

use crate::tests::checksums::{OF_DEEP, OF_DEEP_MARKED, OF_HAZARDS};
use crate::tests::deep::{DEEP, DEEP_MARKED};
use crate::tests::loading::{Asked, answered};
use crate::tests::marked_sets::MARKED_SETS;
use crate::tests::texts::text_is;
use crate::tests::whole_sets::{CLAIM, DEEP_START, ENTER, OTHER, OWN, START};
use plc_base::{NoMemory, What1};
use plc_check::Judged;
use plc_ground::{GroundSet, GroundTerm, Lit, Map, Sort, Symbol};
use plc_oblig::{Obligation, clauses, ground, nth};
use plc_testing::{HAZARDS, put};
use std::alloc::{AllocError, Global};
use std::process::Abort;

// The word of a symbol, and its number where it has one.
fn symbol_parts(symbol: Symbol) -> (&'static str, Option<u32>) {
    match symbol {
        Symbol::Null => ("null", None),
        Symbol::Shared(i) => ("s", Some(i as u32)),
        Symbol::Mine(k) => ("a", Some(k as u32)),
        Symbol::Theirs(k) => ("b", Some(k as u32)),
        Symbol::New => ("new", None),
        Symbol::Bound(i) => ("c", Some(i as u32)),
        Symbol::Loaded(k) => ("l", Some(k as u32)),
        Symbol::Yes => ("yes", None),
        Symbol::No => ("no", None),
        Symbol::Nobody => ("none", None),
        Symbol::Me => ("me", None),
        Symbol::You => ("you", None),
        Symbol::Value(v) => ("v", Some(v as u32)),
        Symbol::Number(n) => ("n", Some(n)),
        Symbol::MarkShared(i) => ("ms", Some(i as u32)),
        Symbol::MarkMine(k) => ("ma", Some(k as u32)),
        Symbol::MarkTheirs(k) => ("mb", Some(k as u32)),
        Symbol::MarkLoaded(k) => ("ml", Some(k as u32)),
    }
}

fn symbol_text(alloc: Global, symbol: Symbol) -> Result<String, AllocError> {
    match symbol_parts(symbol) {
        (word, None) => String::from_str(alloc, word),
        (word, Some(number)) => format!(in alloc; "{word}{number}"),
    }
}

fn term_text(alloc: Global, term: GroundTerm) -> Result<String, AllocError> {
    match term {
        GroundTerm::Const(symbol) => symbol_text(alloc, symbol),
        GroundTerm::App { map, version, arg } => match map {
            Map::Field(f) => format!(in alloc; "f{}.{version}@{arg}", f.0),
            Map::FieldMark(f) => format!(in alloc; "m{}.{version}@{arg}", f.0),
            Map::Ghost(g) => format!(in alloc; "g{g}.{version}@{arg}"),
            Map::Retired => format!(in alloc; "retired.{version}@{arg}"),
        },
    }
}

fn sort_text(alloc: Global, sort: Sort) -> Result<String, AllocError> {
    match sort {
        Sort::Node => format!(in alloc; "N"),
        Sort::Number => format!(in alloc; "D"),
        Sort::Value(g) => format!(in alloc; "V{g}"),
        Sort::Thread => format!(in alloc; "P"),
        Sort::Truth => format!(in alloc; "T"),
    }
}

fn lit_text(alloc: Global, lit: Lit) -> Result<String, AllocError> {
    let sign = if lit.equal { '=' } else { '!' };
    format!(in alloc; "{}{sign}{}", lit.left, lit.right)
}

// A part of a line, after a blank where it isn't the first.
fn push_part(line: &mut String, part: Result<String, AllocError>) -> Result<(), AllocError> {
    if !line.is_empty() {
        line.push(' ')?;
    }
    put(line, part)
}

fn push_line(text: &mut String, line: Result<String, AllocError>) -> Result<(), AllocError> {
    put(text, line)?;
    text.push('\n')
}

fn terms_line(alloc: Global, terms: &[GroundTerm]) -> Result<String, AllocError> {
    let mut line = String::new(alloc);
    for term in terms {
        push_part(&mut line, term_text(alloc, *term))?;
    }
    Ok(line)
}

fn sorts_line(alloc: Global, sorts: &[Sort]) -> Result<String, AllocError> {
    let mut line = String::new(alloc);
    for sort in sorts {
        push_part(&mut line, sort_text(alloc, *sort))?;
    }
    Ok(line)
}

fn clause_line(alloc: Global, clause: &[Lit]) -> Result<String, AllocError> {
    let mut line = String::new(alloc);
    for lit in clause {
        push_part(&mut line, lit_text(alloc, *lit))?;
    }
    Ok(line)
}

fn set_text(alloc: Global, set: &GroundSet) -> Result<String, AllocError> {
    let mut text = terms_line(alloc, set.terms.as_slice())?;
    text.push('\n')?;
    push_line(&mut text, sorts_line(alloc, set.sorts.as_slice()))?;
    for clause in set.clauses.as_slice() {
        push_line(&mut text, clause_line(alloc, clause.as_slice()))?;
    }
    Ok(text)
}

// That of FNV-1a.
fn checksum(text: &str) -> u32 {
    let mut sum: u32 = 0x811c_9dc5;
    for byte in text.as_bytes() {
        sum = (sum ^ *byte as u32).wrapping_mul(0x0100_0193);
    }
    sum
}

// A set, if it has this many clauses.
fn counted_text(alloc: Global, set: &GroundSet, count: u64) -> Result<String, AllocError> {
    if set.clauses.len() as u64 != count {
        return format!(in alloc; "{count} clauses were counted");
    }
    set_text(alloc, set)
}

// The set of an obligation, if it has as many clauses as are counted.
fn text_of(alloc: Global, judged: &Judged, o: &Obligation) -> Result<String, AllocError>
    requires { Fits judged.now.flow judged.now.unit_outline }
{
    let flow = &judged.flow;
    let outline = &judged.unit_outline;
    let count = clauses(flow, outline, o);
    if count > u64::from(What1::Clauses.most()) {
        return format!(in alloc; "too large");
    }
    match ground(alloc, flow, outline, o) {
        Ok(set) => {
            let text = counted_text(alloc, &set, count);
            drop(set);
            text
        }
        Err(_) => Err(AllocError),
    }
}

// The set of the obligation with a number.
#[derive(Clone, Copy)]
struct SetAt {
    i: u64,
}

impl Asked for SetAt {
    fn answer(&self, alloc: Global, judged: &Judged) -> Result<String, NoMemory> {
        match nth(&judged.flow, &judged.unit_outline, self.i) {
            None => Err(NoMemory),
            Some(o) => Ok(text_of(alloc, judged, &o)?),
        }
    }
}

// The set of an obligation of the file with these parts.
fn answer(alloc: Global, parts: &[&str], i: u64) -> Result<String, NoMemory> {
    let file = parts.concat(alloc)?;
    answered(alloc, file.as_str(), &SetAt { i })
}

#[test]
fn sets_are_those_of_the_format(rt: HostRuntime) -> Result<(), NoMemory> {
    for row in &[
        (0, START),
        (5, ENTER),
        (13, OWN),
        (2840, OTHER),
        (2841, CLAIM),
    ] {
        let (i, text) = *row;
        text_is(&rt, answer(rt.alloc(), &HAZARDS, i), text)?;
    }
    text_is(&rt, answer(rt.alloc(), &[DEEP], 0), DEEP_START)?;
    for row in MARKED_SETS {
        let (file, i, text) = *row;
        text_is(&rt, answer(rt.alloc(), &[file], i), text)?;
    }
    Ok(())
}

// The checksum of the set of an obligation.
fn checksum_of(alloc: Global, parts: &[&str], i: u64) -> Result<u32, NoMemory> {
    let text = answer(alloc, parts, i)?;
    Ok(checksum(text.as_str()))
}

// Fails a test where the set of a row has another checksum.
fn checksums_are(
    rt: &impl Abort,
    alloc: Global,
    name: &str,
    parts: &[&str],
    rows: &[(u64, u32)],
) -> Result<(), NoMemory> {
    for row in rows {
        let (i, sum) = *row;
        assert_eq!(rt; checksum_of(alloc, parts, i)?, sum, "{name} {i}");
    }
    Ok(())
}

#[test]
fn other_sets_have_their_checksums(rt: HostRuntime) -> Result<(), NoMemory> {
    checksums_are(&rt, rt.alloc(), "hazards", &HAZARDS, OF_HAZARDS)?;
    checksums_are(&rt, rt.alloc(), "deep", &[DEEP], OF_DEEP)?;
    checksums_are(
        &rt,
        rt.alloc(),
        "deep marked",
        &[DEEP_MARKED],
        OF_DEEP_MARKED,
    )
}
