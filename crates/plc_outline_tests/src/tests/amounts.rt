// How large ground sets are: those of all obligations of a file together, as an independent reading of the format
// counts them (it takes each of the six empty clauses of the stack for one literal, they have none), and one with as
// many clauses as there may be.
ghost use Rattle.plc_vocabulary.specs.Fit.{Fits};

use crate::tests::deep::{DEEP, DEEP_MARKED};
use crate::tests::loading::{Asked, answered};
use crate::tests::texts::text_is;
use plc_base::{Items, LARGEST_FILE, NoMemory};
use plc_check::{Judged, LoadFault, load};
use plc_ground::{GroundSet, Lit};
use plc_oblig::{Obligation, clauses, ground, nth};
use plc_testing::HAZARDS;
use std::alloc::{AllocError, Global};

// Sums over sets, and the most clauses that one has.
#[derive(Clone, Copy)]
struct Amounts {
    sets: u64,
    terms: u64,
    clauses: u64,
    literals: u64,
    most_clauses: u64,
}

const NOTHING: Amounts = Amounts {
    sets: 0,
    terms: 0,
    clauses: 0,
    literals: 0,
    most_clauses: 0,
};

// A struct with eight pointer fields, sixteen shared pointers and an operation with nine pointer locals, whose one
// step does nothing.
const WIDE: &str = "struct Node { ptr a; ptr b; ptr c; ptr d; ptr e; ptr f; ptr g; ptr h; }
shared S0; shared S1; shared S2; shared S3; shared S4; shared S5; shared S6; shared S7;
shared S8; shared S9; shared S10; shared S11; shared S12; shared S13; shared S14; shared S15;
op go() { ptr p0; ptr p1; ptr p2; ptr p3; ptr p4; ptr p5; ptr p6; ptr p7; ptr p8; }
";

// Premises with two names and with one, which are instantiated at 251 nodes, and with none. Where the step keeps
// the first of them these are 63001, 2510 and 22 clauses, and the denied conclusion has 3 more. The step has the
// most clauses there, since the two names of the conclusion are nodes too.
const FULL: &str = "outline { depth 1;
inv all x, y: x == y;
inv all x: x == null; inv all x: x == null; inv all x: x == null; inv all x: x == null; inv all x: x == null;
inv all x: x == null; inv all x: x == null; inv all x: x == null; inv all x: x == null; inv all x: x == null;
inv S0 == null; inv S0 == null; inv S0 == null; inv S0 == null; inv S0 == null; inv S0 == null; inv S0 == null;
inv S0 == null; inv S0 == null; inv S0 == null; inv S0 == null; inv S0 == null; inv S0 == null; inv S0 == null;
inv S0 == null; inv S0 == null; inv S0 == null; inv S0 == null; inv S0 == null; inv S0 == null; inv S0 == null;
inv S0 == null;
";

fn literals_of(clauses: &[Items<Lit>]) -> u64 {
    let mut literals: u64 = 0;
    for clause in clauses {
        literals = literals.wrapping_add(clause.len() as u64);
    }
    literals
}

fn add(sum: Amounts, set: &GroundSet) -> Amounts {
    let clauses = set.clauses.len() as u64;
    Amounts {
        sets: sum.sets.wrapping_add(1),
        terms: sum.terms.wrapping_add(set.terms.len() as u64),
        clauses: sum.clauses.wrapping_add(clauses),
        literals: sum
            .literals
            .wrapping_add(literals_of(set.clauses.as_slice())),
        most_clauses: if clauses > sum.most_clauses {
            clauses
        } else {
            sum.most_clauses
        },
    }
}

fn with(alloc: Global, sum: Amounts, judged: &Judged, o: &Obligation) -> Result<Amounts, AllocError>
    requires { Fits judged.now.flow judged.now.unit_outline }
{
    match ground(alloc, &judged.flow, &judged.unit_outline, o) {
        Ok(set) => Ok(add(sum, &set)),
        Err(_) => Err(AllocError),
    }
}

// Over the obligations from one number on, at most so many.
fn sum_of(alloc: Global, judged: &Judged, from: u64, most: u64) -> Result<Amounts, AllocError>
    requires { Fits judged.now.flow judged.now.unit_outline }
{
    let mut sum = NOTHING;
    for i in 0..most {
        match nth(&judged.flow, &judged.unit_outline, from.wrapping_add(i)) {
            None => return Ok(sum),
            Some(o) => sum = with(alloc, sum, judged, &o)?,
        }
    }
    Ok(sum)
}

#[derive(Clone, Copy)]
struct Sums {
    from: u64,
    most: u64,
}

impl Asked for Sums {
    fn answer(&self, alloc: Global, judged: &Judged) -> Result<String, NoMemory> {
        let sum = sum_of(alloc, judged, self.from, self.most)?;
        Ok(format!(in alloc;
            "{} sets, {} terms, {} clauses, {} literals, at most {} clauses",
            sum.sets, sum.terms, sum.clauses, sum.literals, sum.most_clauses
        )?)
    }
}

fn answer(alloc: Global, file: &str, from: u64, most: u64) -> Result<String, NoMemory> {
    answered(alloc, file, &Sums { from, most })
}

// How many clauses are counted for the obligation with a number.
#[derive(Clone, Copy)]
struct Counted(u64);

impl Asked for Counted {
    fn answer(&self, alloc: Global, judged: &Judged) -> Result<String, NoMemory> {
        match nth(&judged.flow, &judged.unit_outline, self.0) {
            None => Err(NoMemory),
            Some(o) => {
                let count = clauses(&judged.flow, &judged.unit_outline, &o);
                Ok(format!(in alloc; "{count}")?)
            }
        }
    }
}

fn no_refusal(judged: Judged) -> &'static str {
    drop(judged);
    "none"
}

fn fault_text(alloc: Global, fault: &LoadFault) -> Result<String, AllocError> {
    format!(in alloc; "{fault:?}")
}

// Why a file is refused.
fn refusal(alloc: Global, file: &str) -> Result<String, AllocError> {
    if file.len() > LARGEST_FILE {
        return Err(AllocError);
    }
    match load(alloc, file.as_bytes()) {
        Ok(judged) => String::from_str(alloc, no_refusal(judged)),
        Err(fault) => fault_text(alloc, &fault),
    }
}

#[test]
fn sets_are_as_large_as_the_format_says(rt: HostRuntime) -> Result<(), NoMemory> {
    let alloc = rt.alloc();
    text_is(
        &rt,
        answer(alloc, HAZARDS.concat(alloc)?.as_str(), 0, 10000),
        "2845 sets, 95254 terms, 213959 clauses, 1039687 literals, at most 114 clauses",
    )?;
    text_is(
        &rt,
        answer(alloc, DEEP, 0, 10000),
        "677 sets, 81385 terms, 313503 clauses, 1759449 literals, at most 742 clauses",
    )?;
    text_is(
        &rt,
        answer(alloc, DEEP_MARKED, 0, 10000),
        "221 sets, 15425 terms, 46467 clauses, 274972 literals, at most 340 clauses",
    )?;
    let full = format!(in alloc; "{WIDE}{FULL}}}\n")?;
    text_is(&rt, answered(alloc, full.as_str(), &Counted(33)), "65536")?;
    text_is(
        &rt,
        answer(alloc, full.as_str(), 33, 1),
        "1 sets, 256 terms, 65536 clauses, 194048 literals, at most 65536 clauses",
    )?;
    let more = format!(in alloc; "{WIDE}{FULL}inv S0 == null;\n}}\n")?;
    text_is(
        &rt,
        refusal(alloc, more.as_str()),
        "Limit { what: Clauses, count: 65537 }",
    )?;
    Ok(())
}
