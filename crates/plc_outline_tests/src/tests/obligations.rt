// How many obligations files have, and which stand at some numbers. `s0` is that of a start and its invariant, `e0.1`
// that of an operation's entry and its clause, `o0.1` that of a step and its clause, `i0.1.2` that of a step, a
// point and its clause, `c0.1` that of a step and its primitive.
ghost use Rattle.plc_vocabulary.specs.Fit.{Fits};

use crate::tests::deep::DEEP;
use crate::tests::loading::{Asked, answered};
use crate::tests::texts::text_is;
use plc_base::NoMemory;
use plc_check::Judged;
use plc_flow::Flow;
use plc_logic::Outline;
use plc_oblig::{Obligation, count, nth};
use plc_testing::{EPOCHS, HAZARDS, put};
use std::alloc::{AllocError, Global};

fn obligation_text(alloc: Global, o: Obligation) -> Result<String, AllocError> {
    match o {
        Obligation::Start { inv } => format!(in alloc; "s{inv}"),
        Obligation::Enter { op, clause } => format!(in alloc; "e{}.{clause}", op.0),
        Obligation::Own { step, clause } => format!(in alloc; "o{}.{clause}", step.0),
        Obligation::Other {
            step,
            point,
            clause,
        } => format!(in alloc; "i{}.{}.{clause}", step.0, point.0),
        Obligation::Claim { step, prim } => format!(in alloc; "c{}.{prim}", step.0),
    }
}

fn push_obligation(
    alloc: Global,
    text: &mut String,
    found: Option<Obligation>,
) -> Result<(), AllocError> {
    match found {
        None => text.push_str(" none"),
        Some(o) => {
            text.push(' ')?;
            put(text, obligation_text(alloc, o))
        }
    }
}

// The obligations with these numbers.
fn push_obligations(
    alloc: Global,
    text: &mut String,
    flow: &Flow,
    outline: &Outline,
    numbers: &[u64],
) -> Result<(), AllocError>
    requires { Fits flow.now outline.now }
{
    for i in numbers {
        push_obligation(alloc, text, nth(flow, outline, *i))?;
    }
    Ok(())
}

fn text_of(
    alloc: Global,
    flow: &Flow,
    outline: &Outline,
    numbers: &[u64],
) -> Result<String, AllocError>
    requires { Fits flow.now outline.now }
{
    let mut text = format!(in alloc; "{}:", count(flow, outline))?;
    push_obligations(alloc, &mut text, flow, outline, numbers)?;
    Ok(text)
}

// How many obligations a file has, and those with these numbers.
#[derive(Clone, Copy)]
struct Listed<'a> {
    numbers: &'a [u64],
}

impl<'a> Asked for Listed<'a> {
    fn answer(&self, alloc: Global, judged: &Judged) -> Result<String, NoMemory> {
        Ok(text_of(alloc, &judged.flow, &judged.unit_outline, self.numbers)?)
    }
}

fn answer(alloc: Global, file: &str, numbers: &[u64]) -> Result<String, NoMemory> {
    answered(alloc, file, &Listed { numbers })
}

#[test]
fn obligations_are_those_of_the_lists(rt: HostRuntime) -> Result<(), NoMemory> {
    let alloc = rt.alloc();
    let of_hazards: [u64; 19] = [
        0, 5, 6, 9, 13, 14, 17, 60, 120, 200, 267, 300, 777, 1500, 2222, 2840, 2841, 2844, 2845,
    ];
    text_is(
        &rt,
        answer(alloc, HAZARDS.concat(alloc)?.as_str(), &of_hazards),
        "2845: s0 e0.0 e0.1 o0.0 o0.4 o0.5 o1.0 o6.3 o15.1 o27.3 i0.0.0 i0.12.0 i7.26.0 i18.23.0 i29.19.0 i38.36.0 \
         c23.1 c31.0 none",
    )?;
    text_is(
        &rt,
        answer(alloc, EPOCHS.concat(alloc)?.as_str(), &[0, 2559]),
        "2559: s0 none",
    )?;
    let deep: [u64; 16] = [
        2, 3, 4, 8, 17, 44, 98, 115, 231, 289, 376, 579, 674, 675, 676, 677,
    ];
    text_is(
        &rt,
        answer(alloc, DEEP, &deep),
        "677: s2 e0.0 e1.0 o0.3 o2.1 o9.1 o22.2 i0.14.0 i5.5.0 i7.13.1 i11.2.1 i19.3.2 c1.1 c11.1 c13.0 none",
    )?;
    Ok(())
}
