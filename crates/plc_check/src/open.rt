// What breaks an outline. Its obligations are gone over in their order until as many that aren't kept were found as are
// asked for: `check` asks for one. A ground set is kept only of those that were found. What is found goes into a list
// that the caller owns, so that the loop owns nothing large.
ghost use Rattle.std.specs.Prelude.{◌≡◌, [], IfOk};
ghost use Rattle.plc_vocabulary.specs.Fit.{Fits};
ghost use Rattle.plc_oblig.specs.Programs.{ProgramFits, Serves, obligations_of};
ghost use Rattle.plc_check.specs.Counterexamples.{IsFirstCounterexample};
ghost use Rattle.plc_check.specs.Open.{AreOpen};

use crate::counterexample::{Counterexample, counterexample_at};
use crate::judged::Judged;
use plc_base::{Items, NoMemory};
use plc_oblig::{AlikeObligations, Annotated, Grounding, Walk, annotate};
use std::alloc::Global;

/// What breaks an outline, obligation by obligation.
#[derive(Drop)]
pub struct OpenObligations {
    /// What breaks those that were found, in their order.
    pub found: Items<Counterexample>,
    /// Whether all obligations were looked at; if not, there may be more that aren't kept.
    pub all: bool,
}

/// Puts what breaks the obligations that a walk hands out into a list, until there is as much as is asked for, and
/// answers whether all were looked at. The walk stands at its beginning, and nothing is noted or found yet.
fn find_on_walk(
    memory: &mut Grounding,
    program: &Annotated<'_>,
    kept: &mut AlikeObligations,
    walk: &mut Walk<'_>,
    most: usize,
    found: &mut Items<Counterexample>,
) -> Result<bool, NoMemory>
    requires fits { ProgramFits program.now }
    requires begun { walk.old ≡ obligations_of program.now }
    requires none_noted { kept.old ≡ [] }
    requires none_found { found.old ≡ [] }
    requires serves { Serves memory.old program.now }
    ensures { IfOk result (λ all. AreOpen program.now.flow.now program.now.outline.now most
        (record { found = found.new; all = all })) }
{
    'obligations: while found.len() < most {
        let Some(obligation) = walk.next() else {
            return Ok(true);
        };
        let broken = counterexample_at(memory, program, kept, obligation)?;
        let Some(broken) = broken else {
            continue;
        };
        found.push(broken)?;
    }
    Ok(false)
}

/// The obligations that aren't kept, in order, each with its ground set and a model of that, at most `most` of them;
/// `all` says whether every obligation was looked at. The search ends with the last that is asked for, and then `all`
/// is false even if no obligation is left. The sets are made one at a time, and only those of what is found are kept.
/// The one error is that memory runs out, which 2^32 terms or clauses of a ground set count as.
pub fn open_obligations(
    alloc: Global,
    judged: &Judged,
    most: usize,
) -> Result<OpenObligations, NoMemory>
    requires { Fits judged.now.flow judged.now.unit_outline }
    ensures { IfOk result (AreOpen judged.now.flow judged.now.unit_outline most) }
{
    let program = annotate(&judged.flow, &judged.unit_outline);
    let mut walk = Walk::new(alloc, &judged.flow, &judged.unit_outline)?;
    let mut memory = Grounding::new(alloc);
    let mut kept = AlikeObligations::new(alloc);
    let mut found = Items::new(alloc);
    let all = find_on_walk(
        &mut memory,
        &program,
        &mut kept,
        &mut walk,
        most,
        &mut found,
    );
    drop(walk);
    drop(memory);
    drop(kept);
    Ok(OpenObligations { found, all: all? })
}

/// What breaks the least obligation that isn't kept, if the outline doesn't hold.
pub(crate) fn first_counterexample(
    alloc: Global,
    judged: &Judged,
) -> Result<Option<Counterexample>, NoMemory>
    requires { Fits judged.now.flow judged.now.unit_outline }
    ensures { IfOk result (IsFirstCounterexample judged.now.flow judged.now.unit_outline) }
{
    let answer = open_obligations(alloc, judged, 1)?;
    Ok(answer.found.into_vec().pop())
}
