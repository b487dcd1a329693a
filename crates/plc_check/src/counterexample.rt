// What breaks one obligation. One that is still, alike one that was found to be kept, or untouched by its step is known
// to be kept without a set. Of each other the ground set is made and given to the solver, which closes it or finds a
// model: the state in which the step breaks the clause.
//
// Of one step all obligations are still or none is. So still ones needn't be noted, but untouched ones are: where alike
// ones are looked for, the clauses of a point stand in their order.
ghost use Rattle.std.specs.Prelude.{◌≡◌, IfOk, OnOk, IsTrue, Contains};
ghost use Rattle.plc_oblig.specs.Programs.{ProgramFits, Serves, obligations_of};
ghost use Rattle.plc_oblig.specs.Outlines.{IsKept};
ghost use Rattle.plc_check.specs.Counterexamples.{IsCounterexampleAt, NotedAreKept};

use plc_base::NoMemory;
use plc_ground::{GroundModel, GroundSet};
use plc_oblig::{AlikeObligations, Annotated, Grounding, Obligation, still, untouched};
use plc_solve::find_model;

/// An obligation that isn't kept, with its ground set and a model of it.
#[derive(Drop)]
pub struct Counterexample {
    pub obligation: Obligation,
    /// The ground set of the obligation.
    pub set: GroundSet,
    /// A model of that set: the state in which the step breaks the clause.
    pub model: GroundModel,
}

/// Whether the obligation is known to be kept before its set is made: it is still, or one that is alike was found to be
/// kept, which has the same set.
fn is_known_kept(program: &Annotated<'_>, kept: &AlikeObligations, o: &Obligation) -> bool
    requires fits { ProgramFits program.now }
    requires there { Contains (obligations_of program.now) o.now }
    requires kept { NotedAreKept program.now.flow.now program.now.outline.now kept.now }
    ensures { IsTrue result → IsKept program.now.flow.now program.now.outline.now o.now }
{
    if still(program.flow, program.outline, o) {
        return true;
    }
    match kept.find(program.flow, program.outline, o) {
        Some(_) => true,
        None => false,
    }
}

/// What breaks one obligation, if it isn't kept, as the solver answers to its ground set.
fn broken_at(
    memory: &mut Grounding,
    program: &Annotated<'_>,
    obligation: Obligation,
) -> Result<Option<Counterexample>, NoMemory>
    requires fits { ProgramFits program.now }
    requires serves { Serves memory.old program.now }
    ensures serves { Serves memory.new program.now }
    ensures found { IfOk result (IsCounterexampleAt program.now.flow.now program.now.outline.now obligation) }
{
    let set = memory.ground(program, &obligation)?;
    match find_model(memory.alloc, &set) {
        Ok(Some(model)) => Ok(Some(Counterexample {
            obligation,
            set,
            model,
        })),
        Ok(None) => {
            memory.reuse(set);
            Ok(None)
        }
        Err(NoMemory) => Err(NoMemory),
    }
}

/// What breaks one obligation, if it isn't kept. One that is kept is noted.
pub(crate) fn counterexample_at(
    memory: &mut Grounding,
    program: &Annotated<'_>,
    kept: &mut AlikeObligations,
    obligation: Obligation,
) -> Result<Option<Counterexample>, NoMemory>
    requires fits { ProgramFits program.now }
    requires there { Contains (obligations_of program.now) obligation }
    requires kept { NotedAreKept program.now.flow.now program.now.outline.now kept.old }
    requires serves { Serves memory.old program.now }
    ensures serves { Serves memory.new program.now }
    ensures found { IfOk result (IsCounterexampleAt program.now.flow.now program.now.outline.now obligation) }
    ensures kept { OnOk result (NotedAreKept program.now.flow.now program.now.outline.now kept.new) }
{
    if is_known_kept(program, kept, &obligation) {
        return Ok(None);
    }
    if untouched(program.flow, program.outline, &obligation) {
        kept.note(&obligation, 0)?;
        return Ok(None);
    }
    match broken_at(memory, program, obligation)? {
        Some(found) => Ok(Some(found)),
        None => {
            // Only that it is found counts here, so it may have any number.
            kept.note(&obligation, 0)?;
            Ok(None)
        }
    }
}
