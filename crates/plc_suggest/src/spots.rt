// All spots of a program, in order: step by step, of each step that has a primitive the shared pointers and then the
// pointer locals of its operation. The count is tested before the spots of a step are added, so a program with too many
// ends the list at once, and no more memory is taken than the most spots need.
ghost use Rattle.std.specs.Prelude.{◌≡◌, ◌<◌, ◌≤◌, ◌+◌, ◌++◌, ℕ, Err, IfOk, OnOk, length};
ghost use Rattle.plc_lang.specs.Fit.{FileFits};
ghost use Rattle.plc_flow.specs.WellFormed.{IsWellFormed};
ghost use Rattle.plc_flow.specs.Skeleton.{skeleton_of, pointers_by_point};
ghost use Rattle.plc_xfer.specs.Rules.{table};
ghost use Rattle.plc_suggest.specs.Spots.{pointer, spot, spots_of, spots_of_step};
ghost use Rattle.plc_suggest.specs.Suggestions.{most_spots};

use crate::spot::Spot;
use crate::suggestion::SuggestFault;
use plc_base::{NoMemory, StepId};
use plc_flow::Flow;
use plc_lang::{Prim, Var};
use std::alloc::Global;

/// How many spots a program may have.
const MOST_SPOTS: usize = 4096;

/// All spots of a flow, in order. `locals` are the counts of pointer locals by point.
pub(crate) fn all_spots(
    alloc: Global,
    flow: &Flow,
    locals: &[u16],
) -> Result<Vec<Spot>, SuggestFault>
    requires flow { IsWellFormed flow.now }
    requires file { FileFits flow.now.file }
    requires locals { locals.now ≡ pointers_by_point flow.now.file.ops flow.now.gates }
    ensures spots { IfOk result (λ spots. spots.items ≡ spots_of (skeleton_of flow.now)) }
    ensures few { IfOk result (λ spots. length spots.items ≤ most_spots) }
    ensures too_many { (count : ℕ) → result ≡ Err (SuggestFault.TooMany count)
        → (count ≡ most_spots + 1) × (most_spots < length (spots_of (skeleton_of flow.now))) }
{
    let shared = flow.file.shared.len() as u16;
    let mut spots = Vec::new(alloc);
    let steps = flow.steps.as_slice();
    for k in 0..steps.len() {
        let step = &steps[k];
        let here = locals[step.from.0 as usize];
        add_spots(
            StepId(k as u16),
            step.prims.as_slice(),
            shared,
            here,
            &mut spots,
        )?;
    }
    Ok(spots)
}

/// Adds the spots of a step at the end, shared pointers before pointer locals: none where it has no primitive.
fn add_spots(
    step: StepId,
    prims: &[Prim],
    shared: u16,
    locals: u16,
    spots: &mut Vec<Spot>,
) -> Result<(), SuggestFault>
    requires { length spots.old.items ≤ most_spots }
    ensures spots { OnOk result (spots.new.items ≡ spots.old.items ++ spots_of_step shared locals step.0 prims.now) }
    ensures few { OnOk result (length spots.new.items ≤ most_spots) }
    ensures too_many { (count : ℕ) → result ≡ Err (SuggestFault.TooMany count) → (count ≡ most_spots + 1)
        × (most_spots < length spots.old.items + length (spots_of_step shared locals step.0 prims.now)) }
{
    if prims.is_empty() {
        return Ok(());
    }
    if spots.len() + shared as usize + locals as usize > MOST_SPOTS {
        return Err(SuggestFault::TooMany {
            count: MOST_SPOTS as u32 + 1,
        });
    }
    add_numbered(step, true, shared, spots)?;
    add_numbered(step, false, locals, spots)?;
    Ok(())
}

/// Adds so many pointers in front of a step, which are shared or local, from number 0.
fn add_numbered(
    step: StepId,
    shared: bool,
    count: u16,
    spots: &mut Vec<Spot>,
) -> Result<(), NoMemory>
    ensures { OnOk result (spots.new.items ≡ spots.old.items ++ table 0 count (λ i. spot step.0 (pointer shared i))) }
{
    for number in 0..count {
        spots.push(Spot {
            step,
            var: pointer(shared, number),
        })?;
    }
    Ok(())
}

/// The shared pointer, or the pointer local, of a number.
fn pointer(shared: bool, number: u16) -> Var
    ensures { result ≡ pointer shared number }
{
    if shared {
        Var::Shared(number)
    } else {
        Var::Local(number)
    }
}
